// Gains in decibels, and how they are printed.
use std::io;

pub fn decibels(gain: f32) -> f32 {
    20.0 * single_power::log10(gain)
}

// The number of decimal digits; 0 has one.
fn digits(n: u64) -> usize {
    match n.checked_ilog10() {
        Some(below) => below as usize + 1,
        None => 1,
    }
}

// The magnitude in hundredths, rounded to the nearest, halves away from 0.
fn hundredths(db: f32) -> u64 {
    counts::floor_to_count(float32::order::abs(db) * 100.0 + 0.5) as u64
}

// n hundredths with two decimals, right-aligned.
fn print_hundredths(rt: &impl Print, width: usize, sign: &str, n: u64) -> io::Result<()> {
    let whole = n / 100;
    let length = digits(whole).wrapping_add(sign.len()).wrapping_add(3);
    let margin = width.saturating_sub(length);
    print!(rt; "{:margin$}{sign}{whole}.{:02}", "", n % 100)
}

// To the nearest hundredth; silence has no logarithm.
pub fn print_decibels(rt: &impl Print, width: usize, gain: f32) -> io::Result<()> {
    if gain == 0.0 {
        return print!(rt; "{:>width$}", "-inf");
    }
    let db = decibels(gain);
    let sign = if db < 0.0 { "-" } else { "" };
    print_hundredths(rt, width, sign, hundredths(db))
}
