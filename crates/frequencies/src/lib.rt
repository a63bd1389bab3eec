// The frequencies of the bins of a spectrum, and the table of their logarithms. Preparing the table
// outside the audio callback removes the logarithm from the bins x partials loop.
#![tactic(auto)]

pub mod rows;

ghost use Rattle.std.specs.Prelude.{◌≡◌, ◌^◌, ◌≤◌, length};
ghost use Rattle.lists.specs.Maps.{tabulate};
ghost use Rattle.power.specs.Table.{power_table};
ghost use Rattle.frequencies.specs.Frequency.{bin_hertz, hertz_or_zero, prepared};

use power::table::{PowerTable, power_table};

// The bin spacing in hertz. A size up to 2^24 is exact as an f32.
pub fn bin_hz(sample_rate: f32, fft_size: usize) -> f32
    requires { fft_size ≤ 2 ^ 24 }
    ensures { result ≡ bin_hertz sample_rate fft_size }
{
    sample_rate / fft_size as f32
}

// A bin's frequency; 0 for bin 0.
fn hertz(bin: usize, bin_hz: f32) -> f32
    requires { bin ≤ 2 ^ 24 }
    ensures { result ≡ hertz_or_zero bin_hz bin }
{
    if bin == 0 {
        return 0.0;
    }
    bin as f32 * bin_hz
}

fn fill_hertz(table: &mut [f32], bin_hz: f32)
    requires { length table.old ≤ 2 ^ 24 }
    ensures { table.new
        ≡ tabulate (length table.old) (hertz_or_zero bin_hz) }
{
    for bin in 0..table.len() {
        table[bin] = hertz(bin, bin_hz);
    }
}

// The frequencies, then their logarithms in place; bin 0, whose frequency has no logarithm, gets 0.
fn fill_all(powers: &PowerTable, table: &mut [f32], sample_rate: f32, fft_size: usize)
    requires { (fft_size ≤ 2 ^ 24) × (length table.old ≤ 2 ^ 24) }
    ensures { table.new
        ≡ tabulate (length table.old) (prepared sample_rate fft_size) }
{
    let spacing = bin_hz(sample_rate, fft_size);
    fill_hertz(table, spacing);
    let count = table.len();
    power_rows::log2::log2_row(table, powers, count);
}

// Fills the table, from bin 0 on. To be done after a sample-rate or FFT-size change.
pub fn fill(table: &mut [f32], sample_rate: f32, fft_size: usize)
    requires { (fft_size ≤ 2 ^ 24) × (length table.old ≤ 2 ^ 24) }
    ensures { table.new
        ≡ tabulate (length table.old) (prepared sample_rate fft_size) }
{
    let powers = power_table();
    fill_all(&powers, table, sample_rate, fft_size);
}
