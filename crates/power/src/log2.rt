ghost use Rattle.std.specs.Prelude.{◌≡◌, ◌+◌, ◌-◌, ◌*◌, ◌/◌, ◌^◌, ◌<◌, ◌≤◌, T};
ghost use Rattle.power.specs.Table.{high_bits, low_bits, power_table, P, I};
ghost use Rattle.power.specs.Log.{greatest, positive_normal, L2};
ghost use Rattle.power.specs.Stages.{digits_of, guess_of, EndsAt};

use crate::exp2::LARGEST;
use crate::table::{LOW_BITS, LOW_MASK, PowerEntries};

pub const LEAST_NORMAL: f32 = 1.1754944e-38;

// From 4 to 8 the last bit of an f64 is 2^-50. SIX minus a quotient of at most 1 lies there.
const SIX: f64 = 6.0;

// A step of 2^-LOW_BITS is this many bits above the last one. From 4 to 6 there are 2^(LOW_BITS+1)
// steps.
const STEP_DIGITS: u64 = 50 - LOW_BITS;

const LAST_LEFT: u32 = (LOW_MASK * 2 + 1) as u32;

// t = 2^7 * M for v = M * 2^(e - 23): v's mantissa, scaled as the table's entries are.
pub fn digits(v: f32) -> u32
    requires { T (positive_normal v) }
    ensures { result ≡ digits_of v }
{
    ((f32::to_bits(v) & 0x7f_ffff) | 0x80_0000) << 7
}

// log2(1 + x) is slightly above x * (1.4369 - x * (0.672 - x * (0.3147 - x * 0.0798))). These are
// the four factors in parts of 2^52, 2^41, 2^30 and 2^19: the products below then need no shift.
const FIRST: u64 = 6471222304568666;

const SECOND: u64 = 1477743627730;

const THIRD: u64 = 337906552;

const FOURTH: u64 = 41838;

// The table step that contains t = 2^30 * (1 + x), or the one before, from the eleven leading bits
// of x. proofs/Guess.antt tests all values of those bits.
pub fn guess(t: u32) -> u16
    ensures { result ≡ guess_of t }
{
    let m = ((t >> 19) & 0x7ff) as u64;
    ((m * (FIRST - m * (SECOND - m * (THIRD - m * FOURTH)))) >> 53) as u16
}

// The step that contains t: the last whose entry is at most t. It is the guess h or the step after
// it, and `next` is the entry between the two. The result of the comparison is added as a number,
// since a branch on it would be unpredictable.
pub fn step_from(h: u32, next: u32, t: u32) -> u32
    requires { (2 ^ 30 ≤ t) × (t < 2 ^ 31) × (h ≡ guess_of t) × (next ≡ P (h + 1)) }
    ensures { result ≡ greatest P t (2 ^ high_bits) }
{
    h + ((next <= t) as u32)
}

// The same, from the table.
pub fn step_of<E: PowerEntries>(powers: &E, t: u32) -> u32
    requires { (2 ^ 30 ≤ t) × (t < 2 ^ 31) }
    ensures { result ≡ greatest P t (2 ^ high_bits) }
{
    let h = guess(t) as usize;
    step_from(h as u32, powers.entry(h + 1), t)
}

// ((x << LOW_BITS) - 1) / d, by one f64 division: one less than x / d in steps of 2^-LOW_BITS,
// rounded up. So SIX - x / d has its steps rounded down, and the low bits of its pattern count them
// from 4 up. Both operations round, and the count is still right: x / d is a whole number of steps,
// which rounding keeps, or farther from one than the rounding error (proofs/Quotient.antt).
fn place(x: u32, d: u32) -> u32
    requires { (0 < x) × (x ≤ d) × (d ≤ 2 ^ 30) }
    ensures { result ≡ (x * 2 ^ low_bits - 1) / d }
{
    let part = ((x as i32) as f64) / ((d as i32) as f64);
    LAST_LEFT - (((f64::to_bits(-part + SIX) & 0xf_ffff_ffff_ffff) >> STEP_DIGITS) as u32)
}

// The greatest F with I(F) <= t: its high bits are the step h that contains t, from P[h] = a to
// P[h + 1] = b, its low bits the position within the step.
fn find(t: u32, h: u32, a: u32, b: u32) -> u32
    requires { (2 ^ 30 ≤ t) × (t < 2 ^ 31) × EndsAt t h a b }
    ensures { result ≡ greatest I t (2 ^ 24) }
{
    (h << LOW_BITS) + place(t - a + 1, b - a)
}

// The logarithm of a positive normal v, whose digits t lie in step h, from P[h] = a to
// P[h + 1] = b.
pub fn log_in_step(v: f32, t: u32, h: u32, a: u32, b: u32) -> f32
    requires { T (positive_normal v) × (t ≡ digits_of v) × EndsAt t h a b }
    ensures { result ≡ L2 v }
{
    let e = ((f32::to_bits(v) >> 23) as i32) - 127;
    // F has 24 bits. The mask tells the compiler so, which then converts F with one instruction.
    let f = float32::bits::fraction(find(t, h, a, b) & 0xff_ffff);
    f + (e as f32)
}

// log2(v) of a positive normal v: L2 of document 01; of any other v 0.
//
// Method. v = M * 2^(e - 23), read from the bit pattern. F is the greatest 24-bit number whose
// power, by exp2's table P (table.rt), is at most M / 2^23, so that log2 undoes exp2. The table
// step is found by a polynomial guess and one comparison, the position within the step by one
// division. F / 2^24 and e are exact, and their sum is rounded once. No branch depends on the value
// of a positive normal v. power_rows does the same for a row of numbers, single_power for one
// number without the table.
// Error, measured over every mantissa: F / 2^24 is at most 1.4e-7 below and 2.1e-9 above the
// fraction of log2(v), to which the rounding adds up to half a unit of the last place.
pub fn log2<E: PowerEntries>(powers: &E, v: f32) -> f32
    ensures { result ≡ L2 v }
{
    if !(LEAST_NORMAL <= v) {
        return 0.0;
    }
    if !(v <= LARGEST) {
        return 0.0;
    }
    let t = digits(v);
    let h = step_of(powers, t);
    let a = powers.entry(h as usize);
    let b = powers.entry(h as usize + 1);
    log_in_step(v, t, h, a, b)
}
