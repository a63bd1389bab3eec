ghost use Rattle.std.specs.Prelude.{◌≡◌, ◌*◌, ◌/◌, ◌%◌, ◌^◌, ◌≤◌, ◌<◌, T};
ghost use Rattle.std.specs.Float.Ieee.{le, lt};
ghost use Rattle.float32.specs.Value.{moved};
ghost use Rattle.power.specs.Table.{low_bits, power_table, P, I};
ghost use Rattle.power.specs.Power.{lowest, limit, power_at, E2};

use crate::table::{PowerEntries, interpolate};
use fixed_point::{LEAST, far_steps, near_steps};
use float32::order::{abs, in_range};

pub const LARGEST: f32 = 3.4028235e38;

// Below LOWEST the result is 0, from LIMIT up it is LARGEST. LOWEST..HIGHEST, which lies between,
// reaches as far on both sides of 0, so that one comparison tests it.
pub const LOWEST: f32 = -126.0;

pub const HIGHEST: f32 = 126.0;

pub const LIMIT: f32 = 128.0;

// `near_steps` adds 2^10 to x and `far_steps` 2^23. Their excess over 128, in steps of 2^-24:
// 896 * 2^24 and 8388480 * 2^24.
const NEAR_MORE: u64 = 15032385536;

pub const FAR_MORE: u64 = 140735340871680;

// floor((x + 128) * 2^24): the integer part of the exponent above its 24 fraction bits, F.
pub fn steps(x: f32) -> u64
    requires { T (le lowest x) × T (lt x limit) }
    ensures { result ≡ moved 128 x }
{
    if LEAST <= abs(x) {
        return near_steps(x) - NEAR_MORE;
    }
    far_steps(x) - FAR_MORE
}

// 2^(y / 2^24 - 128) from I(F), where F is y's 24 low bits: the leading bits of I(F) are added to
// the exponent field, into which their leading 1 carries.
pub fn power_of_steps(y: u64, i: u64) -> f32
    requires { (2 * 2 ^ 24 ≤ y) × (y < 256 * 2 ^ 24) × (i ≡ I (y % 2 ^ 24)) }
    ensures { result ≡ power_at low_bits P (y / 2 ^ 24) (y % 2 ^ 24) }
{
    let n = y >> 24;
    let q = i >> 7;
    f32::from_bits((((n - 2) << 23) + q) as u32)
}

// 2^x for an x between the ends.
fn power_between<E: PowerEntries>(powers: &E, x: f32) -> f32
    requires { T (le lowest x) × T (lt x limit) }
    ensures { result ≡ E2 x }
{
    let y = steps(x);
    power_of_steps(y, interpolate(powers, y & 0xff_ffff))
}

// 2^x: E2 of document 01.
//
// Method. x + 128 is rounded down to a multiple of 2^-24 by one addition (fixed_point): its integer
// part gives the exponent of the result, its 24 fraction bits are F. The table P (table.rt) holds
// the powers from 2^30 to 2^31 in equal steps of the exponent, rounded down; the high bits of F
// choose an entry, and the low bits interpolate linearly to the next. The 24 leading bits of that
// are added to the exponent field. power_rows does the same for a row of numbers, single_power for
// one number without the table.
// Error, measured over the floats from -126 to 128: from -1.6e-7 to 5.7e-8 of 2^x. The line lies
// above the curve, and rounding down lowers it.
pub fn exp2<E: PowerEntries>(powers: &E, x: f32) -> f32
    ensures { result ≡ E2 x }
{
    if in_range(x, LOWEST, HIGHEST) {
        return power_between(powers, x);
    }
    if !(LOWEST <= x) {
        return 0.0;
    }
    if !(x < LIMIT) {
        return LARGEST;
    }
    power_between(powers, x)
}
