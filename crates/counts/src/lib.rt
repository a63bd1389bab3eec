// Rust's `x.floor() as usize` and `x.ceil() as usize`, from the number's bits.
// Method: x = mant * 2^(expo - 149), so its integer part is mant shifted left for an expo of 149 or
// more, else right. To round up, 2^places - 1 is added before the right shift. From 2^64 up, and
// for infinity, the result is the largest usize.
#![tactic(auto)]

ghost use Rattle.std.specs.Prelude.{◌≡◌, ◌≤◌, ◌<◌, ◌^◌};
ghost use Rattle.counts.specs.Counts.{whole, count_of, floor_count, ceil_count, millionths};

use float32::bits::{capped_shift, decode};

pub fn floor_to_count(x: f32) -> usize
    ensures { result ≡ floor_count x }
{
    to_count(false, x)
}

pub fn ceil_to_count(x: f32) -> usize
    ensures { result ≡ ceil_count x }
{
    to_count(true, x)
}

fn to_count(up: bool, x: f32) -> usize
    ensures { result ≡ count_of up x }
{
    if x != x {
        return 0;
    }
    let d = decode(x);
    let neg = d.neg;
    let mant = d.mant as u64;
    let expo = d.expo;
    if neg {
        return 0;
    }
    if expo < 149 {
        return shifted(up, mant, capped_shift(149 - expo)) as usize;
    }
    if expo < 190 {
        return (mant << (expo - 149)) as usize;
    }
    0xffff_ffff_ffff_ffff
}

// mant / 2^places, rounded down or up.
fn shifted(up: bool, mant: u64, places: u32) -> u64
    requires { (mant < 2 ^ 24) × (places ≤ 31) }
    ensures { result ≡ whole up mant (2 ^ places) }
{
    if up {
        return (mant + ((1u64 << places) - 1)) >> places;
    }
    mant >> places
}

// 2^44 in millionths.
const MOST_MILLIONTHS: u64 = 17_592_186_044_416_000_000;

// floor(x · 10^6), by the same shifts. 0 for negative numbers and NaN; from 2^44 up that of 2^44.
pub fn millionths(x: f32) -> u64
    ensures { result ≡ millionths x }
{
    if x != x {
        return 0;
    }
    let d = decode(x);
    let neg = d.neg;
    let digits = (d.mant as u64) * 1_000_000;
    let expo = d.expo;
    if neg {
        return 0;
    }
    if expo < 105 {
        return 0; // all digits stand below the point
    }
    if expo < 149 {
        return digits >> (149 - expo);
    }
    if expo < 170 {
        return digits << (expo - 149);
    }
    MOST_MILLIONTHS
}
