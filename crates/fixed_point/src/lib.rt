// A float in fixed point: its floor in steps of 2^-24, by one f64 addition. exp2 (`power`,
// `power_rows`) and the sine (`sine`, `sine_rows`) reduce their arguments with it.
#![tactic(auto)]

ghost use Rattle.std.specs.Prelude.{◌≡◌, ◌^◌, T};
ghost use Rattle.std.specs.Float.Ieee.{neg, le};
ghost use Rattle.float32.specs.Value.{moved};
ghost use Rattle.float32.specs.Order.{within, magnitude};
ghost use Rattle.fixed_point.specs.Fixed.{farthest, nearby, least};

// 2^-18: an f32 of this size or more has no bits below 2^-41.
pub const LEAST: f32 = 0.000003814697265625;

// 2^11 + 2^10, and 2^28 + 2^23
const LARGE: f64 = 3072.0;

const LARGER: f64 = 276824064.0;

// floor((x + 2^10) * 2^24), for an x whose size is in 2^-18..2^9.
//
// Method. x + LARGE lies between 2^11 and 2^12, where the last bit of an f64 is 2^-41, and x has no
// bits below that: so the sum is exact. The low bits of its pattern are its excess over 2^11 in
// units of 2^-41, and a shift rounds that down to steps of 2^-24.
pub fn near_steps(x: f32) -> u64
    requires { T (within (neg nearby) nearby x) × T (le least (magnitude x)) }
    ensures { result ≡ moved (2 ^ 10) x }
{
    (f64::to_bits((x as f64) + LARGE) & 0xf_ffff_ffff_ffff) >> 17
}

// floor((x + 2^23) * 2^24), for an x from -2^23 to 2^23.
//
// Method. x + LARGER lies between 2^28 and 2^29, where the last bit of an f64 is 2^-24. So the sum
// is rounded to whole steps, and the low bits of its pattern count them from 2^28 up. Where it was
// rounded up the floor is one less: there sum - LARGER, which is exact, is greater than x.
pub fn far_steps(x: f32) -> u64
    requires { T (within (neg farthest) farthest x) }
    ensures { result ≡ moved (2 ^ 23) x }
{
    let wide = x as f64;
    let sum = wide + LARGER;
    (f64::to_bits(sum) & 0xf_ffff_ffff_ffff) - ((wide < sum - LARGER) as u64)
}
