// IEEE 754's square root: the nearest f32, so the error is at most half a unit of the last place.
//
// Method: a positive number is digits * 4^fours, in units of the square of the smallest f32, with
// digits of 47 or 48 bits (`even_power`). So the root of the digits has the 24 bits of an f32, and
// fours is the result's exponent. The root is found bit by bit, without a table (`whole_root`), and
// rounded by the remainder (`nearest_root`): no root lies midway between two values, so there are
// no ties.
#![tactic(auto)]

ghost use Rattle.std.specs.Prelude.{◌≡◌, ◌*◌, ◌^◌, ◌<◌, ◌≤◌};
ghost use Rattle.std.specs.Float.{binary32};
ghost use Rattle.square_root.specs.Root.{IsRoot, IsNearestRoot, ByFours, nearest_root};
ghost use Rattle.square_root.specs.Root.{square_root_of};

// digits * 4^fours
#[derive(Clone, Copy)]
struct EvenPower {
    digits: u64,
    fours: u32,
}

// mant * 2^(expo + 149): mant is shifted up to 47 bits, and by one more where the exponent left
// over would be odd.
fn even_power(mant: u32, expo: u32) -> EvenPower
    requires { (0 < mant) × (mant < 2 ^ 24) × (expo ≤ 253) }
    ensures { ByFours (mant * 2 ^ expo * 2 ^ 149) result.digits result.fours }
{
    let lead = u32::leading_zeros(mant) - 8;
    let rest = expo + 126 - lead;
    EvenPower {
        digits: (mant as u64) << (lead + 23 + rest % 2),
        fours: rest / 2,
    }
}

// The integer part of the root of n, from its highest bit down.
fn whole_root(n: u64) -> u64
    requires { n < 2 ^ 48 }
    ensures { IsRoot n result }
{
    let mut r: u64 = 0;
    for k in (0..24u32).rev() {
        let t = r + (1u64 << k);
        if t * t <= n {
            r = t;
        }
    }
    r
}

// The whole number nearest to the root of n: q + 1 where n is above (q + 1/2)^2.
fn nearest_root(n: u64) -> u64
    requires { (0 < n) × (n < 2 ^ 48) }
    ensures { IsNearestRoot n result }
{
    let q = whole_root(n);
    if q < n - q * q { q + 1 } else { q }
}

// The root of mant * 2^(expo - 149), a positive number. The leading bit of q carries into the
// exponent field.
fn root_of_positive(mant: u32, expo: u32) -> f32
    requires { (0 < mant) × (mant < 2 ^ 24) × (expo ≤ 253) }
    ensures { result ≡ nearest_root binary32 (mant * 2 ^ expo * 2 ^ 149) }
{
    let p = even_power(mant, expo);
    let digits = p.digits;
    let fours = p.fours;
    let q = nearest_root(digits);
    f32::from_bits((fours << 23) + (q as u32))
}

// The square root of any float.
pub fn sqrt(x: f32) -> f32
    ensures { result ≡ square_root_of binary32 x }
{
    if x != x {
        return x;
    }
    let d = float32::bits::decode(x);
    let neg = d.neg;
    let mant = d.mant;
    let expo = d.expo;
    if mant == 0 {
        return x; // with its sign
    }
    if neg {
        return 0.0 / 0.0;
    }
    if expo > 253 {
        return x;
    }
    root_of_positive(mant, expo)
}
