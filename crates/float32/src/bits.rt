// A float and its bit pattern: the sign bit, 8 exponent bits, and the 23 bits below the implicit
// leading 1.
ghost use Rattle.std.specs.Prelude.{◌≡◌, ◌≤◌, min, false, not, T, from_bits, is_nan, to_bits};
ghost use Rattle.std.specs.Float.Ieee.{round};
ghost use Rattle.std.specs.Float.{binary32};
ghost use Rattle.float32.specs.Value.{Decoded};

// The bit pattern of a float. Every NaN gives the quiet NaN with its sign clear.
pub fn bits_of(x: f32) -> u32
    ensures { result ≡ to_bits binary32 x }
{
    if x != x { 0x7fc0_0000 } else { f32::to_bits(x) }
}

// The float with a bit pattern. Apart from the sign bit, every pattern above infinity's is a NaN.
pub fn of_bits(n: u32) -> f32
    ensures { result ≡ from_bits binary32 n }
{
    if 0x7f80_0000 < n & 0x7fff_ffff {
        0.0 / 0.0
    } else {
        f32::from_bits(n)
    }
}

// A float other than NaN as mant * 2^(expo - 149), negative where neg is true. Infinity counts as
// 2^128.
#[derive(Clone, Copy)]
pub struct Parts {
    pub neg: bool,
    pub mant: u32,
    pub expo: u32,
}

pub fn decode(x: f32) -> Parts
    requires { T (not (is_nan x)) }
    ensures { Decoded x result.neg result.mant result.expo }
{
    let b: u32 = f32::to_bits(x);
    let neg = b >> 31 == 1;
    let e = (b >> 23) & 0xff;
    let t = b & 0x7f_ffff;
    if e == 0 {
        return Parts {
            neg,
            mant: t,
            expo: 0,
        };
    }
    Parts {
        neg,
        mant: t | 0x80_0000,
        expo: e - 1,
    }
}

// F / 2^24
pub fn fraction(f: u32) -> f32
    requires { f ≤ 16777216 }
    ensures { result ≡ round binary32 false f 16777216 }
{
    ((f as i32) as f32) / 16777216.0
}

// A shift count of at most 31: for numbers below 2^31 a longer right shift gives the same.
pub fn capped_shift(places: u32) -> u32
    ensures { result ≡ min places 31 }
{
    if places < 31 { places } else { 31 }
}
