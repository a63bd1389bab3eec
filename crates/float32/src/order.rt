// Maximum, minimum, clamp and absolute value, and the tests that the limits use.
ghost use Rattle.std.specs.Prelude.{◌≡◌};
ghost use Rattle.float32.specs.Order.{maximum, minimum, clamp, magnitude, within, finite};

// The greater of the two; if one is NaN, the other. Of two zeros the first.
pub fn max(a: f32, b: f32) -> f32
    ensures { result ≡ maximum a b }
{
    if a < b {
        return b;
    }
    if a != a { b } else { a }
}

// The lesser of the two; if one is NaN, the other. Of two zeros the first.
pub fn min(a: f32, b: f32) -> f32
    ensures { result ≡ minimum a b }
{
    if b < a {
        return b;
    }
    if a != a { b } else { a }
}

// The low end below it, the high end above it, else x itself: so NaN stays NaN.
pub fn clamp(x: f32, lo: f32, hi: f32) -> f32
    ensures { result ≡ clamp lo hi x }
{
    if x < lo {
        return lo;
    }
    if hi < x { hi } else { x }
}

// Clears the sign bit, so -0 gives +0.
pub fn abs(x: f32) -> f32
    ensures { result ≡ magnitude x }
{
    if x != x {
        return x;
    }
    f32::from_bits(f32::to_bits(x) & 0x7fff_ffff)
}

// lo ≤ x and x ≤ hi: false for NaN.
pub fn in_range(x: f32, lo: f32, hi: f32) -> bool
    ensures { result ≡ within lo hi x }
{
    lo <= x && x <= hi
}

// Neither NaN nor infinite: for both, x - x is NaN.
pub fn is_finite(x: f32) -> bool
    ensures { result ≡ finite x }
{
    x - x == 0.0
}
