// Rust's rem_euclid(1.0): a value's position within a cycle of length 1.
ghost use Rattle.std.specs.Prelude.{◌≡◌, false, T};
ghost use Rattle.std.specs.Float.Ieee.{lt};
ghost use Rattle.float_laws.specs.Units.{sign};
ghost use Rattle.float32.specs.Remainder.{rem_euclid_one, whole_part, all_whole};

use crate::order::abs;

// 2^23: from here on every f32 is a whole number.
const ALL_WHOLE: f32 = 8388608.0;

// The integer part of a size. From 2^23 to 2^24 every f32 is a whole number, so adding 2^23 rounds
// the size to the nearest one, which may be above it.
fn whole_part(size: f32) -> f32
    requires { (sign size ≡ false) × T (lt size all_whole) }
    ensures { result ≡ whole_part size }
{
    let nearest = (size + ALL_WHOLE) - ALL_WHOLE;
    if size < nearest {
        nearest - 1.0
    } else {
        nearest
    }
}

// Method. The remainder is |v| minus its integer part, with v's sign; `%` itself would call the C
// library. For a whole v it is 0 with v's sign, which is `v * 0.0`; for an infinity or NaN both are
// NaN. For a negative v the rounded sum with 1 can be 1 itself.
pub fn rem_euclid_one(v: f32) -> f32
    ensures { result ≡ rem_euclid_one v }
{
    let size = abs(v);
    if !(size < ALL_WHOLE) {
        return v * 0.0; // NaN where v is not finite
    }
    let part = size - whole_part(size);
    if !(0.0 < part) {
        return v * 0.0; // v is whole
    }
    if v < 0.0 { -part + 1.0 } else { part }
}
