// The drawn curve's gain at a bin.
ghost use Rattle.std.specs.Prelude.{◌≡◌, length};
ghost use Rattle.limits.specs.Lengths.{manual_mask_points};
ghost use Rattle.masks.specs.Manual.{curve_point, curve_gain, manual_gain};

use float32::order::min;
use limits::lengths::LAST_POINT;

pub const MANUAL_CURVE_MUTE_DB: f32 = -144.0;

// The curve point nearest to a bin. Below size 2 the division would be by 0, and it is point 0.
pub fn curve_point(bin: usize, size: usize) -> usize
    ensures { result ≡ curve_point bin size }
{
    let source_bins = size / 2;
    if source_bins == 0 {
        return 0;
    }
    ((bin.min(LAST_POINT) * LAST_POINT + source_bins / 2) / source_bins).min(LAST_POINT)
}

// The gain of a curve value: 0 where it is not above MANUAL_CURVE_MUTE_DB, as an erased point, a
// NaN, never is; values above 0 dB count as 0.
pub fn curve_gain(db: f32) -> f32
    ensures { result ≡ curve_gain db }
{
    if MANUAL_CURVE_MUTE_DB < db {
        return decibels::single_gain(min(db, 0.0));
    }
    0.0
}

pub fn manual_gain(curve: &[f32], bin: usize, size: usize) -> f32
    requires { length curve.now ≡ manual_mask_points }
    ensures { result ≡ manual_gain curve.now bin size }
{
    curve_gain(curve[curve_point(bin, size)])
}
