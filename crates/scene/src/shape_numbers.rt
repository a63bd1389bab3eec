// A shape of the moving field and its number, both ways.
ghost use Rattle.std.specs.Prelude.{◌≡◌, ◌<◌};
ghost use Rattle.std.specs.Result.{OkIff};
ghost use Rattle.scene.specs.Made.{shape_of, shape_number};

use crate::MotionShape;

// A number from 8 up, which no shape has.
#[derive(Clone, Copy, Debug, PartialEq, Eq)]
pub struct UnknownShape(pub u32);

// The shape with this number, in the Rust's order; 7 and above give the last. It cannot fail, as
// callers have it; `try_from` refuses what no shape has.
pub fn shape_of(number: u32) -> MotionShape
    ensures { result ≡ shape_of number }
{
    match number {
        0 => MotionShape::Ripple,
        1 => MotionShape::Harmonic,
        2 => MotionShape::Drift,
        3 => MotionShape::Scan,
        4 => MotionShape::Notch,
        5 => MotionShape::Saw,
        6 => MotionShape::Sprinkle,
        _ => MotionShape::Cloud,
    }
}

impl TryFrom<u32> for MotionShape {
    type Error = UnknownShape;

    ghost try_from_gives = { λ number r. OkIff r (number < 8) (shape_of number) };

    fn try_from(number: u32) -> Result<MotionShape, UnknownShape> {
        if 7 < number {
            return Err(UnknownShape(number));
        }
        Ok(shape_of(number))
    }
}

impl From<MotionShape> for u32 {
    ghost from_gives = { λ shape number. (number ≡ shape_number shape) × (number < 8) };

    fn from(shape: MotionShape) -> u32 {
        match shape {
            MotionShape::Ripple => 0,
            MotionShape::Harmonic => 1,
            MotionShape::Drift => 2,
            MotionShape::Scan => 3,
            MotionShape::Notch => 4,
            MotionShape::Saw => 5,
            MotionShape::Sprinkle => 6,
            MotionShape::Cloud => 7,
        }
    }
}
