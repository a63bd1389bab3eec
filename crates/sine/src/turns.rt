// An angle's position in the turn.
//
// Method. The angle times 0.15915494, rounded once, is u, the angle in turns. Its floor in units of
// 2^-24 of a turn takes one addition of whole turns (fixed_point), which makes a negative u
// positive; a mask removes the whole turns. From 2^23 turns up every u is a whole number of turns,
// and the position is 0.
ghost use Rattle.std.specs.Prelude.{◌≡◌, ◌%◌, ◌^◌, ◌≤◌, T};
ghost use Rattle.std.specs.Float.{binary32};
ghost use Rattle.std.specs.Float.Ieee.{fits, neg};
ghost use Rattle.float32.specs.Value.{moved};
ghost use Rattle.float32.specs.Order.{within};
ghost use Rattle.fixed_point.specs.Fixed.{farthest};
ghost use Rattle.sine.specs.Sine.{U};
ghost use Rattle.sine.specs.Rows.{place_ahead};

use fixed_point::{LEAST, far_steps, near_steps};
use float32::order::{abs, in_range};

// Turns per radian.
const TURNS_PER_RADIAN: f32 = 0.15915494;

// A quarter turn in units of 2^-24 of a turn, and the bit mask of a position.
pub const QUARTER: u64 = 4194304;

pub const IN_TURN: u64 = 0xff_ffff;

// The ranges of `near_steps` and `far_steps`, in turns.
const NEARBY: f32 = 512.0;

const NEARBY_BACK: f32 = -512.0;

const FARTHEST: f32 = 8388608.0;

const FARTHEST_BACK: f32 = -8388608.0;

// U: floor(u * 2^24) mod 2^24; 0 where u is infinite or NaN.
pub fn place_in_turn(angle: f32) -> u64
    ensures { result ≡ U angle }
{
    let u = angle * TURNS_PER_RADIAN;
    if in_range(u, NEARBY_BACK, NEARBY) {
        if LEAST <= abs(u) {
            return near_steps(u) & IN_TURN;
        }
    }
    if in_range(u, FARTHEST_BACK, FARTHEST) {
        return far_steps(u) & IN_TURN;
    }
    0
}

// The same plus `ahead`, without a branch, so that a loop over angles is vectorized.
pub fn place_ahead(angle: f32, ahead: u64) -> u32
    requires { ahead ≤ 2 ^ 22 }
    ensures { result ≡ place_ahead ahead angle }
{
    (((far_steps(near_turns(angle)) & IN_TURN) + ahead) & IN_TURN) as u32
}

// The angle in turns, or 0 outside the range of `far_steps`: the position there is 0 too.
fn near_turns(angle: f32) -> f32
    ensures { T (fits binary32 result)
        × T (within (neg farthest) farthest result)
        × (moved (2 ^ 128) result % 2 ^ 24 ≡ U angle) }
{
    let u = angle * TURNS_PER_RADIAN;
    if in_range(u, FARTHEST_BACK, FARTHEST) {
        return u;
    }
    0.0
}
