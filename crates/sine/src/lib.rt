// Sine and cosine of an f32 angle in radians, by the table R that the caller makes once and lends.
//
// Method. The angle is reduced to U, its position in the turn in units of 2^-24 of a turn
// (turns.rt, by fixed_point). R holds the sines of a quarter turn in 256 steps, in units of 2^-30
// (table.rt). Each quarter is read from it, forwards or backwards, with linear interpolation, and
// given its sign (wave.rt); the 24 bits kept are exact as an f32. sine_rows does the same for a row
// of angles.
// Error, measured over the positions of the first quarter, whose values the others repeat: at most
// 4.8e-6.
#![tactic(auto)]

ghost use Rattle.std.specs.Prelude.{◌≡◌};
ghost use Rattle.sine.specs.Table.{sine_table};
ghost use Rattle.sine.specs.Sine.{sin_of, cos_of};

use table::SineTable;
use turns::{IN_TURN, QUARTER, place_in_turn};
use wave::wave_at;

pub mod table;
pub mod turns;
pub mod wave;

pub fn sin(sines: &SineTable, angle: f32) -> f32
    ensures { result ≡ sin_of angle }
{
    wave_at(sines, place_in_turn(angle))
}

// The sine a quarter turn ahead.
pub fn cos(sines: &SineTable, angle: f32) -> f32
    ensures { result ≡ cos_of angle }
{
    wave_at(sines, (place_in_turn(angle) + QUARTER) & IN_TURN)
}
