// Decibels to linear gains.
#![tactic(auto)]

pub mod rows;

ghost use Rattle.std.specs.Prelude.{◌≡◌};
ghost use Rattle.power.specs.Table.{power_table};
ghost use Rattle.decibels.specs.Gain.{gain_of};

use power::table::PowerTable;

pub const DECIBELS_PER_DECADE: f32 = 20.0;

// Converts amplitude decibels to a linear gain: 10^(db / 20).
pub fn gain(powers: &PowerTable, db: f32) -> f32
    ensures { result ≡ gain_of db }
{
    power::decimal::pow10(powers, db / DECIBELS_PER_DECADE)
}

// The same for a caller of one gain, which needs no table.
pub fn single_gain(db: f32) -> f32
    ensures { result ≡ gain_of db }
{
    single_power::pow10(db / DECIBELS_PER_DECADE)
}
