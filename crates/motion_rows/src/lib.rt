// The moving field's gains at a row of bins.
//
// Method. One short loop per stage over the same row: frequencies relative to the lowest shown,
// their octaves, the openness, decibels, gains.
#![tactic(auto)]

pub mod shapes;

ghost use Rattle.std.specs.Prelude.{◌≡◌, cond, ◌+◌, ◌^◌, ◌≤◌, length};
ghost use Rattle.std.specs.Float.Ieee.{lt};
ghost use Rattle.lists.specs.Maps.{map_range};
ghost use Rattle.float32.specs.Remainder.{one};
ghost use Rattle.power.specs.Table.{power_table};
ghost use Rattle.sine.specs.Table.{sine_table};
ghost use Rattle.frequencies.specs.Frequency.{hertz};
ghost use Rattle.motion.specs.Field.{min_display_frequency_hz};
ghost use Rattle.motion_rows.specs.Rows.{made_of_events, open_at, lowered, gain_left};

use crate::shapes::{ones, shape_row};
use frequencies::rows::ratios;
use motion::field::MIN_DISPLAY_FREQUENCY_HZ;
use power::table::PowerTable;
use power_rows::log2::log2_row;
use scene::{MotionConfig, MotionShape};
use sine::table::SineTable;

fn made_of_events(shape: MotionShape) -> bool
    ensures { result ≡ made_of_events shape }
{
    match shape {
        MotionShape::Ripple => false,
        MotionShape::Harmonic => false,
        MotionShape::Drift => false,
        MotionShape::Scan => false,
        MotionShape::Notch => false,
        MotionShape::Saw => false,
        MotionShape::Sprinkle => true,
        MotionShape::Cloud => true,
    }
}

// Below the lowest frequency shown the field is open.
fn shown(frequency: f32, opened: f32) -> f32
    ensures { result ≡ cond (lt frequency min_display_frequency_hz) one opened }
{
    if frequency < MIN_DISPLAY_FREQUENCY_HZ {
        return 1.0;
    }
    opened
}

fn open_below(row: &mut [f32], bin_hz: f32, start: usize, count: usize)
    requires { (count ≤ length row.old) × (start + count ≤ 2 ^ 24 + 1) }
    ensures { row.new ≡ map_range
        (λ k opened. cond (lt (hertz bin_hz (start + k)) min_display_frequency_hz) one opened) 0
        count row.old }
{
    for k in 0..count {
        row[k] = shown((start + k) as f32 * bin_hz, row[k]);
    }
}

// The field's openness at the bins from `start` on. An event-driven shape is open everywhere, so
// its octaves are not computed.
fn openings(
    row: &mut [f32],
    powers: &PowerTable,
    sines: &SineTable,
    field: MotionConfig,
    bin_hz: f32,
    start: usize,
    count: usize,
)
    requires { (count ≤ length row.old) × (start + count ≤ 2 ^ 24 + 1) }
    ensures { row.new ≡ map_range
        (λ k held. open_at field (hertz bin_hz (start + k))) 0 count row.old }
{
    let shape = field.shape;
    if made_of_events(shape) {
        ones(row, count);
        return;
    }
    ratios(row, bin_hz, MIN_DISPLAY_FREQUENCY_HZ, start, count);
    log2_row(row, powers, count);
    shape_row(row, powers, sines, field, count);
    open_below(row, bin_hz, start, count);
}

// Turns each openness into decibels, at most 0.
pub fn lowerings(row: &mut [f32], depth_db: f32, count: usize)
    requires { count ≤ length row.old }
    ensures { row.new
        ≡ map_range (λ k opened. lowered depth_db opened) 0 count row.old }
{
    for k in 0..count {
        row[k] = -(depth_db * (1.0 - row[k]));
    }
}

// The gains of a field that does not rest at the bins from `start` on, before compensation. `field`
// is the result of `motion::field::settled`.
pub fn motion_gains(
    row: &mut [f32],
    powers: &PowerTable,
    sines: &SineTable,
    field: MotionConfig,
    bin_hz: f32,
    start: usize,
    count: usize,
)
    requires { (count ≤ length row.old) × (start + count ≤ 2 ^ 24 + 1) }
    ensures { row.new ≡ map_range
        (λ k held. gain_left field (hertz bin_hz (start + k))) 0 count row.old }
{
    openings(row, powers, sines, field, bin_hz, start, count);
    lowerings(row, field.depth_db, count);
    decibels::rows::gains(row, powers, count);
}
