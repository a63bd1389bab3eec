// Broadband normalization for the moving spectral field.
//
// Method. The gain is 1 over the RMS of the field at 256 samples. Sampling uniformly in octaves
// makes compensation follow the shape's perceptual footprint rather than over-weighting its
// highest-frequency bins. The cap prevents very narrow, deep Scan or Harmonic settings from
// producing unsafe boosts. The sample positions do not depend on the field, so they are constants
// (octaves.rt).
#![tactic(auto)]

mod octaves;

ghost use Rattle.std.specs.Prelude.{◌≡◌, false, length};
ghost use Rattle.std.specs.Float.Ieee.{le};
ghost use Rattle.lists.specs.Maps.{map_range};
ghost use Rattle.power.specs.Table.{power_table};
ghost use Rattle.sine.specs.Table.{sine_table};
ghost use Rattle.motion.specs.Field.{resting_depth_db};
ghost use Rattle.motion_rows.specs.Rows.{gain_there};
ghost use Rattle.motion_compensation.specs.Compensation.{motion_compensation_samples};
ghost use Rattle.motion_compensation.specs.Compensation.{mean_square, compensation};

use crate::octaves::octave_table;
use decibels::rows::gains;
use decibels::single_gain;
use float32::order::min;
use float32::powers::powi2;
use motion::field::{RESTING_DEPTH_DB, settled};
use motion_rows::lowerings;
use motion_rows::shapes::shape_row;
use power::table::PowerTable;
use scene::MotionConfig;
use sine::table::SineTable;
use square_root::sqrt;

const MOTION_COMPENSATION_SAMPLES: usize = 256;

const MAX_MOTION_COMPENSATION_DB: f32 = 12.0;

// The field's gain at each sample.
fn sample_gains(row: &mut [f32], powers: &PowerTable, sines: &SineTable, field: MotionConfig)
    requires { length row.old ≡ motion_compensation_samples }
    ensures { row.new
        ≡ map_range (λ k x. gain_there field x) 0 motion_compensation_samples row.old }
{
    shape_row(row, powers, sines, field, MOTION_COMPENSATION_SAMPLES);
    lowerings(row, field.depth_db, MOTION_COMPENSATION_SAMPLES);
    gains(row, powers, MOTION_COMPENSATION_SAMPLES);
}

fn mean_square(powers: &PowerTable, sines: &SineTable, config: MotionConfig) -> f32
    requires { le config.depth_db resting_depth_db ≡ false }
    ensures { result ≡ mean_square config }
{
    let mut row = octave_table();
    sample_gains(&mut row, powers, sines, settled(config));
    let mut sum = 0.0;
    for index in 0..MOTION_COMPENSATION_SAMPLES {
        sum = sum + powi2(row[index]);
    }
    sum / (MOTION_COMPENSATION_SAMPLES as f32)
}

pub fn compensation_gain(powers: &PowerTable, sines: &SineTable, config: MotionConfig) -> f32
    ensures { result ≡ compensation config }
{
    if config.depth_db <= RESTING_DEPTH_DB {
        return 1.0;
    }
    let root = sqrt(mean_square(powers, sines, config));
    min(1.0 / root, single_gain(MAX_MOTION_COMPENSATION_DB))
}
