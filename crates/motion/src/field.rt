// The moving field at a frequency: its openness, and its attenuation in decibels.
ghost use Rattle.std.specs.Prelude.{◌≡◌};
ghost use Rattle.sine.specs.Table.{sine_table};
ghost use Rattle.motion.specs.Field.{shape_at, openness, attenuation};
ghost use Rattle.motion.specs.Settled.{settled};

use crate::shapes::{drift, harmonic, ripple, saw, window};
use float32::order::max;
use float32::remainder::rem_euclid_one;
use scene::{MotionConfig, MotionShape};
use sine::table::SineTable;
use single_power::log2;

// The lowest frequency shown. Below it the field is open.
pub const MIN_DISPLAY_FREQUENCY_HZ: f32 = 20.0;

// At this depth or below the field rests: it is open everywhere.
pub const RESTING_DEPTH_DB: f32 = 0.001;

pub const MIN_SIZE_OCTAVES: f32 = 0.05;

// The settings clamped and reduced as the shapes need them, once for all samples and bins.
pub fn settled(config: MotionConfig) -> MotionConfig
    ensures { result ≡ settled config }
{
    let depth_db = max(config.depth_db, 0.0);
    let size_octaves = max(config.size_octaves, MIN_SIZE_OCTAVES);
    let reduced = rem_euclid_one(config.phase);
    let shape = config.shape;
    MotionConfig {
        shape,
        depth_db,
        phase: reduced,
        size_octaves,
    }
}

// The shape's openness x octaves above the lowest frequency shown. Sprinkle and Cloud are
// event-driven and are applied separately from the looping motion field, so their resting state is
// neutral.
pub(crate) fn shape_at(sines: &SineTable, shape: MotionShape, x: f32, size: f32, phase: f32) -> f32
    ensures { result ≡ shape_at shape x size phase }
{
    match shape {
        MotionShape::Ripple => ripple(sines, x, size, phase),
        MotionShape::Harmonic => harmonic(sines, x, size, phase),
        MotionShape::Drift => drift(sines, x, size, phase),
        MotionShape::Scan => window(x, size, phase),
        MotionShape::Notch => 1.0 - window(x, size, phase),
        MotionShape::Saw => saw(x, size, phase),
        MotionShape::Sprinkle => 1.0,
        MotionShape::Cloud => 1.0,
    }
}

// The moving field's openness at a frequency. 1 is the crest, where the drawn ceiling is unchanged,
// and 0 receives the full motion attenuation.
pub fn openness(sines: &SineTable, frequency: f32, config: MotionConfig) -> f32
    ensures { result ≡ openness frequency config }
{
    if config.depth_db <= RESTING_DEPTH_DB {
        return 1.0;
    }
    if frequency < MIN_DISPLAY_FREQUENCY_HZ {
        return 1.0;
    }
    let x = log2(frequency / MIN_DISPLAY_FREQUENCY_HZ);
    let size = max(config.size_octaves, MIN_SIZE_OCTAVES);
    let phase = rem_euclid_one(config.phase);
    let shape = config.shape;
    shape_at(sines, shape, x, size, phase)
}

pub fn attenuation_db(sines: &SineTable, frequency: f32, config: MotionConfig) -> f32
    ensures { result ≡ attenuation frequency config }
{
    let depth = max(config.depth_db, 0.0);
    depth * (1.0 - openness(sines, frequency, config))
}
