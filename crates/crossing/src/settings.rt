// The settings of a motion and of a mask, from plain numbers, and those of a mask as plain numbers.
ghost use Rattle.std.specs.Prelude.{◌≡◌, ◌<◌, cond};
ghost use Rattle.std.specs.Result.{OkIff};
ghost use Rattle.answer.specs.Refusal.{SIZE_OR_RATE, SETTING};
ghost use Rattle.answer.specs.Reply.{refused, of_refusal};
ghost use Rattle.scene.specs.Accepted.{size_accepted};
ghost use Rattle.crossing.specs.Settings.{motion_of};
ghost use Rattle.crossing.specs.MaskSettings.{config_of, plain_settings, Reads};

use answer::{Reason, Refusal};
use scene::shape_numbers::{UnknownShape, shape_of};
use scene::{MaskConfig, MotionConfig, MotionShape};

// The shape is a number, 0..7 in the Rust's order; 8 and above count as 7. It cannot fail, as
// callers have it, and no more can `config_of`; `try_motion_of` and `try_from` refuse.
pub fn motion_of(shape: u32, depth_db: f32, phase: f32, size_octaves: f32) -> MotionConfig
    ensures { result ≡ motion_of shape depth_db phase size_octaves }
{
    MotionConfig {
        shape: shape_of(shape),
        depth_db,
        phase,
        size_octaves,
    }
}

// The same for a caller who refuses any other shape.
pub fn try_motion_of(
    shape: u32,
    depth_db: f32,
    phase: f32,
    size_octaves: f32,
) -> Result<MotionConfig, UnknownShape>
    ensures { OkIff result (shape < 8) (motion_of shape depth_db phase size_octaves) }
{
    MotionShape::try_from(shape)?;
    Ok(motion_of(shape, depth_db, phase, size_octaves))
}

// A mask's settings, with those of its motion. The shape is a number, 0..7 in the Rust's order.
#[repr(C)]
#[derive(Clone, Copy, Debug, PartialEq)]
pub struct Settings {
    pub sample_rate: f32,
    pub fft_size: usize,
    pub note_depth_db: f32,
    pub note_layer_enabled: bool,
    pub width_cents: f32,
    pub partials: usize,
    pub harmonic_rolloff_db_per_octave: f32,
    pub motion_shape: u32,
    pub motion_depth_db: f32,
    pub motion_phase: f32,
    pub motion_size_octaves: f32,
}

pub fn config_of(settings: Settings) -> MaskConfig
    ensures { result ≡ config_of settings }
{
    MaskConfig {
        sample_rate: settings.sample_rate,
        fft_size: settings.fft_size,
        note_depth_db: settings.note_depth_db,
        note_layer_enabled: settings.note_layer_enabled,
        width_cents: settings.width_cents,
        partials: settings.partials,
        harmonic_rolloff_db_per_octave: settings.harmonic_rolloff_db_per_octave,
        motion: motion_of(
            settings.motion_shape,
            settings.motion_depth_db,
            settings.motion_phase,
            settings.motion_size_octaves,
        ),
    }
}

// A shape outside 0..7 is refusal 2, unless refusal 1 comes first.
pub fn shape_refused(config: MaskConfig) -> Refusal
    ensures { of_refusal result
        ≡ cond (size_accepted config) (refused SETTING 0) (refused SIZE_OR_RATE 0) }
{
    if scene::size_accepted(config) {
        return Reason::Setting.into();
    }
    Reason::SizeOrRate.into()
}

impl TryFrom<Settings> for MaskConfig {
    type Error = Refusal;

    ghost try_from_gives = { Reads };

    fn try_from(settings: Settings) -> Result<MaskConfig, Refusal> {
        let config = config_of(settings);
        if 7 < settings.motion_shape {
            return Err(shape_refused(config));
        }
        Ok(config)
    }
}

impl From<MaskConfig> for Settings {
    ghost from_gives = { λ config settings. settings ≡ plain_settings config };

    fn from(config: MaskConfig) -> Settings {
        let motion = config.motion;
        Settings {
            sample_rate: config.sample_rate,
            fft_size: config.fft_size,
            note_depth_db: config.note_depth_db,
            note_layer_enabled: config.note_layer_enabled,
            width_cents: config.width_cents,
            partials: config.partials,
            harmonic_rolloff_db_per_octave: config.harmonic_rolloff_db_per_octave,
            motion_shape: u32::from(motion.shape),
            motion_depth_db: motion.depth_db,
            motion_phase: motion.phase,
            motion_size_octaves: motion.size_octaves,
        }
    }
}
