// Voices and settings as plain values, and which of them are accepted.
#![tactic(auto)]

pub mod levels;
pub mod pitches;
pub mod shape_numbers;

ghost use Rattle.std.specs.Prelude.{◌≡◌, ◌&&◌, ◌≤◌, ◌<◌, replicate};
ghost use Rattle.limits.specs.Found.{Finds};
ghost use Rattle.limits.specs.Lengths.{most_voices};
ghost use Rattle.scene.specs.Accepted.{motion_accepted, size_accepted, settings_accepted};
ghost use Rattle.scene.specs.Accepted.{voice_accepted, first_voice_outside};
ghost use Rattle.scene.specs.Made.{silent_voice, blank_scene};
ghost use Rattle.scene.specs.Gathered.{held};

use limits::lengths::MOST_VOICES;
pub use shape_numbers::shape_of;

// A pitch by number or by hertz: a note, with an offset in semitones from its equal-tempered pitch;
// or a frequency, which is then the fundamental itself.
#[derive(Clone, Copy, Debug, PartialEq)]
pub enum Pitch {
    Note(u8, f32),
    Hertz(f32),
}

// A held pitch with its expression.
#[derive(Clone, Copy, Debug, PartialEq)]
pub struct MaskVoice {
    pub pitch: Pitch,
    // Note envelope level; 0 contributes nothing.
    pub level: f32,
    pub pressure: f32,
    // Harmonic tilt from 0 to 1. 0.5 keeps the configured rolloff; lower values darken the partials
    // and higher values brighten them.
    pub timbre: f32,
    // Base strength (including velocity), bounded to openness before expression.
    pub volume_gain: f32,
    // Linear gain of the note-opened component, independent of the background floor.
    pub expression_gain: f32,
    // Stereo placement, -1 left through 0 center to +1 right. Ignored in mono.
    pub pan: f32,
}

// The moving field's shapes, in the Rust's order.
#[derive(Clone, Copy, Debug, PartialEq, Eq)]
pub enum MotionShape {
    Ripple,
    Harmonic,
    Drift,
    Scan,
    Notch,
    Saw,
    Sprinkle,
    Cloud,
}

#[derive(Clone, Copy, Debug, PartialEq)]
pub struct MotionConfig {
    pub shape: MotionShape,
    // Attenuation where the field is fully closed.
    pub depth_db: f32,
    // Position in the field's cycle, which has length 1.
    pub phase: f32,
    // Spatial scale of the shape, in octaves.
    pub size_octaves: f32,
}

#[derive(Clone, Copy, Debug, PartialEq)]
pub struct MaskConfig {
    pub sample_rate: f32,
    pub fft_size: usize,
    // Attenuation below the drawn ceiling away from held notes. Zero leaves the background
    // unchanged while the additive note lift remains active.
    pub note_depth_db: f32,
    pub note_layer_enabled: bool,
    pub width_cents: f32,
    pub partials: usize,
    pub harmonic_rolloff_db_per_octave: f32,
    pub motion: MotionConfig,
}

// A whole scene: its settings, and the voices that count, which stand at the array's start. The
// drawn curve is not part of it. Here and in the calls, voices are an array with a count, as
// document 01 has it in the core: nothing is allocated.
#[derive(Clone, Copy, Debug, PartialEq)]
pub struct Scene {
    pub config: MaskConfig,
    pub voices: [MaskVoice; MOST_VOICES],
    pub count: usize,
}

// The initial contents of an array of voices. Their level is 0.
pub fn silent_voices() -> [MaskVoice; MOST_VOICES]
    ensures { result ≡ replicate most_voices silent_voice }
{
    let pitch = Pitch::Note(0, 0.0f32);
    let voice = MaskVoice {
        pitch,
        level: 0.0f32,
        pressure: 0.0f32,
        timbre: 0.0f32,
        volume_gain: 0.0f32,
        expression_gain: 0.0f32,
        pan: 0.0f32,
    };
    [voice; MOST_VOICES]
}

// What stands in a scene's place where there is none. Every setting is 0, so that no call accepts
// it.
pub fn blank_scene() -> Scene
    ensures { result ≡ blank_scene }
{
    let motion = MotionConfig {
        shape: MotionShape::Ripple,
        depth_db: 0.0,
        phase: 0.0,
        size_octaves: 0.0,
    };
    let config = MaskConfig {
        sample_rate: 0.0,
        fft_size: 0,
        note_depth_db: 0.0,
        note_layer_enabled: false,
        width_cents: 0.0,
        partials: 0,
        harmonic_rolloff_db_per_octave: 0.0,
        motion: motion,
    };
    let voices = silent_voices();
    Scene {
        config: config,
        voices: voices,
        count: 0,
    }
}

// How many of `count` voices such an array holds.
pub fn held(count: usize) -> usize
    ensures { result ≡ held count }
{
    count.min(MOST_VOICES)
}

#[tactic(auto, unfolding(crate::specs::Accepted::motion_accepted))]
pub fn motion_accepted(config: MotionConfig) -> bool
    ensures { result ≡ motion_accepted config }
{
    limits::motion_depth(config.depth_db)
        && float32::order::is_finite(config.phase)
        && limits::motion_size(config.size_octaves)
}

// Tests size and rate.
#[tactic(auto, unfolding(crate::specs::Accepted::size_accepted))]
pub fn size_accepted(config: MaskConfig) -> bool
    ensures { result ≡ size_accepted config }
{
    limits::size(config.fft_size) && limits::rate(config.sample_rate)
}

// Tests every other setting, including those that the call does not use.
#[tactic(auto, unfolding(crate::specs::Accepted::settings_accepted))]
pub fn settings_accepted(config: MaskConfig) -> bool
    ensures { result ≡ settings_accepted config }
{
    limits::note_depth(config.note_depth_db)
        && limits::width(config.width_cents)
        && limits::partials(config.partials)
        && limits::rolloff(config.harmonic_rolloff_db_per_octave)
        && motion_accepted(config.motion)
}

#[tactic(auto, unfolding(crate::specs::Accepted::voice_accepted))]
pub fn voice_accepted(voice: MaskVoice) -> bool
    ensures { result ≡ voice_accepted voice }
{
    pitches::accepted(voice.pitch)
        && limits::level(voice.level)
        && float32::order::is_finite(voice.pressure)
        && float32::order::is_finite(voice.timbre)
        && float32::order::is_finite(voice.volume_gain)
        && float32::order::is_finite(voice.expression_gain)
        && float32::order::is_finite(voice.pan)
}

// The lowest index of a voice outside its limits. Voices past the count are not tested.
pub fn first_voice_outside(voices: [MaskVoice; MOST_VOICES], count: usize) -> Option<usize>
    requires { count ≤ most_voices }
    ensures { Finds count (first_voice_outside voices count) result }
{
    for i in 0..count {
        if !voice_accepted(voices[i]) {
            return Some(i);
        }
    }
    None
}
