// The scene: C minor seventh, with the third on the left, the fifth on the right, and the seventh
// near 7:4.
use limits::lengths::{MANUAL_MASK_POINTS, MOST_VOICES};
use scene::{MaskConfig, MaskVoice, MotionConfig, MotionShape, Pitch};

pub const SAMPLE_RATE: f32 = 48000.0;

pub const FFT_SIZE: usize = 8192;

pub const BINS: usize = 4097;

// The rate divided by the size, exactly.
pub const BIN_HZ: f32 = 5.859375;

pub const VOICES: usize = 4;

pub const PARTIALS: u8 = 8;

const MUTE_DB: f32 = -144.0;

// The slope of the drawn curve per point: 3 dB down in 1,024 points.
const SLOPE_DB: f32 = -0.0029296875;

pub fn config() -> MaskConfig {
    let motion = MotionConfig {
        shape: MotionShape::Ripple,
        depth_db: 6.0,
        phase: 0.25,
        size_octaves: 2.0,
    };
    MaskConfig {
        sample_rate: SAMPLE_RATE,
        fft_size: FFT_SIZE,
        note_depth_db: 48.0,
        note_layer_enabled: true,
        width_cents: 40.0,
        partials: PARTIALS as usize,
        harmonic_rolloff_db_per_octave: 3.0,
        motion,
    }
}

fn voice(note: u8, level: f32, tuning_semitones: f32, pan: f32) -> MaskVoice {
    let pitch = Pitch::Note(note, tuning_semitones);
    MaskVoice {
        pitch,
        level,
        pressure: 1.0,
        timbre: 0.5,
        volume_gain: 1.0,
        expression_gain: 1.0,
        pan,
    }
}

// The first four are the chord.
pub fn voices() -> [MaskVoice; MOST_VOICES] {
    let mut voices = [voice(0, 0.0, 0.0, 0.0); MOST_VOICES];
    voices[0] = voice(60, 1.0, 0.0, 0.0);
    voices[1] = voice(63, 0.75, 0.0, -1.0);
    voices[2] = voice(67, 0.875, 0.0, 1.0);
    voices[3] = voice(70, 0.5, -0.3125, 0.0);
    voices
}

// Muted around the seventh's highest partial.
fn drawn_db(point: u16) -> f32 {
    if 1200 <= point && point < 1300 {
        return MUTE_DB;
    }
    point as f32 * SLOPE_DB
}

pub fn curve() -> [f32; MANUAL_MASK_POINTS] {
    let mut curve = [0.0f32; MANUAL_MASK_POINTS];
    for point in 0u16..8193 {
        curve[point as usize] = drawn_db(point);
    }
    curve
}
