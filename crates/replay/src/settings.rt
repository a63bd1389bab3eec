// Settings and voices, a word to each field.
ghost use Rattle.std.specs.Prelude.{◌<◌, ◌≤◌};

use crate::list;
use float32::bits::bits_of;
use limits::lengths::MOST_VOICES;
use scene::pitches::pitch_of;
use scene::{MaskConfig, MaskVoice, MotionConfig, Pitch, Scene};
use voice_records::VoiceRecord;

// The moving field's settings, from four words. A shape's number past the last gives the last.
pub fn motion_at(bytes: &[u8], past: usize) -> MotionConfig {
    let words = list::past(bytes, past);
    MotionConfig {
        shape: scene::shape_of(list::word(words, 0)),
        depth_db: list::float(words, 1),
        phase: list::float(words, 2),
        size_octaves: list::float(words, 3),
    }
}

const SETTINGS_WORDS: usize = 11;

// A mask's settings, from eleven words.
pub fn config_at(bytes: &[u8], past: usize) -> MaskConfig {
    let words = list::past(bytes, past);
    MaskConfig {
        sample_rate: list::float(words, 0),
        fft_size: list::count(words, 1),
        note_depth_db: list::float(words, 2),
        note_layer_enabled: list::word(words, 3) != 0,
        width_cents: list::float(words, 4),
        partials: list::count(words, 5),
        harmonic_rolloff_db_per_octave: list::float(words, 6),
        motion: motion_at(words, 7),
    }
}

// A count as a word. The cast wants a number below 2^32, which each count of a scene is.
pub fn word_of(count: usize) -> u32 {
    (count % 4294967296) as u32
}

// The eleven words of a mask's settings.
pub fn words_of_config(config: MaskConfig) -> [u32; SETTINGS_WORDS] {
    let motion = config.motion;
    [
        bits_of(config.sample_rate),
        word_of(config.fft_size),
        bits_of(config.note_depth_db),
        u32::from(config.note_layer_enabled),
        bits_of(config.width_cents),
        word_of(config.partials),
        bits_of(config.harmonic_rolloff_db_per_octave),
        u32::from(motion.shape),
        bits_of(motion.depth_db),
        bits_of(motion.phase),
        bits_of(motion.size_octaves),
    ]
}

// Voices are a count, a number of stored ones, and eight words for each of these.
const VOICE_WORDS: usize = 8;

fn default_voice() -> MaskVoice {
    let pitch = Pitch::Note(0, 0.0);
    MaskVoice {
        pitch,
        level: 0.0,
        pressure: 1.0,
        timbre: 0.5,
        volume_gain: 1.0,
        expression_gain: 1.0,
        pan: 0.0,
    }
}

// The first word is 256 times the form of the pitch and the note, the second its other number.
fn pitch_at(words: &[u8]) -> Pitch {
    let form = (list::word(words, 0) / 256 % 256) as u8;
    let note = (list::word(words, 0) % 256) as u8;
    pitch_of(form, note, list::float(words, 1))
}

pub fn voice_at(bytes: &[u8], past: usize) -> MaskVoice {
    let words = list::past(bytes, past);
    let pitch = pitch_at(words);
    MaskVoice {
        pitch,
        level: list::float(words, 2),
        pressure: list::float(words, 3),
        timbre: list::float(words, 4),
        volume_gain: list::float(words, 5),
        expression_gain: list::float(words, 6),
        pan: list::float(words, 7),
    }
}

// The eight words of a voice's record.
pub fn words_of_record(record: VoiceRecord) -> [u32; VOICE_WORDS] {
    [
        u32::from(record.pitch_form) * 256 + u32::from(record.note),
        bits_of(record.semitones_or_hertz),
        bits_of(record.level),
        bits_of(record.pressure),
        bits_of(record.timbre),
        bits_of(record.volume_gain),
        bits_of(record.expression_gain),
        bits_of(record.pan),
    ]
}

pub fn words_of_voice(voice: MaskVoice) -> [u32; VOICE_WORDS] {
    words_of_record(VoiceRecord::from(voice))
}

// The stored voice with this number, or a default one past them.
pub fn voice_of(words: &[u8], number: usize) -> MaskVoice
    requires { number < 128 }
{
    if number < list::count(words, 1) {
        return voice_at(words, 2 + number * VOICE_WORDS);
    }
    default_voice()
}

// The first voices, as many as a call takes. A call with more is refused before it reads any.
pub fn voices_at(bytes: &[u8], past: usize) -> [MaskVoice; MOST_VOICES] {
    let words = list::past(bytes, past);
    let mut voices = [default_voice(); MOST_VOICES];
    for number in 0..MOST_VOICES {
        voices[number] = voice_of(words, number);
    }
    voices
}

// The number of words of the voices, of which at most 128 are stored.
pub fn voice_words(bytes: &[u8], past: usize) -> usize
    ensures { result ≤ 1026 }
{
    let words = list::past(bytes, past);
    2 + list::count(words, 1) % 129 * VOICE_WORDS
}

// A scene, whose voices need not stand right after its settings.
pub fn scene_at(bytes: &[u8], past: usize, voices_past: usize) -> Scene {
    let config = config_at(bytes, past);
    let voices = voices_at(bytes, voices_past);
    Scene {
        config,
        voices,
        count: list::count(bytes, voices_past),
    }
}
