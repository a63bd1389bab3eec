// The voices of a scene record: a byte for the pitch's form and note, then seven floats.
#![tactic(auto)]

ghost use Rattle.std.specs.Prelude.{◌≡◌, ◌+◌, ◌*◌, ◌≤◌, length, take, drop};
ghost use Rattle.lists.specs.Totals.{All};
ghost use Rattle.lists.specs.Stores.{stored};
ghost use Rattle.limits.specs.Lengths.{most_voices, most_note, record_voice};
ghost use Rattle.scene.specs.Gathered.{gathered_to};
ghost use Rattle.scene.specs.PitchNumbers.{note_of};
ghost use Rattle.record_voices.specs.Voices.{pitch_byte, NoteFits, voice_floats, voice_bytes};
ghost use Rattle.record_voices.specs.Voices.{voices_bytes, pitch_in, voice_of, voices_of};
ghost use Rattle.record_voices.specs.Voices.{pitch_allowed, pitches_allowed};

use limits::lengths::{MOST_VOICES, RECORD_VOICE};
use record_words::{FLOATS, float_at, put_floats};
use scene::{MaskVoice, Pitch, pitches, silent_voices};

// The lowest bit is the form, the note stands above it.
fn pitch_byte(pitch: Pitch) -> u8
    requires { note_of pitch ≤ most_note }
    ensures { result ≡ pitch_byte pitch }
{
    pitches::note_of(pitch) * 2 + pitches::form_of(pitch)
}

fn voice_floats(voice: MaskVoice) -> [f32; FLOATS]
    ensures { result ≡ voice_floats voice }
{
    [
        voice.level,
        pitches::number_of(voice.pitch),
        voice.pressure,
        voice.timbre,
        voice.volume_gain,
        voice.expression_gain,
        voice.pan,
    ]
}

// Writes a voice's bytes from a place on.
fn put_voice(record: &mut [u8], at: usize, voice: MaskVoice)
    requires at_in_bounds { at + record_voice ≤ length «record».old }
    requires note_fits { NoteFits voice }
    ensures { «record».new
        ≡ stored «record».old at (voice_bytes voice) }
{
    record[at] = pitch_byte(voice.pitch);
    put_floats(record, at + 1, voice_floats(voice));
}

// Writes the voices that count, one after the other.
pub fn put_voices(record: &mut [u8], at: usize, voices: [MaskVoice; MOST_VOICES], count: usize)
    requires count_bound { count ≤ most_voices }
    requires count_in_bounds { at + record_voice * count ≤ length «record».old }
    requires all { All NoteFits (take count voices) }
    ensures { «record».new
        ≡ stored «record».old at (voices_bytes (take count voices)) }
{
    for i in 0..count {
        put_voice(record, at + RECORD_VOICE * i, voices[i]);
    }
}

fn pitch_in(byte: u8, number: f32) -> Pitch
    ensures { result ≡ pitch_in byte number }
{
    pitches::pitch_of(byte & 1, byte >> 1, number)
}

// The voice whose bytes begin at a place.
fn voice_at(record: &[u8], at: usize) -> MaskVoice
    requires { at + record_voice ≤ length «record».now }
    ensures { result ≡ voice_of (drop at «record».now) }
{
    let pitch = pitch_in(record[at], float_at(record, at + 5));
    MaskVoice {
        pitch,
        level: float_at(record, at + 1),
        pressure: float_at(record, at + 9),
        timbre: float_at(record, at + 13),
        volume_gain: float_at(record, at + 17),
        expression_gain: float_at(record, at + 21),
        pan: float_at(record, at + 25),
    }
}

// The voices that follow one another from a place on, at the start of the core's array.
pub fn voices_at(record: &[u8], at: usize, count: usize) -> [MaskVoice; MOST_VOICES]
    requires count_bound { count ≤ most_voices }
    requires count_in_bounds { at + record_voice * count ≤ length «record».now }
    ensures { result ≡ gathered_to count (voices_of (drop at «record».now) count) }
{
    let mut voices = silent_voices();
    for i in 0..count {
        voices[i] = voice_at(record, at + RECORD_VOICE * i);
    }
    voices
}

// Whether a voice's first byte has no forbidden bit: by hertz the bits of the note are zero.
fn pitch_allowed(byte: u8) -> bool
    ensures { result ≡ pitch_allowed byte }
{
    byte & 1 != pitches::HERTZ_FORM || byte >> 1 == 0
}

// Whether none of the voices that follow one another from a place on has a forbidden bit.
pub fn pitches_allowed(record: &[u8], at: usize, count: usize) -> bool
    requires { at + record_voice * count ≤ length «record».now }
    ensures { result ≡ pitches_allowed (drop at «record».now) count }
{
    for i in 0..count {
        if !pitch_allowed(record[at + RECORD_VOICE * i]) {
            return false;
        }
    }
    true
}
