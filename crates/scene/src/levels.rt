// The voices of a bank of note levels.
ghost use Rattle.std.specs.Prelude.{◌≡◌, length};
ghost use Rattle.limits.specs.Lengths.{midi_notes};
ghost use Rattle.scene.specs.Levels.{level_voice, voices_of};

use crate::{MaskVoice, Pitch, silent_voices};
use limits::lengths::{MIDI_NOTES, MOST_VOICES};

// A note at a level, with the Rust's default voice otherwise.
fn level_voice(note: u8, level: f32) -> MaskVoice
    ensures { result ≡ level_voice note level }
{
    let pitch = Pitch::Note(note, 0.0);
    MaskVoice {
        pitch,
        level: level,
        pressure: 1.0,
        timbre: 0.5,
        volume_gain: 1.0,
        expression_gain: 1.0,
        pan: 0.0,
    }
}

pub fn voices_of(levels: &[f32]) -> [MaskVoice; MOST_VOICES]
    requires { length levels.now ≡ midi_notes }
    ensures { result ≡ voices_of levels.now }
{
    let mut voices = silent_voices();
    for note in 0..MIDI_NOTES {
        voices[note] = level_voice(note as u8, levels[note]);
    }
    voices
}
