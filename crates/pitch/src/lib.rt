// The pitch of a note.
#![tactic(auto)]

ghost use Rattle.std.specs.Prelude.{◌≡◌};
ghost use Rattle.pitch.specs.Pitch.{note_hertz};

// A4 is MIDI note 69, at 440 Hz.
pub const A4_NOTE: f32 = 69.0;

pub const A4_HERTZ: f32 = 440.0;

pub const NOTES_PER_OCTAVE: f32 = 12.0;

// MIDI note frequency in twelve-tone equal temperament, with an additional offset in semitones.
pub fn note_hertz(note: u8, tuning: f32) -> f32
    ensures { result ≡ note_hertz note tuning }
{
    A4_HERTZ * single_power::exp2((note as f32 + tuning - A4_NOTE) / NOTES_PER_OCTAVE)
}
