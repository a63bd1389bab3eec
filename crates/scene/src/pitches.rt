// A pitch: its limits, and the same in plain numbers: a form, a note and one more number.
ghost use Rattle.std.specs.Prelude.{◌≡◌};
ghost use Rattle.scene.specs.Accepted.{pitch_accepted};
ghost use Rattle.scene.specs.PitchNumbers.{form_of, note_of, number_of, pitch_of};

use crate::Pitch;

// A form by its number, as a record in C and a stored record hold it.
pub const NOTE_FORM: u8 = 0;

pub const HERTZ_FORM: u8 = 1;

#[tactic(auto, unfolding(crate::specs::Accepted::pitch_accepted))]
pub fn accepted(pitch: Pitch) -> bool
    ensures { result ≡ pitch_accepted pitch }
{
    match pitch {
        Pitch::Note(note, tuning) => limits::note(note) && limits::tuning(tuning),
        Pitch::Hertz(hertz) => limits::hertz(hertz),
    }
}

// The pitch of a form: a note with its semitones, or hertz, where the note is not read. Any other
// form gives 0 Hz, which lies outside the limits, so that its voice is refused in its turn. The
// numbers stand among others in a record, so that a `From` over three of them would be no plainer.
#[tactic(auto, unfolding(crate::specs::PitchNumbers::pitch_of))]
pub fn pitch_of(form: u8, note: u8, number: f32) -> Pitch
    ensures { result ≡ pitch_of form note number }
{
    match form {
        NOTE_FORM => Pitch::Note(note, number),
        HERTZ_FORM => Pitch::Hertz(number),
        _ => Pitch::Hertz(0.0),
    }
}

#[tactic(auto, unfolding(crate::specs::PitchNumbers::form_of))]
pub fn form_of(pitch: Pitch) -> u8
    ensures { result ≡ form_of pitch }
{
    match pitch {
        Pitch::Note(_, _) => NOTE_FORM,
        Pitch::Hertz(_) => HERTZ_FORM,
    }
}

// A pitch in hertz has no note: 0 stands in its place.
#[tactic(auto, unfolding(crate::specs::PitchNumbers::note_of))]
pub fn note_of(pitch: Pitch) -> u8
    ensures { result ≡ note_of pitch }
{
    match pitch {
        Pitch::Note(note, _) => note,
        Pitch::Hertz(_) => 0,
    }
}

// The semitones or the hertz.
#[tactic(auto, unfolding(crate::specs::PitchNumbers::number_of))]
pub fn number_of(pitch: Pitch) -> f32
    ensures { result ≡ number_of pitch }
{
    match pitch {
        Pitch::Note(_, semitones) => semitones,
        Pitch::Hertz(hertz) => hertz,
    }
}
