// The open calls of oiko-dsp: each tests its arguments and answers with the number or with the
// refusal.
#![tactic(auto)]

ghost use Rattle.std.specs.Prelude.{◌≡◌};
ghost use Rattle.answer.specs.Reply.{of_answer};
ghost use Rattle.oiko_dsp.specs.Calls.{db_to_gain, note_frequency, note_frequency_with_tuning};

use answer::{Answer, Reason};

// Converts amplitude decibels to a linear gain.
pub fn db_to_gain(db: f32) -> Answer
    ensures { of_answer result ≡ db_to_gain db }
{
    if !limits::decibels(db) {
        return Answer::Refused(Reason::Setting, 0);
    }
    Answer::Gain(decibels::single_gain(db))
}

// MIDI note frequency in twelve-tone equal temperament at A4 = 440 Hz.
pub fn note_frequency(note: u8) -> Answer
    ensures { of_answer result ≡ note_frequency note }
{
    note_frequency_with_tuning(note, 0.0)
}

// MIDI note frequency with an additional offset in semitones.
pub fn note_frequency_with_tuning(note: u8, tuning_semitones: f32) -> Answer
    ensures { of_answer result ≡ note_frequency_with_tuning note tuning_semitones }
{
    if !limits::note(note) {
        return Answer::Refused(Reason::Setting, 0);
    }
    if !limits::tuning(tuning_semitones) {
        return Answer::Refused(Reason::Setting, 0);
    }
    Answer::Gain(pitch::note_hertz(note, tuning_semitones))
}
