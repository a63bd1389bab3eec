// What a call answers: the number asked for or that it is done, or a refusal with document 01's
// number and the place it names.
#![tactic(auto)]

ghost use Rattle.std.specs.Prelude.{◌≡◌};
ghost use Rattle.answer.specs.Reply.{number, number_in, number_of, place, place_in, of_answer};

use limits::lengths::MIDI_NOTES;
use std::error::Error;
use std::fmt;

// Why a call refuses, in the order of document 01's table, and of the requests after it.
#[derive(Clone, Copy, Debug, PartialEq, Eq)]
pub enum Reason {
    // The size is not a power of two in 64..16,384, or the rate is outside its limits.
    SizeOrRate,
    // A setting or a lone number is outside its limits.
    Setting,
    // There are over 128 voices.
    VoiceCount,
    // A slice has the wrong length.
    Length,
    // A voice is outside its limits. The place is its index.
    Voice,
    // A table entry from 1 on is outside its limits. The place is its index.
    TableEntry,
    // A level, gain or window value is outside its limits. The place is its index.
    ListValue,
    // The overlap is outside its limits or does not divide the length.
    Overlap,
    // A scene record has the wrong length, or a forbidden bit set.
    Record,
    // An id is in the bank already where a voice is added, or is not in it where one is taken out
    // or changed.
    Id,
    // A strip is above 15.
    Strip,
}

// A refusal: its reason and the place that it names, else 0.
#[derive(Clone, Copy, Debug, PartialEq, Eq)]
pub struct Refusal {
    pub reason: Reason,
    pub place: usize,
}

// The answer of a call that writes lent slices.
pub type Outcome = Result<(), Refusal>;

// The answer of a call for a single number: document 01 asks for an enum whose cases are
// Gain(f32) or Refused(number, place), and for no Result.
#[derive(Clone, Copy, Debug, PartialEq)]
pub enum Answer {
    Gain(f32),
    Refused(Reason, usize),
}

// What `PreparedSpectrum::new` answers: the coherent gains of the window and of the smooth window.
#[derive(Clone, Copy, Debug, PartialEq)]
pub struct CoherentGains {
    pub window: f32,
    pub smooth_window: f32,
}

// The answer of `advance_note_envelopes`, with the bank beside it: document 01 has it pass the bank
// by value and hand it back.
#[derive(Clone, Copy)]
pub struct Envelopes {
    pub outcome: Outcome,
    pub levels: [f32; MIDI_NOTES],
}

impl Reason {
    // Document 01's number.
    pub fn number(self) -> u8
        ensures { result ≡ number_of self }
    {
        match self {
            Reason::SizeOrRate => 1,
            Reason::Setting => 2,
            Reason::VoiceCount => 3,
            Reason::Length => 4,
            Reason::Voice => 5,
            Reason::TableEntry => 6,
            Reason::ListValue => 7,
            Reason::Overlap => 8,
            Reason::Record => 9,
            Reason::Id => 10,
            Reason::Strip => 11,
        }
    }
}

impl Refusal {
    // A refusal that names a place.
    pub fn at(reason: Reason, place: usize) -> Refusal
        ensures { result ≡ record { reason = reason; place = place } }
    {
        Refusal { reason, place }
    }
}

// A refusal that names no place.
impl From<Reason> for Refusal {
    ghost from_gives = { λ reason refusal. refusal ≡ record { reason = reason; place = 0 } };

    fn from(reason: Reason) -> Refusal {
        Refusal { reason, place: 0 }
    }
}

impl fmt::Display for Refusal {
    fn fmt<W: fmt::Write>(&self, f: &mut fmt::Formatter<W>) -> fmt::Result {
        write!(f, "refused {} {}", self.reason.number(), self.place)
    }
}

impl Error for Refusal {}

impl Answer {
    // Document 01's number: 0 where the call is done.
    pub fn number(self) -> u8
        ensures { result ≡ number (of_answer self) }
    {
        match self {
            Answer::Gain(_) => 0,
            Answer::Refused(reason, _) => reason.number(),
        }
    }

    // The place that a refusal names, else 0.
    pub fn place(self) -> usize
        ensures { result ≡ place (of_answer self) }
    {
        match self {
            Answer::Gain(_) => 0,
            Answer::Refused(_, place) => place,
        }
    }
}

// Document 01's number, for a caller that takes numbers: 0 where the call is done.
pub fn number<T: Copy>(answer: Result<T, Refusal>) -> u8
    ensures { result ≡ number_in answer }
{
    match answer {
        Ok(_) => 0,
        Err(refusal) => refusal.reason.number(),
    }
}

// The place that a refusal names, else 0.
pub fn place<T: Copy>(answer: Result<T, Refusal>) -> usize
    ensures { result ≡ place_in answer }
{
    match answer {
        Ok(_) => 0,
        Err(refusal) => refusal.place,
    }
}
