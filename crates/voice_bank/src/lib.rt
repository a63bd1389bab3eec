// A bank of up to 128 voices, each with an id, in the order in which they came, and the open calls
// that add one, take one out and change one. A refused call leaves the bank as it was.
#![tactic(auto)]

ghost use Rattle.std.specs.Prelude.{◌≡◌};
ghost use Rattle.answer.specs.Reply.{of_outcome};
ghost use Rattle.voice_bank.specs.Banks.{empty, found_in, add_reply, bank_added};
ghost use Rattle.voice_bank.specs.Banks.{remove_reply, bank_removed};
ghost use Rattle.voice_bank.specs.Banks.{change_reply, bank_changed};

use answer::{Outcome, Reason};
use limits::lengths::MOST_VOICES;
use scene::{MaskVoice, held, voice_accepted};
use voice_records::VoiceRecord;

// The voices are plain numbers in arrays with a count beside them, so that a caller in C can hold a
// bank. What stands from `count` on does not count.
#[repr(C)]
#[derive(Clone, Copy)]
pub struct Bank {
    pub ids: [u16; MOST_VOICES],
    pub voices: [VoiceRecord; MOST_VOICES],
    pub count: usize,
}

pub fn new_bank() -> Bank
    ensures { result ≡ empty }
{
    let silent = VoiceRecord {
        pitch_form: 0,
        note: 0,
        semitones_or_hertz: 0.0,
        level: 0.0,
        pressure: 0.0,
        timbre: 0.0,
        volume_gain: 0.0,
        expression_gain: 0.0,
        pan: 0.0,
    };
    Bank {
        ids: [0u16; MOST_VOICES],
        voices: [silent; MOST_VOICES],
        count: 0,
    }
}

// The place of an id in a list of them.
fn place_in(ids: &[u16], id: u16) -> Option<usize>
    ensures { result ≡ found_in id ids.now }
{
    for place in 0..ids.len() {
        if ids[place] == id {
            return Some(place);
        }
    }
    None
}

// Adds a voice after the others.
pub fn add_voice(bank: &mut Bank, id: u16, voice: MaskVoice) -> Outcome
    ensures outcome_value { of_outcome result ≡ add_reply bank.old id voice }
    ensures bank_value { bank.new ≡ bank_added bank.old id voice }
{
    let count = bank.count;
    if MOST_VOICES <= count {
        return Err(Reason::VoiceCount.into());
    }
    if !voice_accepted(voice) {
        return Err(Reason::Voice.into());
    }
    if place_in(&bank.ids[..count], id).is_some() {
        return Err(Reason::Id.into());
    }
    bank.ids[count] = id;
    bank.voices[count] = VoiceRecord::from(voice);
    bank.count = count + 1;
    Ok(())
}

// Takes out the voice with that id. The others keep their order.
pub fn remove_voice(bank: &mut Bank, id: u16) -> Outcome
    ensures outcome_value { of_outcome result ≡ remove_reply bank.old id }
    ensures bank_value { bank.new ≡ bank_removed bank.old id }
{
    let count = held(bank.count);
    let Some(place) = place_in(&bank.ids[..count], id) else {
        return Err(Reason::Id.into());
    };
    bank.ids.copy_within(place + 1..count, place);
    bank.voices.copy_within(place + 1..count, place);
    bank.count = count - 1;
    Ok(())
}

// Puts a voice in the place of the one with that id.
pub fn change_voice(bank: &mut Bank, id: u16, voice: MaskVoice) -> Outcome
    ensures outcome_value { of_outcome result ≡ change_reply bank.old id voice }
    ensures bank_value { bank.new ≡ bank_changed bank.old id voice }
{
    if !voice_accepted(voice) {
        return Err(Reason::Voice.into());
    }
    let count = held(bank.count);
    let Some(place) = place_in(&bank.ids[..count], id) else {
        return Err(Reason::Id.into());
    };
    bank.voices[place] = VoiceRecord::from(voice);
    bank.count = count;
    Ok(())
}
