// The tests that the mask builders share, in the order of document 01's numbers.
#![tactic(auto)]

ghost use Rattle.std.specs.Prelude.{◌≡◌, true, length};
ghost use Rattle.answer.specs.Reply.{of_outcome};
ghost use Rattle.limits.specs.Found.{Finds};
ghost use Rattle.refusals.specs.Masks.{settings_reply, voices_reply, table_reply};
ghost use Rattle.refusals.specs.Masks.{levels_reply, entry_accepted, first_entry_outside};

use answer::{Outcome, Reason, Refusal};
use limits::lengths::MOST_VOICES;
use scene::{MaskConfig, MaskVoice};

// Refusals 1 and 2: size and rate, and every other setting.
pub fn of_settings(config: MaskConfig) -> Outcome
    ensures { of_outcome result ≡ settings_reply config }
{
    if !scene::size_accepted(config) {
        return Err(Reason::SizeOrRate.into());
    }
    if !scene::settings_accepted(config) {
        return Err(Reason::Setting.into());
    }
    Ok(())
}

// Refusals 3, 4 and 5: the number of voices, the lengths of the slices, and a voice outside its
// limits.
pub fn of_voices(voices: [MaskVoice; MOST_VOICES], count: usize, lengths: bool) -> Outcome
    ensures { of_outcome result ≡ voices_reply voices count lengths }
{
    if MOST_VOICES < count {
        return Err(Reason::VoiceCount.into());
    }
    if !lengths {
        return Err(Reason::Length.into());
    }
    if let Some(voice) = scene::first_voice_outside(voices, count) {
        return Err(Refusal::at(Reason::Voice, voice));
    }
    Ok(())
}

// Entry 0 is not tested.
fn entry_accepted(bin: usize, entry: f32) -> bool
    ensures { result ≡ entry_accepted bin entry }
{
    bin == 0 || limits::table_entry(entry)
}

// Whether no entry from 1 on is outside its limits. None of them ends the loop, so that it is done
// for several entries at once.
fn none_outside(table: &[f32]) -> bool
    ensures { result ≡ true →
        first_entry_outside table.now ≡ length table.now }
{
    let mut outside: usize = 0;
    for (bin, entry) in table.iter().enumerate() {
        outside += !entry_accepted(bin, *entry) as usize;
    }
    outside == 0
}

// The lowest index, from 1 on, of a table entry outside its limits.
fn first_entry_outside(table: &[f32]) -> Option<usize>
    ensures { Finds (length table.now) (first_entry_outside table.now) result }
{
    for (bin, entry) in table.iter().enumerate() {
        if !entry_accepted(bin, *entry) {
            return Some(bin);
        }
    }
    None
}

// Refusal 6: a table entry.
pub fn of_table(table: &[f32]) -> Outcome
    ensures { of_outcome result ≡ table_reply table.now }
{
    if none_outside(table) {
        return Ok(());
    }
    if let Some(entry) = first_entry_outside(table) {
        return Err(Refusal::at(Reason::TableEntry, entry));
    }
    Ok(())
}

// Refusals 4 and 7 of a bank of levels: the lengths of the slices, and a level outside its limits.
pub fn of_levels(levels: &[f32], lengths: bool) -> Outcome
    ensures { of_outcome result ≡ levels_reply levels.now lengths }
{
    if !lengths {
        return Err(Reason::Length.into());
    }
    if let Some(note) = limits::first_outside(levels, limits::LEAST_LEVEL, limits::MOST_LEVEL) {
        return Err(Refusal::at(Reason::ListValue, note));
    }
    Ok(())
}
