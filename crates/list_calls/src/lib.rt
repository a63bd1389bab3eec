// The open calls that fill the frequency table and move the bank of note levels. Each tests what it
// is given, in the order of document 01's numbers, and then makes one call of the core.
// `spectral_dsp` passes them on under the Rust's paths.
#![tactic(auto)]

ghost use Rattle.std.specs.Prelude.{◌≡◌, length};
ghost use Rattle.answer.specs.Reply.{of_outcome};
ghost use Rattle.answer.specs.Written.{written};
ghost use Rattle.lists.specs.Maps.{tabulate};
ghost use Rattle.frequencies.specs.Frequency.{prepared};
ghost use Rattle.envelopes.specs.Envelope.{advanced};
ghost use Rattle.list_calls.specs.Advanced.{of_envelopes, advance_of, bank_reply};
ghost use Rattle.list_calls.specs.Prepared.{prepare_reply};

use answer::{Envelopes, Outcome, Reason, Refusal};
use limits::lengths;
use limits::lengths::{HELD_BYTES, MIDI_NOTES};

// The frequency table, which the caller holds and lends.
#[derive(Clone, Copy)]
pub struct MaskWorkspace {}

impl MaskWorkspace {
    // Fills the table after a change of the sample rate or of the size.
    pub fn prepare(table: &mut [f32], sample_rate: f32, fft_size: usize) -> Outcome
        ensures result_value { of_outcome result
            ≡ prepare_reply (length table.old) sample_rate fft_size }
        ensures table_after { table.new ≡ written (of_outcome result)
            (tabulate (length table.old) (prepared sample_rate fft_size))
            table.old }
    {
        if !limits::size(fft_size) {
            return Err(Reason::SizeOrRate.into());
        }
        if !limits::rate(sample_rate) {
            return Err(Reason::SizeOrRate.into());
        }
        if table.len() != lengths::bins(fft_size) {
            return Err(Reason::Length.into());
        }
        frequencies::fill(table, sample_rate, fft_size);
        Ok(())
    }
}

// The levels of the 128 notes after one frame, in the slice that holds them: 16 bytes say which
// notes are held, note 0 by the top bit of byte 0.
pub fn advance_bank(levels: &mut [f32], held: &[u8], elapsed_seconds: f32, fade_ms: f32) -> Outcome
    ensures result_value { of_outcome result
        ≡ bank_reply levels.old held.now elapsed_seconds fade_ms }
    ensures levels_after { levels.new ≡ written (of_outcome result)
        (advanced held.now elapsed_seconds fade_ms levels.old)
        levels.old }
{
    if !limits::elapsed(elapsed_seconds) {
        return Err(Reason::Setting.into());
    }
    if !limits::fade(fade_ms) {
        return Err(Reason::Setting.into());
    }
    if levels.len() != MIDI_NOTES {
        return Err(Reason::Length.into());
    }
    if held.len() != HELD_BYTES {
        return Err(Reason::Length.into());
    }
    // The division and the power are begun first: the levels are tested while they are under way.
    let alpha = envelopes::fade_alpha(elapsed_seconds, fade_ms);
    if let Some(note) = limits::first_outside(levels, limits::LEAST_LEVEL, limits::MOST_LEVEL) {
        return Err(Refusal::at(Reason::ListValue, note));
    }
    envelopes::advance(levels, held, alpha);
    Ok(())
}

// The same for a bank that is passed by value and comes back beside the answer.
pub fn advance_note_envelopes(
    levels: [f32; MIDI_NOTES],
    held: [u8; HELD_BYTES],
    elapsed_seconds: f32,
    fade_ms: f32,
) -> Envelopes
    ensures { of_envelopes result ≡ advance_of levels held elapsed_seconds fade_ms }
{
    let mut bank = levels;
    let outcome = advance_bank(&mut bank, &held, elapsed_seconds, fade_ms);
    Envelopes {
        outcome,
        levels: bank,
    }
}
