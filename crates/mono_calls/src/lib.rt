// The mono mask builders: each tests what it is given, and then makes one call of the core.
// `spectral_dsp` passes them on under the Rust's paths; the stereo builders are in `mask_calls`.
#![tactic(auto)]

ghost use Rattle.std.specs.Prelude.{◌≡◌, length, take};
ghost use Rattle.answer.specs.Reply.{of_outcome};
ghost use Rattle.answer.specs.Written.{written};
ghost use Rattle.lobes.specs.Distance.{lent, none};
ghost use Rattle.lobes.specs.Pan as side;
ghost use Rattle.scene.specs.Levels.{voices_of};
ghost use Rattle.mask_builder.specs.Mask.{mask_of};
ghost use Rattle.refusals.specs.Masks.{mask_reply, voices_mask_reply, tabled_mask_reply};

use answer::Outcome;
use limits::lengths;
use limits::lengths::{MANUAL_MASK_POINTS, MIDI_NOTES, MOST_VOICES};
use mask_builder::build_one;
use refusals::{of_levels, of_settings, of_table, of_voices};
use scene::{MaskConfig, MaskVoice};

// Builds the mask of a bank of note levels: a voice for each of the 128 notes, with nothing played
// on it.
pub fn build_mask(
    output: &mut [f32],
    manual_mask_db: &[f32],
    note_levels: &[f32],
    config: MaskConfig,
) -> Outcome
    ensures result_value { of_outcome result ≡ mask_reply (length output.old)
        manual_mask_db.now note_levels.now config }
    ensures output_after { output.new ≡ written (of_outcome result) (mask_of
        manual_mask_db.now config none side.mono
        (voices_of note_levels.now)) output.old }
{
    let bins = lengths::bins(config.fft_size);
    let lent = manual_mask_db.len() == MANUAL_MASK_POINTS && note_levels.len() == MIDI_NOTES;
    let lengths = output.len() == bins && lent;
    of_settings(config)?;
    of_levels(note_levels, lengths)?;
    let voices = scene::levels::voices_of(note_levels);
    build_one(output, manual_mask_db, voices, MIDI_NOTES, config, None);
    Ok(())
}

// Builds the mono mask of the voices, working out each bin's logarithm.
pub fn build_mask_with_voices(
    output: &mut [f32],
    manual_mask_db: &[f32],
    voices: [MaskVoice; MOST_VOICES],
    count: usize,
    config: MaskConfig,
) -> Outcome
    ensures result_value { of_outcome result ≡ voices_mask_reply (length output.old)
        manual_mask_db.now voices count config }
    ensures output_after { output.new ≡ written (of_outcome result)
        (mask_of manual_mask_db.now config none side.mono (take count voices))
        output.old }
{
    let bins = lengths::bins(config.fft_size);
    let sized = output.len() == bins && manual_mask_db.len() == MANUAL_MASK_POINTS;
    of_settings(config)?;
    of_voices(voices, count, sized)?;
    build_one(output, manual_mask_db, voices, count, config, None);
    Ok(())
}

// Builds the mono mask of the voices by the lent table, prepared or not.
pub fn build_mask_with_voices_precomputed(
    output: &mut [f32],
    manual_mask_db: &[f32],
    voices: [MaskVoice; MOST_VOICES],
    count: usize,
    config: MaskConfig,
    table: &[f32],
) -> Outcome
    ensures result_value { of_outcome result ≡ tabled_mask_reply (length output.old)
        manual_mask_db.now voices count config table.now }
    ensures output_after { output.new ≡ written (of_outcome result) (mask_of
        manual_mask_db.now config (lent table.now) side.mono
        (take count voices)) output.old }
{
    let bins = lengths::bins(config.fft_size);
    let lent = manual_mask_db.len() == MANUAL_MASK_POINTS && table.len() == bins;
    let lengths = output.len() == bins && lent;
    of_settings(config)?;
    of_voices(voices, count, lengths)?;
    of_table(table)?;
    build_one(output, manual_mask_db, voices, count, config, Some(table));
    Ok(())
}
