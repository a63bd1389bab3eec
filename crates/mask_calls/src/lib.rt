// The stereo mask builders: the first tests what it is given, and then makes one call of the core;
// the second lends it the table of its block. `spectral_dsp` passes them on under the Rust's paths;
// the mono builders are in `mono_calls`.
#![tactic(auto)]

ghost use Rattle.std.specs.Prelude.{◌≡◌, ◌*◌, min, length, take, drop};
ghost use Rattle.answer.specs.Reply.{of_outcome};
ghost use Rattle.answer.specs.Written.{written};
ghost use Rattle.lobes.specs.Distance.{lent};
ghost use Rattle.lobes.specs.Pan as side;
ghost use Rattle.mask_builder.specs.Mask.{mask_of};
ghost use Rattle.refusals.specs.Masks.{stereo_reply};

use answer::Outcome;
use limits::lengths;
use limits::lengths::{MANUAL_MASK_POINTS, MOST_VOICES};
use mask_builder::build_two;
use refusals::{of_settings, of_table, of_voices};
use scene::{MaskConfig, MaskVoice};

// Builds both masks of a stereo pair by the lent table, prepared or not. Note contributions use a
// constant-power pan law with unity at the centre; the drawn curve, the moving field and the floor
// of the closed regions are shared.
pub fn build_stereo_masks_with_voices_precomputed(
    left: &mut [f32],
    right: &mut [f32],
    manual_mask_db: &[f32],
    voices: [MaskVoice; MOST_VOICES],
    count: usize,
    config: MaskConfig,
    table: &[f32],
) -> Outcome
    ensures result_value { of_outcome result ≡ stereo_reply (length left.old)
        (length right.old) manual_mask_db.now voices count config
        table.now }
    ensures left_after { left.new ≡ written (of_outcome result) (mask_of
        manual_mask_db.now config (lent table.now) side.left
        (take count voices)) left.old }
    ensures right_after { right.new ≡ written (of_outcome result) (mask_of
        manual_mask_db.now config (lent table.now) side.right
        (take count voices)) right.old }
{
    let bins = lengths::bins(config.fft_size);
    let outputs = left.len() == bins && right.len() == bins;
    let lent = manual_mask_db.len() == MANUAL_MASK_POINTS && table.len() == bins;
    of_settings(config)?;
    of_voices(voices, count, outputs && lent)?;
    of_table(table)?;
    build_two(left, right, manual_mask_db, voices, count, config, table);
    Ok(())
}

// Where the frequency table begins in a block of that many entries: after four windows, or at its
// end where it is shorter.
fn table_start(size: usize, entries: usize) -> usize
    ensures { result ≡ min (4 * size) entries }
{
    if size <= entries / 4 {
        return 4 * size;
    }
    entries
}

// The same by the frequency table of a prepared spectrum, which begins after the four windows of
// its block.
pub fn build_stereo_masks_with_prepared_spectrum(
    left: &mut [f32],
    right: &mut [f32],
    manual_mask_db: &[f32],
    voices: [MaskVoice; MOST_VOICES],
    count: usize,
    config: MaskConfig,
    block: &[f32],
) -> Outcome
    ensures result_value { of_outcome result ≡ stereo_reply (length left.old)
        (length right.old) manual_mask_db.now voices count config
        (drop (4 * config.fft_size) block.now) }
    ensures left_after { left.new ≡ written (of_outcome result) (mask_of
        manual_mask_db.now config
        (lent (drop (4 * config.fft_size) block.now)) side.left (take count voices))
        left.old }
    ensures right_after { right.new ≡ written (of_outcome result) (mask_of
        manual_mask_db.now config
        (lent (drop (4 * config.fft_size) block.now)) side.right (take count voices))
        right.old }
{
    let start = table_start(config.fft_size, block.len());
    build_stereo_masks_with_voices_precomputed(
        left,
        right,
        manual_mask_db,
        voices,
        count,
        config,
        &block[start..],
    )
}
