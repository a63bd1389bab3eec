// Two calls made one after the other on lent buffers, with a law on the two as the contract: the
// chord law, that the order of arrival in a bank of voices is not audible, and that a prepared
// block gives the stereo call the prepared table.
#![tactic(auto)]

ghost use Rattle.std.specs.Prelude.{◌≡◌, length};
ghost use Rattle.answer.specs.Reply.{of_outcome, of_prepared};
ghost use Rattle.prepared_law.specs.Calls.{new_of, stereo_of, built_of, new_reply};
ghost use Rattle.prepared_law.specs.Law.{BuiltByBlock};
ghost use Rattle.chord_law.specs.Calls.{call_of, reply_to, whole_with};
ghost use Rattle.chord_law.specs.Law.{LawHolds};
ghost use Rattle.bank_masks.specs.Reading.{read_reply};
ghost use Rattle.bank_law.specs.Calls.{reading_of, answer_with};
ghost use Rattle.bank_law.specs.Promises.{BanksNotAudible};

use answer::{CoherentGains, Outcome, Refusal};
use bank_masks::read_masks;
use limits::lengths::MOST_VOICES;
use mask_calls::{
    build_stereo_masks_with_prepared_spectrum, build_stereo_masks_with_voices_precomputed,
};
use processing_calls::PreparedSpectrum;
use scene::{MaskConfig, MaskVoice};
use voice_bank::Bank;

// Makes two stereo calls, A's and B's, and gives what they answer.
pub fn two_stereo_calls(
    a_left: &mut [f32],
    a_right: &mut [f32],
    a_curve: &[f32],
    a_voices: [MaskVoice; MOST_VOICES],
    a_count: usize,
    a_config: MaskConfig,
    a_table: &[f32],
    b_left: &mut [f32],
    b_right: &mut [f32],
    b_curve: &[f32],
    b_voices: [MaskVoice; MOST_VOICES],
    b_count: usize,
    b_config: MaskConfig,
    b_table: &[f32],
) -> (Outcome, Outcome)
    ensures a_value { of_outcome result.0 ≡ reply_to (call_of (length a_left.old)
        (length a_right.old) a_curve.now a_voices a_count a_config
        a_table.now) }
    ensures b_value { of_outcome result.1 ≡ reply_to (call_of (length b_left.old)
        (length b_right.old) b_curve.now b_voices b_count b_config
        b_table.now) }
    ensures law_holds { LawHolds (whole_with (call_of (length a_left.old)
        (length a_right.old) a_curve.now a_voices a_count a_config
        a_table.now) a_left.new a_right.new)
        (whole_with (call_of (length b_left.old) (length b_right.old)
        b_curve.now b_voices b_count b_config b_table.now)
        b_left.new b_right.new) }
{
    let a = build_stereo_masks_with_voices_precomputed(
        a_left, a_right, a_curve, a_voices, a_count, a_config, a_table,
    );
    let b = build_stereo_masks_with_voices_precomputed(
        b_left, b_right, b_curve, b_voices, b_count, b_config, b_table,
    );
    (a, b)
}

// Reads the masks of two banks with one curve, the same settings and one table.
pub fn read_two_banks(
    a_left: &mut [f32],
    a_right: &mut [f32],
    a_bank: Bank,
    b_left: &mut [f32],
    b_right: &mut [f32],
    b_bank: Bank,
    curve: &[f32],
    config: MaskConfig,
    table: &[f32],
) -> (Outcome, Outcome)
    ensures a_value { of_outcome result.0 ≡ read_reply (length a_left.old)
        (length a_right.old) curve.now a_bank config
        table.now }
    ensures b_value { of_outcome result.1 ≡ read_reply (length b_left.old)
        (length b_right.old) curve.now b_bank config
        table.now }
    ensures banks_not_audible { BanksNotAudible a_bank b_bank
        (reading_of a_left.old a_right.old curve.now config
        table.now)
        (reading_of b_left.old b_right.old curve.now config
        table.now)
        (answer_with (of_outcome result.0) a_left.new a_right.new)
        (answer_with (of_outcome result.1) b_left.new b_right.new) }
{
    let a = read_masks(a_left, a_right, curve, &a_bank, config, table);
    let b = read_masks(b_left, b_right, curve, &b_bank, config, table);
    (a, b)
}

// Fills the block, then builds both masks by it, and gives what the two calls answer.
pub fn prepare_and_build(
    sample_rate: f32,
    window: &[f32],
    smooth: &[f32],
    overlap: usize,
    block: &mut [f32],
    left: &mut [f32],
    right: &mut [f32],
    curve: &[f32],
    voices: [MaskVoice; MOST_VOICES],
    count: usize,
    config: MaskConfig,
) -> (Result<CoherentGains, Refusal>, Outcome)
    ensures prepared_value { of_prepared result.0 ≡ new_reply (new_of sample_rate
        window.now smooth.now overlap block.old) }
    ensures built_by_block { BuiltByBlock (new_of sample_rate
        window.now smooth.now overlap block.old)
        (stereo_of left.old right.old curve.now voices count config)
        (built_of (of_outcome result.1) left.new right.new) }
{
    let prepared = PreparedSpectrum::new(sample_rate, window, smooth, overlap, block);
    let masks = build_stereo_masks_with_prepared_spectrum(
        left, right, curve, voices, count, config, block,
    );
    (prepared, masks)
}
