// The masks of a bank of voices: the open call that reads them.
#![tactic(auto)]

ghost use Rattle.std.specs.Prelude.{◌≡◌, length};
ghost use Rattle.answer.specs.Reply.{of_outcome};
ghost use Rattle.answer.specs.Written.{written};
ghost use Rattle.lobes.specs.Pan as side;
ghost use Rattle.bank_masks.specs.Reading.{read_reply, read_mask};

use answer::Outcome;
use mask_calls::build_stereo_masks_with_voices_precomputed;
use scene::MaskConfig;
use voice_bank::Bank;
use voice_records::voices_of;

// Builds both masks of the voices in a bank, as the stereo call does of a list of voices.
pub fn read_masks(
    left: &mut [f32],
    right: &mut [f32],
    manual_mask_db: &[f32],
    bank: &Bank,
    config: MaskConfig,
    table: &[f32],
) -> Outcome
    ensures result_value { of_outcome result ≡ read_reply (length left.old)
        (length right.old) manual_mask_db.now bank.now config
        table.now }
    ensures left_after { left.new ≡ written (of_outcome result) (read_mask side.left
        manual_mask_db.now bank.now config table.now) left.old }
    ensures right_after { right.new ≡ written (of_outcome result) (read_mask side.right
        manual_mask_db.now bank.now config table.now) right.old }
{
    let voices = voices_of(bank.voices);
    build_stereo_masks_with_voices_precomputed(
        left,
        right,
        manual_mask_db,
        voices,
        bank.count,
        config,
        table,
    )
}
