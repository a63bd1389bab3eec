// The stereo call on a lent slice of voice records, as the Rust takes them.
#![tactic(auto)]

ghost use Rattle.std.specs.Prelude.{◌≡◌, length};
ghost use Rattle.answer.specs.Reply.{of_outcome};
ghost use Rattle.answer.specs.Written.{written};
ghost use Rattle.lobes.specs.Pan as side;
ghost use Rattle.scene.specs.Gathered.{gathered};
ghost use Rattle.mask_calls.specs.LentStereo.{lent_reply, lent_mask};

use answer::Outcome;
use limits::lengths::MOST_VOICES;
use scene::{MaskConfig, MaskVoice};

// Copies the voices of a slice into the core's array, the first 128 where there are more.
pub fn gather(voices: &[MaskVoice]) -> [MaskVoice; MOST_VOICES]
    ensures { result ≡ gathered voices.now }
{
    let count = scene::held(voices.len());
    let mut array = scene::silent_voices();
    array[..count].copy_from_slice(&voices[..count]);
    array
}

// Builds both masks of a stereo pair by the lent table, prepared or not. The slice's length is the
// count, so that the core refuses more than 128 voices.
pub fn build_stereo_masks_with_voices_precomputed(
    left: &mut [f32],
    right: &mut [f32],
    manual_mask_db: &[f32],
    voices: &[MaskVoice],
    config: MaskConfig,
    table: &[f32],
) -> Outcome
    ensures result_value { of_outcome result ≡ lent_reply (length left.old)
        (length right.old) manual_mask_db.now voices.now config
        table.now }
    ensures left_after { left.new ≡ written (of_outcome result)
        (lent_mask side.left manual_mask_db.now voices.now config
        table.now) left.old }
    ensures right_after { right.new ≡ written (of_outcome result)
        (lent_mask side.right manual_mask_db.now voices.now config
        table.now) right.old }
{
    mask_calls::build_stereo_masks_with_voices_precomputed(
        left,
        right,
        manual_mask_db,
        gather(voices),
        voices.len(),
        config,
        table,
    )
}
