// Two stereo calls made one after the other on lent buffers. The contract says what each leaves
// there, and of the masks what request 107 says of two scenes: silence from the far side.
ghost use Rattle.std.specs.Prelude.{length};
ghost use Rattle.answer.specs.Reply.{of_outcome};
ghost use Rattle.chord_law.specs.Calls.{call_of, whole_with};
ghost use Rattle.far_side_law.specs.FarSide.{FarSideSilent};
ghost use Rattle.far_side_calls.specs.Leaves.{Leaves};

use answer::Outcome;
use limits::lengths::MOST_VOICES;
use mask_calls::build_stereo_masks_with_voices_precomputed;
use scene::{MaskConfig, MaskVoice};

// Builds the masks of two scenes, A's and B's.
pub fn two_scenes(
    a_left: &mut [f32],
    a_right: &mut [f32],
    a_curve: &[f32],
    a_voices: [MaskVoice; MOST_VOICES],
    a_count: usize,
    a_config: MaskConfig,
    a_table: &[f32],
    b_left: &mut [f32],
    b_right: &mut [f32],
    b_curve: &[f32],
    b_voices: [MaskVoice; MOST_VOICES],
    b_count: usize,
    b_config: MaskConfig,
    b_table: &[f32],
) -> (Outcome, Outcome)
    ensures leaves { Leaves (call_of (length a_left.old)
        (length a_right.old) a_curve.now a_voices a_count a_config
        a_table.now) a_left.old a_right.old
        (of_outcome result.0) a_left.new a_right.new }
    ensures leaves_2 { Leaves (call_of (length b_left.old)
        (length b_right.old) b_curve.now b_voices b_count b_config
        b_table.now) b_left.old b_right.old
        (of_outcome result.1) b_left.new b_right.new }
    ensures far_side_silent { FarSideSilent (whole_with (call_of (length a_left.old)
        (length a_right.old) a_curve.now a_voices a_count a_config
        a_table.now) a_left.new a_right.new)
        (whole_with (call_of (length b_left.old) (length b_right.old)
        b_curve.now b_voices b_count b_config b_table.now)
        b_left.new b_right.new) }
{
    let a = build_stereo_masks_with_voices_precomputed(
        a_left, a_right, a_curve, a_voices, a_count, a_config, a_table,
    );
    let b = build_stereo_masks_with_voices_precomputed(
        b_left, b_right, b_curve, b_voices, b_count, b_config, b_table,
    );
    (a, b)
}
