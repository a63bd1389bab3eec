// The strips of a mixer and one mask builder: the open call that takes a turn and builds the masks
// of the strip that it names.
#![tactic(auto)]

ghost use Rattle.std.specs.Prelude.{◌≡◌, ◌<◌, length};
ghost use Rattle.answer.specs.Reply.{of_outcome};
ghost use Rattle.answer.specs.Written.{written};
ghost use Rattle.lobes.specs.Pan as side;
ghost use Rattle.mixer.specs.Mixers.{strip_count, turn_names, mixer_turned};
ghost use Rattle.mixer_masks.specs.Serving.{scene_reply, scene_mask, scene_at};
ghost use Rattle.mixer_masks.specs.Serving.{scene_place, named_reply, named_mask};

use answer::{Outcome, Reason};
use mask_calls::build_stereo_masks_with_voices_precomputed;
use mixer::{Mixer, STRIPS, turn};
use scene::Scene;

// What a turn with its scene answers: whom it named, and what the stereo call answered to that
// strip's scene. Both are told also where the scene is refused.
#[derive(Clone, Copy)]
pub struct Served {
    pub named: Option<usize>,
    pub outcome: Outcome,
}

// The stereo call on a scene.
pub fn build_scene(
    left: &mut [f32],
    right: &mut [f32],
    manual_mask_db: &[f32],
    scene: &Scene,
    table: &[f32],
) -> Outcome
    ensures result_value { of_outcome result ≡ scene_reply (length left.old)
        (length right.old) manual_mask_db.now scene.now
        table.now }
    ensures left_after { left.new ≡ written (of_outcome result) (scene_mask side.left
        manual_mask_db.now scene.now table.now) left.old }
    ensures right_after { right.new ≡ written (of_outcome result) (scene_mask side.right
        manual_mask_db.now scene.now table.now) right.old }
{
    build_stereo_masks_with_voices_precomputed(
        left,
        right,
        manual_mask_db,
        scene.voices,
        scene.count,
        scene.config,
        table,
    )
}

// Where the scene of the strip that a turn has named stands among the sixteen; the first place
// where it has named none of them.
pub fn scene_place(named: Option<usize>) -> usize
    ensures { (result ≡ scene_place named) × (result < strip_count) }
{
    match named {
        Some(strip) if strip < STRIPS => strip,
        _ => 0,
    }
}

// Builds the masks of the scene of the strip that a turn has named, if it has named one.
fn build_named(
    left: &mut [f32],
    right: &mut [f32],
    manual_mask_db: &[f32],
    scene: &Scene,
    table: &[f32],
    named: Option<usize>,
) -> Outcome
    ensures result_value { of_outcome result ≡ named_reply (λ strip. scene_reply (length left.old)
        (length right.old) manual_mask_db.now scene.now table.now)
        named }
    ensures left_after { left.new ≡ named_mask (λ strip. scene_mask side.left
        manual_mask_db.now scene.now table.now) named (of_outcome result)
        left.old }
    ensures right_after { right.new ≡ named_mask (λ strip. scene_mask side.right
        manual_mask_db.now scene.now table.now) named (of_outcome result)
        right.old }
{
    match named {
        None => Ok(()),
        Some(strip) if STRIPS <= strip => Err(Reason::Strip.into()),
        Some(_) => build_scene(left, right, manual_mask_db, scene, table),
    }
}

// Takes a turn and builds both masks of the strip that it names; each strip has a scene. The turn
// counts and takes the strip off also where its scene is refused.
pub fn serve(
    left: &mut [f32],
    right: &mut [f32],
    manual_mask_db: &[f32],
    scenes: &[Scene; STRIPS],
    table: &[f32],
    mixer: &mut Mixer,
) -> Served
    ensures named_value { result.named ≡ turn_names mixer.old }
    ensures mixer_value { mixer.new ≡ mixer_turned mixer.old }
    ensures outcome_value { of_outcome result.outcome ≡ named_reply (λ strip. scene_reply
        (length left.old) (length right.old) manual_mask_db.now
        (scene_at scenes.now strip) table.now) (turn_names mixer.old) }
    ensures left_after { left.new ≡ named_mask (λ strip. scene_mask side.left
        manual_mask_db.now (scene_at scenes.now strip) table.now)
        (turn_names mixer.old) (of_outcome result.outcome) left.old }
    ensures right_after { right.new ≡ named_mask (λ strip. scene_mask side.right
        manual_mask_db.now (scene_at scenes.now strip) table.now)
        (turn_names mixer.old) (of_outcome result.outcome) right.old }
{
    let named = turn(mixer);
    let scene = &scenes[scene_place(named)];
    let outcome = build_named(left, right, manual_mask_db, scene, table, named);
    Served { named, outcome }
}
