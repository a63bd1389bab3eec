// The calls on a mixer for a caller in C, who holds the mixer itself: it has C's layout and is
// passed and returned by value, and so are the sixteen scenes.
#![tactic(auto)]

ghost use Rattle.std.specs.Prelude.{◌≡◌, length};
ghost use Rattle.answer.specs.Reply.{of_outcome};
ghost use Rattle.answer.specs.Written.{written};
ghost use Rattle.lobes.specs.Pan as side;
ghost use Rattle.mixer.specs.Mixers.{request_reply, mixer_asked, turn_names, mixer_turned};
ghost use Rattle.mixer_masks.specs.Serving.{named_reply, named_mask};
ghost use Rattle.crossing_mixers.specs.Mixed.{strip_of};
ghost use Rattle.crossing_mixers.specs.Mixed.{plain_filed, plain_turned, plain_served};
ghost use Rattle.crossing_mixers.specs.Mixed.{plain_reply, plain_mask, plain_at};

use answer::{Outcome, Reason};
use crossing_scenes::PlainScene;
use mixer::{Mixer, STRIPS, request, turn};
use mixer_masks::{build_scene, scene_place};
use scene::Scene;

// What a request answers, with C's layout: a number, 0 when done, a place, and the mixer.
#[repr(C)]
#[derive(Clone, Copy)]
pub struct PlainFiled {
    pub number: u32,
    pub place: usize,
    pub mixer: Mixer,
}

// What a turn answers, with C's layout: whether it named a strip, which one, else 0, and the mixer.
#[repr(C)]
#[derive(Clone, Copy)]
pub struct PlainTurned {
    pub named: bool,
    pub strip: usize,
    pub mixer: Mixer,
}

// What a turn with its scene answers, with C's layout.
#[repr(C)]
#[derive(Clone, Copy)]
pub struct PlainServed {
    pub number: u32,
    pub place: usize,
    pub named: bool,
    pub strip: usize,
    pub mixer: Mixer,
}

// The scenes by the number of the strip.
#[repr(C)]
#[derive(Clone, Copy)]
pub struct StripScenes {
    pub scenes: [PlainScene; STRIPS],
}

// The strip that a turn names, 0 where it names none.
fn strip_of(named: Option<usize>) -> usize
    ensures { result ≡ strip_of named }
{
    named.unwrap_or(0)
}

// `request`.
pub fn file(mut mixer: Mixer, strip: usize) -> PlainFiled
    ensures { result ≡ plain_filed (request_reply strip) (mixer_asked mixer strip) }
{
    let outcome = request(&mut mixer, strip);
    PlainFiled {
        number: answer::number(outcome) as u32,
        place: answer::place(outcome),
        mixer,
    }
}

// `turn`.
pub fn take_turn(mixer: Mixer) -> PlainTurned
    ensures { result ≡ plain_turned (turn_names mixer) (mixer_turned mixer) }
{
    // The mixer is changed where it is handed back, which spares a copy where nobody waits.
    let mut turned = PlainTurned {
        named: false,
        strip: 0,
        mixer,
    };
    let named = turn(&mut turned.mixer);
    turned.named = named.is_some();
    turned.strip = strip_of(named);
    turned
}

// The stereo call on a scene. A shape outside 0..7 is refusal 2, after refusal 1.
fn build_plain(
    left: &mut [f32],
    right: &mut [f32],
    manual_mask_db: &[f32],
    plain: &PlainScene,
    table: &[f32],
) -> Outcome
    ensures result_value { of_outcome result ≡ plain_reply (length left.old)
        (length right.old) manual_mask_db.now plain.now
        table.now }
    ensures left_after { left.new ≡ written (of_outcome result) (plain_mask side.left
        manual_mask_db.now plain.now table.now) left.old }
    ensures right_after { right.new ≡ written (of_outcome result) (plain_mask side.right
        manual_mask_db.now plain.now table.now) right.old }
{
    let scene = Scene::try_from(*plain)?;
    build_scene(left, right, manual_mask_db, &scene, table)
}

// Builds the masks of the scene of the strip that a turn has named, if it has named one.
fn build_named(
    left: &mut [f32],
    right: &mut [f32],
    manual_mask_db: &[f32],
    plain: &PlainScene,
    table: &[f32],
    named: Option<usize>,
) -> Outcome
    ensures result_value { of_outcome result ≡ named_reply (λ strip. plain_reply (length left.old)
        (length right.old) manual_mask_db.now plain.now table.now)
        named }
    ensures left_after { left.new ≡ named_mask (λ strip. plain_mask side.left
        manual_mask_db.now plain.now table.now) named (of_outcome result)
        left.old }
    ensures right_after { right.new ≡ named_mask (λ strip. plain_mask side.right
        manual_mask_db.now plain.now table.now) named (of_outcome result)
        right.old }
{
    match named {
        None => Ok(()),
        Some(strip) if STRIPS <= strip => Err(Reason::Strip.into()),
        Some(_) => build_plain(left, right, manual_mask_db, plain, table),
    }
}

// `serve`. Of the sixteen scenes only that of the strip that is named is taken from its record.
pub fn serve(
    left: &mut [f32],
    right: &mut [f32],
    manual_mask_db: &[f32],
    given: StripScenes,
    table: &[f32],
    mut mixer: Mixer,
) -> PlainServed
    ensures value { result ≡ plain_served (turn_names mixer) (named_reply (λ strip. plain_reply
        (length left.old) (length right.old) manual_mask_db.now
        (plain_at given strip) table.now) (turn_names mixer)) (mixer_turned mixer) }
    ensures left_after { left.new ≡ named_mask (λ strip. plain_mask side.left
        manual_mask_db.now (plain_at given strip) table.now)
        (turn_names mixer) (named_reply (λ strip. plain_reply (length left.old)
        (length right.old) manual_mask_db.now (plain_at given strip)
        table.now) (turn_names mixer)) left.old }
    ensures right_after { right.new ≡ named_mask (λ strip. plain_mask side.right
        manual_mask_db.now (plain_at given strip) table.now)
        (turn_names mixer) (named_reply (λ strip. plain_reply (length left.old)
        (length right.old) manual_mask_db.now (plain_at given strip)
        table.now) (turn_names mixer)) right.old }
{
    let named = turn(&mut mixer);
    let plain = &given.scenes[scene_place(named)];
    let outcome = build_named(left, right, manual_mask_db, plain, table, named);
    PlainServed {
        number: answer::number(outcome) as u32,
        place: answer::place(outcome),
        named: named.is_some(),
        strip: strip_of(named),
        mixer,
    }
}
