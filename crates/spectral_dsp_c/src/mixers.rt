// A mixer of strips, which is passed and returned by value, with C's layout.
ghost use Rattle.std.specs.Prelude.{◌≡◌, length};
ghost use Rattle.lobes.specs.Pan as side;
ghost use Rattle.mixer.specs.Mixers.{fresh, request_reply, mixer_asked, turn_names, mixer_turned};
ghost use Rattle.mixer_masks.specs.Serving.{named_reply, named_mask};
ghost use Rattle.crossing_mixers.specs.Mixed.{plain_filed, plain_turned, plain_served};
ghost use Rattle.crossing_mixers.specs.Mixed.{plain_reply, plain_mask, plain_at};

use crossing_mixers::{PlainFiled, PlainServed, PlainTurned, StripScenes};
use mixer::Mixer;

#[unsafe(no_mangle)]
pub extern "C" fn dovetable_new_mixer() -> Mixer
    ensures { result ≡ fresh }
{
    spectral_dsp::new_mixer()
}

#[unsafe(no_mangle)]
pub extern "C" fn dovetable_request(mixer: Mixer, strip: usize) -> PlainFiled
    ensures { result ≡ plain_filed (request_reply strip) (mixer_asked mixer strip) }
{
    crossing_mixers::file(mixer, strip)
}

#[unsafe(no_mangle)]
pub extern "C" fn dovetable_turn(mixer: Mixer) -> PlainTurned
    ensures { result ≡ plain_turned (turn_names mixer) (mixer_turned mixer) }
{
    crossing_mixers::take_turn(mixer)
}

#[unsafe(no_mangle)]
pub extern "C" fn dovetable_serve(
    left: &mut [f32],
    right: &mut [f32],
    manual_mask_db: &[f32],
    scenes: StripScenes,
    table: &[f32],
    mixer: Mixer,
) -> PlainServed
    ensures value { result ≡ plain_served (turn_names mixer) (named_reply (λ strip. plain_reply
        (length left.old) (length right.old) manual_mask_db.now
        (plain_at scenes strip) table.now) (turn_names mixer)) (mixer_turned mixer) }
    ensures left_after { left.new ≡ named_mask (λ strip. plain_mask side.left
        manual_mask_db.now (plain_at scenes strip) table.now)
        (turn_names mixer) (named_reply (λ strip. plain_reply (length left.old)
        (length right.old) manual_mask_db.now (plain_at scenes strip)
        table.now) (turn_names mixer)) left.old }
    ensures right_after { right.new ≡ named_mask (λ strip. plain_mask side.right
        manual_mask_db.now (plain_at scenes strip) table.now)
        (turn_names mixer) (named_reply (λ strip. plain_reply (length left.old)
        (length right.old) manual_mask_db.now (plain_at scenes strip)
        table.now) (turn_names mixer)) right.old }
{
    crossing_mixers::serve(left, right, manual_mask_db, scenes, table, mixer)
}
