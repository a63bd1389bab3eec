// A mixer of sixteen strips that share one mask builder: the strips that wait for it, in the order
// in which they asked, and the open calls that file a request and take a turn. What is built is not
// known here.
#![tactic(auto)]

ghost use Rattle.std.specs.Prelude.{◌≡◌, ◌<◌};
ghost use Rattle.lists.specs.Closing.{closed};
ghost use Rattle.answer.specs.Reply.{of_outcome};
ghost use Rattle.mixer.specs.Mixers.{strip_count, fresh, request_reply, with_request, mixer_asked};
ghost use Rattle.mixer.specs.Mixers.{turn_names, mixer_turned};

use answer::{Outcome, Reason};

pub const STRIPS: usize = 16;

// It has C's layout, so that a caller in C can hold one: hence the array with a count beside it.
#[repr(C)]
#[derive(Clone, Copy)]
pub struct Mixer {
    // The strips that wait, the one that has waited longest first. What stands from `count` on does
    // not count.
    pub strips: [usize; STRIPS],
    pub count: usize,
    // How many turns found someone waiting. At its highest value it stays.
    pub served: u64,
}

pub fn new_mixer() -> Mixer
    ensures { result ≡ fresh }
{
    Mixer {
        strips: [0usize; STRIPS],
        count: 0,
        served: 0,
    }
}

// A strip from 0 to 15 comes after those that wait. One that waits already waits once.
fn with_request(mixer: &mut Mixer, strip: usize)
    ensures { mixer.new ≡ with_request mixer.old strip }
{
    let count = mixer.count.min(STRIPS);
    if mixer.strips[..count].contains(&strip) {
        return;
    }
    // No call makes such a mixer: where sixteen wait, each of the strips does.
    if STRIPS <= count {
        return;
    }
    mixer.strips[count] = strip;
    mixer.count = count + 1;
}

// A strip asks for a turn.
pub fn request(mixer: &mut Mixer, strip: usize) -> Outcome
    ensures outcome_value { of_outcome result ≡ request_reply strip }
    ensures mixer_value { mixer.new ≡ mixer_asked mixer.old strip }
{
    if STRIPS <= strip {
        return Err(Reason::Strip.into());
    }
    with_request(mixer, strip);
    Ok(())
}

// Each strip after the first, up to the last, moves into the place before it. std's `copy_within`
// does the same, but by memmove, a name that the static library for C would then need from outside.
fn moved_up(strips: [usize; STRIPS], last: usize) -> [usize; STRIPS]
    requires { last < strip_count }
    ensures { result ≡ closed 0 0 last strips }
{
    let mut moved = strips;
    for i in 0..last {
        moved[i] = strips[i + 1];
    }
    moved
}

// Names the strip that has waited longest, and takes it off.
pub fn turn(mixer: &mut Mixer) -> Option<usize>
    ensures named_value { result ≡ turn_names mixer.old }
    ensures mixer_value { mixer.new ≡ mixer_turned mixer.old }
{
    let count = mixer.count.min(STRIPS);
    if count == 0 {
        return None;
    }
    let longest = mixer.strips[0];
    mixer.strips = moved_up(mixer.strips, count - 1);
    mixer.count = count - 1;
    mixer.served = mixer.served.saturating_add(1);
    Some(longest)
}
