// The gain of a voice's note-opened component, in mono or on one side: expression times pan
// balance.
ghost use Rattle.std.specs.Prelude.{◌≡◌};
ghost use Rattle.sine.specs.Table.{sine_table};
ghost use Rattle.lobes.specs.Pan.{balance, pan_of, expression_of, channel_gain};

use float32::constants::{FRAC_PI_4, SQRT_2};
use float32::order::{clamp, is_finite};
use scene::MaskVoice;
use sine::table::SineTable;

const HARD_LEFT: f32 = -1.0;

const HARD_RIGHT: f32 = 1.0;

const MAX_EXPRESSION_GAIN: f32 = 4.0;

// The balance at the center, and of a mono mask.
const UNITY: f32 = 1.0;

// Which mask is built: mono, or one side of a stereo pair.
#[derive(Clone, Copy, Debug, PartialEq, Eq)]
pub enum Side {
    Mono,
    Left,
    Right,
}

pub fn pan_of(voice: MaskVoice) -> f32
    ensures { result ≡ pan_of voice }
{
    let pan = voice.pan;
    if is_finite(pan) {
        return clamp(pan, HARD_LEFT, HARD_RIGHT);
    }
    0.0
}

fn expression_of(voice: MaskVoice) -> f32
    ensures { result ≡ expression_of voice }
{
    let expression = voice.expression_gain;
    if is_finite(expression) {
        return clamp(expression, 0.0, MAX_EXPRESSION_GAIN);
    }
    1.0
}

// Constant-power pan law with unity at center. The center and the silent far side are exact.
fn balance(sines: &SineTable, side: Side, pan: f32) -> f32
    ensures { result ≡ balance side pan }
{
    if pan == 0.0 {
        return UNITY;
    }
    let angle = (pan + 1.0) * FRAC_PI_4;
    match side {
        Side::Mono => UNITY,
        Side::Left if pan == HARD_RIGHT => 0.0,
        Side::Left => sine::cos(sines, angle) * SQRT_2,
        Side::Right if pan == HARD_LEFT => 0.0,
        Side::Right => sine::sin(sines, angle) * SQRT_2,
    }
}

pub fn channel_gain(sines: &SineTable, side: Side, voice: MaskVoice) -> f32
    ensures { result ≡ channel_gain side voice }
{
    expression_of(voice) * balance(sines, side, pan_of(voice))
}
