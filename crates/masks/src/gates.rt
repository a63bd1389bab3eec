// The gate of the note layer.
ghost use Rattle.std.specs.Prelude.{◌≡◌};
ghost use Rattle.masks.specs.Gates.{width_position, emphasis_gain, floor_gain, gate_gain};
ghost use Rattle.masks.specs.Gates.{limited_gate_gain};

use decibels::single_gain;
use float32::order::{clamp, max};
use float32::powers::smoothstep;
use single_power::log2;

// The lift is 6 dB up to 100 cents and falls to 0 dB at 12 times that width, 1,200 cents.
pub const NARROW_CENTS: f32 = 100.0;

pub const WIDE_RATIO: f32 = 12.0;

pub const EMPHASIS_DECIBELS: f32 = 6.0;

// A width's position between narrow (0) and wide (1), on a logarithmic scale.
fn width_position(width: f32) -> f32
    ensures { result ≡ width_position width }
{
    if width <= NARROW_CENTS {
        return 0.0;
    }
    let octaves = log2(width / NARROW_CENTS);
    clamp(octaves / log2(WIDE_RATIO), 0.0, 1.0)
}

// Automatic gain applied only to the note-opened component. Narrow skirts receive up to +6 dB even
// at zero Note Depth, making notes additive before the control begins attenuating the surrounding
// spectrum. Wide skirts need less compensation, so the lift tapers smoothly above 100 cents and
// reaches unity at 1,200 cents.
pub fn emphasis(width: f32) -> f32
    ensures { result ≡ emphasis_gain width }
{
    let narrowness = 1.0 - smoothstep(width_position(width));
    single_gain(EMPHASIS_DECIBELS * narrowness)
}

// The gain of a closed region, which follows Note Depth.
pub fn floor_gain(depth: f32) -> f32
    ensures { result ≡ floor_gain depth }
{
    single_gain(-max(depth, 0.0))
}

// The gain at an openness: the floor at 0, the emphasis at 1. The mask builders call this one:
// expression may lift their openness past 1.
pub fn gate_gain(floor: f32, emphasis: f32, openness: f32) -> f32
    ensures { result ≡ gate_gain floor emphasis openness }
{
    floor + (emphasis - floor) * openness
}

// Gain of the complete note layer at one bin. Closed regions follow Note Depth while fully open
// note centres retain their width-compensated lift. The openness is clamped to 0..1.
pub fn gate(depth: f32, width: f32, openness: f32) -> f32
    ensures { result ≡ limited_gate_gain depth width openness }
{
    let floor = floor_gain(depth);
    gate_gain(floor, emphasis(width), clamp(openness, 0.0, 1.0))
}
