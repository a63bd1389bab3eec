// Document 01's limits, ends included: one test for each, false of NaN. A limit's two ends are
// constants.
#![tactic(auto)]

ghost use Rattle.std.specs.Prelude.{◌≡◌};
ghost use Rattle.limits.specs.Limits.{decibels, frequency, note_depth, width, rolloff};
ghost use Rattle.limits.specs.Limits.{motion_depth, motion_size, elapsed, fade, rate, level};
ghost use Rattle.limits.specs.Limits.{tuning, hertz, table_entry, gain, note, partials};
ghost use Rattle.limits.specs.Limits.{bin, size, overlap};

use float32::order::in_range;

pub mod lengths;
mod slices;

pub use slices::{first_outside, first_pair_outside};

pub const LEAST_DECIBELS: f32 = -700.0;

pub const MOST_DECIBELS: f32 = 700.0;

pub const LEAST_FREQUENCY: f32 = 0.0;

pub const MOST_FREQUENCY: f32 = 192000.0;

pub const LEAST_NOTE_DEPTH: f32 = 0.0;

pub const MOST_NOTE_DEPTH: f32 = 144.0;

pub const LEAST_WIDTH: f32 = 1.0;

pub const MOST_WIDTH: f32 = 1200.0;

pub const LEAST_ROLLOFF: f32 = 0.0;

pub const MOST_ROLLOFF: f32 = 48.0;

pub const LEAST_MOTION_DEPTH: f32 = 0.0;

pub const MOST_MOTION_DEPTH: f32 = 96.0;

pub const LEAST_MOTION_SIZE: f32 = 0.0;

pub const MOST_MOTION_SIZE: f32 = 100.0;

pub const LEAST_ELAPSED: f32 = 0.0;

pub const MOST_ELAPSED: f32 = 10.0;

pub const LEAST_FADE: f32 = 0.0;

pub const MOST_FADE: f32 = 60000.0;

pub const LEAST_RATE: f32 = 8000.0;

pub const MOST_RATE: f32 = 192000.0;

pub const LEAST_LEVEL: f32 = 0.0;

pub const MOST_LEVEL: f32 = 1.0;

pub const LEAST_TUNING: f32 = -48.0;

pub const MOST_TUNING: f32 = 48.0;

pub const LEAST_HERTZ: f32 = 1.0;

pub const MOST_HERTZ: f32 = 20000.0;

pub const LEAST_TABLE_ENTRY: f32 = -2.0;

pub const MOST_TABLE_ENTRY: f32 = 17.0;

pub const LEAST_GAIN: f32 = 0.0;

pub const MOST_GAIN: f32 = 64.0;

pub const LEAST_WINDOW_VALUE: f32 = -16.0;

pub const MOST_WINDOW_VALUE: f32 = 16.0;

pub fn decibels(x: f32) -> bool
    ensures { result ≡ decibels x }
{
    in_range(x, LEAST_DECIBELS, MOST_DECIBELS)
}

pub fn frequency(x: f32) -> bool
    ensures { result ≡ frequency x }
{
    in_range(x, LEAST_FREQUENCY, MOST_FREQUENCY)
}

pub fn note_depth(x: f32) -> bool
    ensures { result ≡ note_depth x }
{
    in_range(x, LEAST_NOTE_DEPTH, MOST_NOTE_DEPTH)
}

pub fn width(x: f32) -> bool
    ensures { result ≡ width x }
{
    in_range(x, LEAST_WIDTH, MOST_WIDTH)
}

pub fn rolloff(x: f32) -> bool
    ensures { result ≡ rolloff x }
{
    in_range(x, LEAST_ROLLOFF, MOST_ROLLOFF)
}

pub fn motion_depth(x: f32) -> bool
    ensures { result ≡ motion_depth x }
{
    in_range(x, LEAST_MOTION_DEPTH, MOST_MOTION_DEPTH)
}

pub fn motion_size(x: f32) -> bool
    ensures { result ≡ motion_size x }
{
    in_range(x, LEAST_MOTION_SIZE, MOST_MOTION_SIZE)
}

pub fn elapsed(x: f32) -> bool
    ensures { result ≡ elapsed x }
{
    in_range(x, LEAST_ELAPSED, MOST_ELAPSED)
}

pub fn fade(x: f32) -> bool
    ensures { result ≡ fade x }
{
    in_range(x, LEAST_FADE, MOST_FADE)
}

pub fn rate(x: f32) -> bool
    ensures { result ≡ rate x }
{
    in_range(x, LEAST_RATE, MOST_RATE)
}

pub fn level(x: f32) -> bool
    ensures { result ≡ level x }
{
    in_range(x, LEAST_LEVEL, MOST_LEVEL)
}

pub fn tuning(x: f32) -> bool
    ensures { result ≡ tuning x }
{
    in_range(x, LEAST_TUNING, MOST_TUNING)
}

// The frequency of a pitch that is given in hertz.
pub fn hertz(x: f32) -> bool
    ensures { result ≡ hertz x }
{
    in_range(x, LEAST_HERTZ, MOST_HERTZ)
}

pub fn table_entry(x: f32) -> bool
    ensures { result ≡ table_entry x }
{
    in_range(x, LEAST_TABLE_ENTRY, MOST_TABLE_ENTRY)
}

pub fn gain(x: f32) -> bool
    ensures { result ≡ gain x }
{
    in_range(x, LEAST_GAIN, MOST_GAIN)
}

pub fn note(n: u8) -> bool
    ensures { result ≡ note n }
{
    n <= lengths::MOST_NOTE
}

pub fn partials(n: usize) -> bool
    ensures { result ≡ partials n }
{
    1 <= n && n <= lengths::MAX_PARTIALS
}

pub fn bin(n: usize) -> bool
    ensures { result ≡ bin n }
{
    n <= lengths::MOST_BIN
}

pub fn size(n: usize) -> bool
    ensures { result ≡ size n }
{
    match n {
        64 | 128 | 256 | 512 | 1024 | 2048 | 4096 | 8192 | 16384 => true,
        _ => false,
    }
}

pub fn overlap(n: usize, length: usize) -> bool
    ensures { result ≡ overlap n length }
{
    1 <= n && n <= lengths::MOST_OVERLAP && length % n == 0
}
