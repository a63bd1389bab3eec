// What all partials of a voice share, and from it a partial's frequency and gain.
ghost use Rattle.std.specs.Prelude.{◌≡◌, ◌^◌, ◌≤◌};
ghost use Rattle.power.specs.Table.{power_table};
ghost use Rattle.limits.specs.Lengths.{max_partials};
ghost use Rattle.lobes.specs.Tone.{pressure_gain, note_level, timbre_rolloff, pitch_hertz};
ghost use Rattle.lobes.specs.Tone.{fundamental_of, tone_of, center_of, partial_octaves};
ghost use Rattle.lobes.specs.Tone.{harmonic_gain};

use crate::grids::HALF;
use crate::octaves::PartialOctaves;
use crate::{Grid, Tone};
use float32::order::{clamp, max};
use power::table::PowerTable;
use scene::{MaskVoice, Pitch};

// Pressure raises the level's gain from 0.35 to 1.
const LEAST_PRESSURE_GAIN: f32 = 0.35;

const PRESSURE_GAIN_RANGE: f32 = 0.65;

// The range of the timbre's tilt, darkest to brightest, in decibels per octave.
const TIMBRE_RANGE_DB: f32 = 24.0;

const MAX_ROLLOFF_DB: f32 = 48.0;

fn pressure_gain(pressure: f32) -> f32
    ensures { result ≡ pressure_gain pressure }
{
    LEAST_PRESSURE_GAIN + PRESSURE_GAIN_RANGE * clamp(pressure, 0.0, 1.0)
}

fn note_level(voice: MaskVoice) -> f32
    ensures { result ≡ note_level voice }
{
    voice.level * max(voice.volume_gain, 0.0) * pressure_gain(voice.pressure)
}

// Harmonic tilt: timbre 0.5 keeps the configured rolloff; lower values raise it and darken the
// partials, higher values lower it and brighten them.
fn timbre_rolloff(rolloff: f32, timbre: f32) -> f32
    ensures { result ≡ timbre_rolloff rolloff timbre }
{
    let bend = (HALF - clamp(timbre, 0.0, 1.0)) * TIMBRE_RANGE_DB;
    clamp(rolloff + bend, 0.0, MAX_ROLLOFF_DB)
}

fn pitch_hertz(pitch: Pitch) -> f32
    ensures { result ≡ pitch_hertz pitch }
{
    match pitch {
        Pitch::Note(note, tuning) => pitch::note_hertz(note, tuning),
        Pitch::Hertz(hertz) => hertz,
    }
}

fn fundamental_of(voice: MaskVoice) -> f32
    ensures { result ≡ fundamental_of voice }
{
    let pitch = voice.pitch;
    pitch_hertz(pitch)
}

pub fn tone_of(grid: Grid, voice: MaskVoice) -> Tone
    ensures { result ≡ tone_of grid voice }
{
    let fundamental = fundamental_of(voice);
    let level = note_level(voice);
    let rolloff = timbre_rolloff(grid.rolloff, voice.timbre);
    Tone {
        fundamental,
        level,
        rolloff,
    }
}

pub fn center_of(tone: Tone, partial: usize) -> f32
    requires { partial ≤ 2 ^ 24 }
    ensures { result ≡ center_of tone partial }
{
    tone.fundamental * partial as f32
}

pub fn harmonic_gain(
    powers: &PowerTable,
    octaves: &PartialOctaves,
    rolloff: f32,
    partial: usize,
) -> f32
    requires { partial ≤ max_partials }
    ensures { result ≡ harmonic_gain rolloff partial }
{
    decibels::gain(powers, -rolloff * octaves.entries[partial])
}
