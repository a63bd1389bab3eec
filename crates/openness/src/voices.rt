// The voices in their order.
ghost use Rattle.std.specs.Prelude.{◌≡◌, take};
ghost use Rattle.lists.specs.Folds.{fold};
ghost use Rattle.lists.specs.Maps.{map_at};
ghost use Rattle.sine.specs.Table.{sine_table};
ghost use Rattle.lobes.specs.Pan.{channel_gain};
ghost use Rattle.lobes.specs.Distance.{logs_of};
ghost use Rattle.openness.specs.Sides.{first_side, second_side};
ghost use Rattle.openness.specs.Openness.{voice_joined};
ghost use Rattle.openness.specs.Raising.{RaiseVoice, RaiseVoices};

use crate::Way;
use crate::raise::raise_tone;
use gaussian::GaussianTable;
use limits::lengths::MOST_VOICES;
use lobe_rows::Gains;
use lobes::octaves::PartialOctaves;
use lobes::pan::{Side, channel_gain};
use lobes::tones::tone_of;
use power::table::PowerTable;
use scene::MaskVoice;
use sine::table::SineTable;

// A voice at this level or below does nothing.
pub const SKIPPED_LEVEL: f32 = 0.00001;

// A voice's gain on each side that is raised.
fn gains_of(sines: &SineTable, stereo: bool, voice: MaskVoice) -> Gains
    ensures { (result.first ≡ channel_gain (first_side stereo) voice)
        × (result.second ≡ channel_gain (second_side stereo) voice) }
{
    if stereo {
        return Gains {
            first: channel_gain(sines, Side::Left, voice),
            second: channel_gain(sines, Side::Right, voice),
        };
    }
    let gain = channel_gain(sines, Side::Mono, voice);
    Gains {
        first: gain,
        second: gain,
    }
}

// Raises one voice, or nothing where the voice is skipped.
fn raise_voice(
    first: &mut [f32],
    second: &mut [f32],
    chunk: &mut [f32],
    indexes: &mut [u32],
    powers: &PowerTable,
    octaves: &PartialOctaves,
    sines: &SineTable,
    gaussians: &GaussianTable,
    way: Way,
    table: Option<&[f32]>,
    lows: &[f32],
    highs: &[f32],
    voice: MaskVoice,
)
    requires { RaiseVoice first.old second.old chunk.old indexes.old
        way (logs_of table) lows.now highs.now voice }
    ensures { (first.new ≡ map_at (λ bin held. voice_joined way.grid
        (logs_of table.entry) (channel_gain (first_side way.stereo)) bin held
        voice) first.old)
        × (second.new ≡ map_at (λ bin held. voice_joined way.grid
        (logs_of table.entry) (channel_gain (second_side way.stereo)) bin
        held voice) second.old) }
{
    if voice.level <= SKIPPED_LEVEL {
        return;
    }
    let grid = way.grid;
    let tone = tone_of(grid, voice);
    let gains = gains_of(sines, way.stereo, voice);
    raise_tone(
        first, second, chunk, indexes, powers, octaves, gaussians, way, table, lows, highs, tone,
        gains,
    );
}

// Raises the first `count` voices.
pub fn raise_voices(
    first: &mut [f32],
    second: &mut [f32],
    chunk: &mut [f32],
    indexes: &mut [u32],
    powers: &PowerTable,
    octaves: &PartialOctaves,
    sines: &SineTable,
    gaussians: &GaussianTable,
    way: Way,
    table: Option<&[f32]>,
    lows: &[f32],
    highs: &[f32],
    voices: [MaskVoice; MOST_VOICES],
    count: usize,
)
    requires { RaiseVoices first.old second.old chunk.old indexes.old
        way (logs_of table) lows.now highs.now voices
        count }
    ensures { (first.new ≡ map_at (λ bin held. fold (voice_joined way.grid
        (logs_of table.entry) (channel_gain (first_side way.stereo)) bin)
        held (take count voices)) first.old)
        × (second.new ≡ map_at (λ bin held. fold (voice_joined way.grid
        (logs_of table.entry) (channel_gain (second_side way.stereo)) bin)
        held (take count voices)) second.old) }
{
    for index in 0..count {
        let voice = voices[index];
        raise_voice(
            first, second, chunk, indexes, powers, octaves, sines, gaussians, way, table, lows,
            highs, voice,
        );
    }
}
