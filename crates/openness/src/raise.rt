// A tone raised on both sides, in one of two ways that write the same numbers: its lobes together,
// block by block, or one after the other.
ghost use Rattle.std.specs.Prelude.{◌≡◌, cond, take};
ghost use Rattle.lists.specs.Maps.{map_at};
ghost use Rattle.lobes.specs.Distance.{logs_of};
ghost use Rattle.lobe_joins.specs.Joined.{lobes_joined};
ghost use Rattle.openness.specs.Openness.{tone_joined};
ghost use Rattle.openness.specs.Raising.{RaiseTogether, RaiseTone};

use crate::Way;
use block_walk::compact::rasterize_compact_harmonic_envelope;
use gaussian::GaussianTable;
use limits::lengths::MAX_PARTIALS;
use lobe_rows::Gains;
use lobe_rows::plain::raise_lobes;
use lobes::octaves::PartialOctaves;
use lobes::{Lobe, Tone};
use power::table::PowerTable;
use tone_lobes::{lobes_of, partials_of};

// Raises the lobes together, if that is allowed and costs less. Answers whether it did.
fn raised_together(
    first: &mut [f32],
    second: &mut [f32],
    chunk: &mut [f32],
    indexes: &mut [u32],
    gaussians: &GaussianTable,
    way: Way,
    table: Option<&[f32]>,
    lows: &[f32],
    highs: &[f32],
    lobes: [Lobe; MAX_PARTIALS],
    count: usize,
    gains: Gains,
) -> bool
    requires { RaiseTogether first.old second.old chunk.old indexes.old
        way (logs_of table) lows.now highs.now lobes count gains }
    ensures { (first.new ≡ cond result (map_at
        (lobes_joined way.grid (logs_of table.entry) gains.first (take count lobes))
        first.old) first.old)
        × (second.new ≡ cond result (map_at
        (lobes_joined way.grid (logs_of table.entry) gains.second (take count lobes))
        second.old) second.old) }
{
    match table {
        Some(table) if way.compact => rasterize_compact_harmonic_envelope(
            first,
            second,
            chunk,
            indexes,
            gaussians,
            table,
            lows,
            highs,
            way.grid,
            lobes,
            count,
            gains,
            way.crowded,
        ),
        _ => false,
    }
}

// Raises the partials of a tone, up to the first above Nyquist.
pub fn raise_tone(
    first: &mut [f32],
    second: &mut [f32],
    chunk: &mut [f32],
    indexes: &mut [u32],
    powers: &PowerTable,
    octaves: &PartialOctaves,
    gaussians: &GaussianTable,
    way: Way,
    table: Option<&[f32]>,
    lows: &[f32],
    highs: &[f32],
    tone: Tone,
    gains: Gains,
)
    requires { RaiseTone first.old second.old chunk.old indexes.old
        way (logs_of table) lows.now highs.now tone gains }
    ensures { (first.new ≡ map_at
        (tone_joined way.grid (logs_of table.entry) gains.first tone)
        first.old)
        × (second.new ≡ map_at
        (tone_joined way.grid (logs_of table.entry) gains.second tone)
        second.old) }
{
    let grid = way.grid;
    let count = partials_of(grid, tone);
    let lobes = lobes_of(powers, octaves, table, grid, tone, count);
    if raised_together(
        first, second, chunk, indexes, gaussians, way, table, lows, highs, lobes, count, gains,
    ) {
        return;
    }
    raise_lobes(
        first, second, chunk, indexes, powers, gaussians, table, grid, lobes, count, gains,
    );
}
