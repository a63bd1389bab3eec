// The plain way: lobes one after the other. What a lobe opens is computed once, and joined to each
// side with that side's gain. The second side of a mono mask has bin 0 only, which no lobe reaches.
ghost use Rattle.std.specs.Prelude.{◌≡◌, take};
ghost use Rattle.lists.specs.Maps.{map_at};
ghost use Rattle.lobes.specs.Distance.{logs_of};
ghost use Rattle.lobe_joins.specs.Joined.{lobe_joined, lobes_joined};
ghost use Rattle.lobe_rows.specs.Premises.{Scratch, LobeKnown, LobesKnown};

use crate::Gains;
use crate::chunk::openings;
use gaussian::GaussianTable;
use limits::lengths::MAX_PARTIALS;
use lobe_joins::join;
use lobes::{Grid, Lobe};
use power::table::PowerTable;

// Joins a lobe to both sides, as many bins at a time as the chunk has room for.
fn raise_lobe(
    first: &mut [f32],
    second: &mut [f32],
    chunk: &mut [f32],
    indexes: &mut [u32],
    powers: &PowerTable,
    gaussians: &GaussianTable,
    table: Option<&[f32]>,
    grid: Grid,
    lobe: Lobe,
    gains: Gains,
)
    requires { (Scratch chunk.old indexes.old)
        × (LobeKnown (logs_of table) lobe) }
    ensures { (first.new ≡ map_at (λ bin held. lobe_joined grid
        (logs_of table.entry) gains.first bin held lobe) first.old)
        × (second.new ≡ map_at (λ bin held. lobe_joined grid
        (logs_of table.entry) gains.second bin held lobe)
        second.old) }
{
    let end = lobe.last_bin + 1;
    let room = chunk.len();
    for start in (lobe.first_bin..end).step_by(room) {
        let count = (end - start).min(room);
        let next = start + count;
        openings(
            chunk, indexes, powers, gaussians, table, grid, lobe, start, count,
        );
        join(first, chunk, gains.first, start, next);
        join(second, chunk, gains.second, start, next);
    }
}

// Joins the first `count` lobes to both sides.
pub fn raise_lobes(
    first: &mut [f32],
    second: &mut [f32],
    chunk: &mut [f32],
    indexes: &mut [u32],
    powers: &PowerTable,
    gaussians: &GaussianTable,
    table: Option<&[f32]>,
    grid: Grid,
    lobes: [Lobe; MAX_PARTIALS],
    count: usize,
    gains: Gains,
)
    requires { (Scratch chunk.old indexes.old)
        × (LobesKnown grid (logs_of table) lobes count) }
    ensures { (first.new ≡ map_at
        (lobes_joined grid (logs_of table.entry) gains.first (take count lobes))
        first.old)
        × (second.new ≡ map_at
        (lobes_joined grid (logs_of table.entry) gains.second (take count lobes))
        second.old) }
{
    for p in 0..count {
        let lobe = lobes[p];
        raise_lobe(
            first, second, chunk, indexes, powers, gaussians, table, grid, lobe, gains,
        );
    }
}
