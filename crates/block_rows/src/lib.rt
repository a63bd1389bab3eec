// The most that any lobe of a tone opens at each bin of a block. The lobes are joined in a row of
// 64; one that cannot raise any bin of the row is skipped. The chunk holds the openings of one lobe
// until they are joined, and is then scratch space for the search of the row's least number.
#![tactic(auto)]

ghost use Rattle.std.specs.Prelude.{◌≡◌, ◌+◌, ◌-◌, length, take};
ghost use Rattle.lists.specs.Maps.{map_range};
ghost use Rattle.float32.specs.Remainder.{one};
ghost use Rattle.blocks.specs.Least.{Least};
ghost use Rattle.lobes.specs.Distance.{lent};
ghost use Rattle.lobe_joins.specs.Joined.{lobe_joined};
ghost use Rattle.block_rows.specs.Most.{HasMost};
ghost use Rattle.block_rows.specs.Premises.{LobeReady, LobesReady, Block, BlockBounded};
ghost use Rattle.block_rows.specs.Premises.{RowFrom, RowSoFar};

use blocks::least_from;
use gaussian::GaussianTable;
use limits::lengths::MAX_PARTIALS;
use lobe_joins::join;
use lobe_rows::chunk::openings_by_table;
use lobes::{Grid, Lobe};

pub mod rises;

// The row holds openings without a gain: the sides' gains are applied when the row is joined to
// them.
const UNITY: f32 = 1.0;

// Joins a lobe to the row of the bins from `start` up to but not including `end`.
fn raise_in_row(
    row: &mut [f32],
    chunk: &mut [f32],
    indexes: &mut [u32],
    gaussians: &GaussianTable,
    table: &[f32],
    grid: Grid,
    lobe: Lobe,
    start: usize,
    end: usize,
)
    requires { (LobeReady chunk.old indexes.old grid lobe)
        × (Block grid table.now start end)
        × (length row.old ≡ 64) }
    ensures { row.new ≡ map_range
        (λ k held. lobe_joined grid (lent table.now) one (start + k) held lobe) 0
        (end - start) row.old }
{
    let from = lobe.first_bin.max(start);
    let to = (lobe.last_bin + 1).min(end);
    if from < to {
        openings_by_table(
            chunk,
            indexes,
            gaussians,
            table,
            grid,
            lobe,
            from,
            to - from,
        );
        join(row, chunk, UNITY, from - start, to - start);
    }
}

// Joins a lobe to the row, unless it is there already or its bound is not above the row's least
// number. Answers a number that is not above any of the row.
fn raise_above(
    row: &mut [f32],
    chunk: &mut [f32],
    indexes: &mut [u32],
    gaussians: &GaussianTable,
    table: &[f32],
    grid: Grid,
    lobe: Lobe,
    there: bool,
    bound: f32,
    least: f32,
    start: usize,
    end: usize,
) -> f32
    requires { (LobeReady chunk.old indexes.old grid lobe)
        × (Block grid table.now start end)
        × (RowSoFar grid table.now row.old lobe there bound least start end) }
    ensures { (row.new ≡ map_range
        (λ k held. lobe_joined grid (lent table.now) one (start + k) held lobe) 0
        (end - start) row.old)
        × (Least result 0 64 row.new) }
{
    if there {
        return least;
    }
    if bound <= least {
        return least;
    }
    raise_in_row(
        row, chunk, indexes, gaussians, table, grid, lobe, start, end,
    );
    least_from(chunk, row, 0)
}

// The most that any of the lobes opens at each bin from `start` up to but not including `end`. The
// lobe with the greatest bound, at `top`, comes first: the higher the row, the more lobes are
// skipped.
pub fn raise_partials(
    row: &mut [f32],
    chunk: &mut [f32],
    indexes: &mut [u32],
    gaussians: &GaussianTable,
    table: &[f32],
    bounds: &[f32],
    grid: Grid,
    lobes: [Lobe; MAX_PARTIALS],
    count: usize,
    top: usize,
    start: usize,
    end: usize,
)
    requires { (LobesReady chunk.old indexes.old grid lobes count)
        × (BlockBounded grid table.now bounds.now lobes count start end)
        × (RowFrom row.old top count) }
    ensures { HasMost grid table.now (take count lobes) start end
        row.new }
{
    row.fill(0.0);
    let first = lobes[top];
    raise_in_row(
        row, chunk, indexes, gaussians, table, grid, first, start, end,
    );
    let mut least = least_from(chunk, row, 0);
    for p in 0..count {
        let lobe = lobes[p];
        least = raise_above(
            row,
            chunk,
            indexes,
            gaussians,
            table,
            grid,
            lobe,
            p == top,
            bounds[p],
            least,
            start,
            end,
        );
    }
}
