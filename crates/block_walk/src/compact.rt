// The partials of a tone raised together, in blocks of 64 bins. In log frequency every lobe of a
// tone has the same width, so at a bin only the lobes near it can have the highest opening: one
// walk over the bins covers all partials, and the others are skipped.
//
// Method. Over a block whose logarithms lie from `low` to `high` no lobe opens more than its bound,
// the bell at the nearer end (`opening-bounded`). The lobe with the greatest bound is joined to a
// row first, then each other lobe whose bound is above the least number of the row. A lobe that is
// skipped is nowhere above the row, so joining it would change nothing. The order in which lobes
// are joined does not matter either: where a maximum takes the second number, it is above 0, so
// equal values have equal bits (`once-before`). A gain that is not negative keeps the order of
// numbers, so the row, which has the most that any lobe opens, is joined once to each side
// (`gain-last`). A block is skipped where the greatest bound, times each side's gain, is not above
// the least that the side holds there. So each bin gets what the plain way gives it, to the bit,
// for every accepted table (`compact-is-plain`).
ghost use Rattle.std.specs.Prelude.{◌≡◌, cond, ◌+◌, ◌*◌, ◌≤◌, take};
ghost use Rattle.lists.specs.Maps.{map_at, map_range};
ghost use Rattle.limits.specs.Lengths.{most_bin};
ghost use Rattle.lobes.specs.Distance.{lent};
ghost use Rattle.lobe_joins.specs.Joined.{lobes_joined};
ghost use Rattle.block_rows.specs.Premises.{LobesReady, SidesGained, BlockBounded};
ghost use Rattle.block_walk.specs.Compact.{Ready};
ghost use Rattle.block_walk.specs.Premises.{Spanned, SpannedColumns};

use crate::columns::{Span, bins_between, block_of, columns_of, span_of};
use block_rows::raise_partials;
use block_rows::rises::nothing_rises;
use blocks::BLOCK;
use gaussian::GaussianTable;
use limits::lengths::MAX_PARTIALS;
use lobe_bounds::{bounds_of, greatest_at};
use lobe_joins::join;
use lobe_rows::Gains;
use lobes::{Grid, Lobe};

// Raises the bins from `start` up to but not including `end`, given the lobes' bounds over them.
fn raise_block(
    first: &mut [f32],
    second: &mut [f32],
    chunk: &mut [f32],
    indexes: &mut [u32],
    gaussians: &GaussianTable,
    table: &[f32],
    bounds: &[f32],
    grid: Grid,
    lobes: [Lobe; MAX_PARTIALS],
    count: usize,
    gains: Gains,
    start: usize,
    end: usize,
)
    requires { (LobesReady chunk.old indexes.old grid lobes count)
        × (SidesGained first.old second.old gains)
        × (BlockBounded grid table.now bounds.now lobes count start end) }
    ensures { (first.new ≡ map_range
        (lobes_joined grid (lent table.now) gains.first (take count lobes)) start end
        first.old)
        × (second.new ≡ map_range
        (lobes_joined grid (lent table.now) gains.second (take count lobes)) start end
        second.old) }
{
    let top = greatest_at(bounds, count);
    if nothing_rises(first, second, chunk, bounds[top], gains, start) {
        return;
    }
    let mut row = [0.0f32; 64];
    raise_partials(
        &mut row, chunk, indexes, gaussians, table, bounds, grid, lobes, count, top, start, end,
    );
    join(first, &row, gains.first, start, end);
    join(second, &row, gains.second, start, end);
}

// Raises every block that has a bin of the span.
fn raise_blocks(
    first: &mut [f32],
    second: &mut [f32],
    chunk: &mut [f32],
    indexes: &mut [u32],
    gaussians: &GaussianTable,
    table: &[f32],
    lows: &[f32],
    highs: &[f32],
    centers: &[f32],
    strengths: &[f32],
    peaks: &[f32],
    grid: Grid,
    lobes: [Lobe; MAX_PARTIALS],
    count: usize,
    gains: Gains,
    span: Span,
)
    requires { (LobesReady chunk.old indexes.old grid lobes count)
        × (SidesGained first.old second.old gains)
        × (SpannedColumns grid table.now lows.now highs.now centers.now strengths.now
        peaks.now lobes count span) }
    ensures { (first.new ≡ map_at
        (lobes_joined grid (lent table.now) gains.first (take count lobes))
        first.old)
        × (second.new ≡ map_at
        (lobes_joined grid (lent table.now) gains.second (take count lobes))
        second.old) }
{
    let mut bounds = [0.0f32; MAX_PARTIALS];
    let reached = span.last_bin.div_ceil(BLOCK);
    for block in block_of(span.first_bin.min(span.last_bin))..reached {
        let start = 1 + block * BLOCK;
        let end = (start + BLOCK).min(table.len());
        bounds_of(
            &mut bounds,
            gaussians,
            centers,
            strengths,
            peaks,
            grid.width,
            lows[block],
            highs[block],
            count,
        );
        raise_block(
            first, second, chunk, indexes, gaussians, table, &bounds, grid, lobes, count, gains,
            start, end,
        );
    }
}

// What the walk costs, in bins of the plain way: measured. With many voices it skips most blocks.
fn compact_cost(span: Span, crowded: bool) -> usize
    requires { span.last_bin ≤ most_bin }
    ensures { result ≤ 6 * (most_bin + 1) + 512 }
{
    let bins = bins_between(span.first_bin, span.last_bin);
    if crowded {
        return 3 * bins + 512;
    }
    6 * bins + 512
}

// Raises the lobes over their span.
fn walk(
    first: &mut [f32],
    second: &mut [f32],
    chunk: &mut [f32],
    indexes: &mut [u32],
    gaussians: &GaussianTable,
    table: &[f32],
    lows: &[f32],
    highs: &[f32],
    grid: Grid,
    lobes: [Lobe; MAX_PARTIALS],
    count: usize,
    gains: Gains,
    span: Span,
)
    requires { (LobesReady chunk.old indexes.old grid lobes count)
        × (SidesGained first.old second.old gains)
        × (Spanned grid table.now lows.now highs.now lobes count span) }
    ensures { (first.new ≡ map_at
        (lobes_joined grid (lent table.now) gains.first (take count lobes))
        first.old)
        × (second.new ≡ map_at
        (lobes_joined grid (lent table.now) gains.second (take count lobes))
        second.old) }
{
    let mut centers = [0.0f32; MAX_PARTIALS];
    let mut strengths = [0.0f32; MAX_PARTIALS];
    let mut peaks = [0.0f32; MAX_PARTIALS];
    columns_of(&mut centers, &mut strengths, &mut peaks, lobes, count);
    raise_blocks(
        first, second, chunk, indexes, gaussians, table, lows, highs, &centers, &strengths, &peaks,
        grid, lobes, count, gains, span,
    );
}

// Raises the partials of a tone together, if there are at least two and that costs less than
// raising one after the other. Answers whether it did.
pub fn rasterize_compact_harmonic_envelope(
    first: &mut [f32],
    second: &mut [f32],
    chunk: &mut [f32],
    indexes: &mut [u32],
    gaussians: &GaussianTable,
    table: &[f32],
    lows: &[f32],
    highs: &[f32],
    grid: Grid,
    lobes: [Lobe; MAX_PARTIALS],
    count: usize,
    gains: Gains,
    crowded: bool,
) -> bool
    requires { (LobesReady chunk.old indexes.old grid lobes count)
        × (SidesGained first.old second.old gains)
        × (Ready grid table.now lows.now highs.now) }
    ensures { (first.new ≡ cond result (map_at
        (lobes_joined grid (lent table.now) gains.first (take count lobes))
        first.old) first.old)
        × (second.new ≡ cond result (map_at
        (lobes_joined grid (lent table.now) gains.second (take count lobes))
        second.old) second.old) }
{
    if count < 2 {
        return false;
    }
    let span = span_of(lobes, count, grid.last_bin);
    if 2 * span.plain_cost <= compact_cost(span, crowded) {
        return false;
    }
    walk(
        first, second, chunk, indexes, gaussians, table, lows, highs, grid, lobes, count, gains,
        span,
    );
    true
}
