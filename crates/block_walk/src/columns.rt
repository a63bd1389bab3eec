// What the walk by blocks needs before it begins: the bins that the lobes of a tone reach, the
// columns for the bounds, and whether the walk can be faster at all.
ghost use Rattle.std.specs.Prelude.{◌≡◌, ℕ, ◌+◌, ◌*◌, ◌≤◌, ◌<◌, get_or};
ghost use Rattle.lists.specs.Maps.{map_range};
ghost use Rattle.limits.specs.Lengths.{max_partials, most_bin};
ghost use Rattle.blocks.specs.Ends.{block_of};
ghost use Rattle.lobe_joins.specs.Joined.{no_lobe};
ghost use Rattle.block_walk.specs.Premises.{ColumnRoom};

use blocks::BLOCK;
use limits::lengths::MAX_PARTIALS;
use lobes::{Grid, Lobe};

// The first and the last bin that any of the lobes reaches, and how many bins the plain way
// computes.
#[derive(Clone, Copy)]
pub struct Span {
    pub first_bin: usize,
    pub last_bin: usize,
    pub plain_cost: usize,
}

// The number of bins from a first to a last one, both included.
pub fn bins_between(first_bin: usize, last_bin: usize) -> usize
    requires { last_bin ≤ most_bin }
    ensures { result ≤ most_bin + 1 }
{
    if first_bin <= last_bin {
        return last_bin + 1 - first_bin;
    }
    0
}

pub fn span_of(lobes: [Lobe; MAX_PARTIALS], count: usize, last_bin: usize) -> Span
    requires { (count ≤ max_partials)
        × (last_bin ≤ most_bin)
        × ((p : ℕ) → p < count → (get_or lobes p no_lobe).last_bin ≤ last_bin) }
    ensures { (result.last_bin ≤ last_bin)
        × (result.plain_cost ≤ max_partials * (most_bin + 1))
        × ((p : ℕ) → p < count →
        (result.first_bin ≤ (get_or lobes p no_lobe).first_bin) ×
        ((get_or lobes p no_lobe).last_bin ≤ result.last_bin)) }
{
    let mut first = last_bin + 1;
    let mut last: usize = 0;
    let mut cost: usize = 0;
    for p in 0..count {
        let lobe = lobes[p];
        first = first.min(lobe.first_bin);
        last = last.max(lobe.last_bin);
        cost += bins_between(lobe.first_bin, lobe.last_bin);
    }
    Span {
        first_bin: first,
        last_bin: last,
        plain_cost: cost,
    }
}

// The lobes' numbers in columns, so that the bounds of all lobes over a block are computed in one
// short loop.
pub fn columns_of(
    centers: &mut [f32],
    strengths: &mut [f32],
    peaks: &mut [f32],
    lobes: [Lobe; MAX_PARTIALS],
    count: usize,
)
    requires { (count ≤ max_partials)
        × (ColumnRoom centers.old strengths.old peaks.old count) }
    ensures { (centers.new
        ≡ map_range (λ p held. (get_or lobes p no_lobe).center_log2) 0 count centers.old)
        × (strengths.new
        ≡ map_range (λ p held. (get_or lobes p no_lobe).strength) 0 count strengths.old)
        × (peaks.new
        ≡ map_range (λ p held. (get_or lobes p no_lobe).peak_squared) 0 count peaks.old) }
{
    for p in 0..count {
        let lobe = lobes[p];
        centers[p] = lobe.center_log2;
        strengths[p] = lobe.strength;
        peaks[p] = lobe.peak_squared;
    }
}

// The block that a bin is in. Block 0 begins at bin 1, since no lobe reaches bin 0.
pub fn block_of(bin: usize) -> usize
    ensures { result ≡ block_of bin }
{
    if bin == 0 {
        return 0;
    }
    (bin - 1) / BLOCK
}

// Whether the walk can be faster than the plain way on a grid: it is where the lobes overlap
// enough, that is where twice the sum of their lengths is above three times what they span. In
// units of the fundamental, partial n reaches from n times the lower ratio to n times the upper
// one.
pub fn block_walk_pays(grid: Grid) -> bool {
    if grid.partials < 3 || grid.partials > MAX_PARTIALS {
        return false;
    }
    let partials = grid.partials as f32;
    let lengths = partials * (partials + 1.0) * (grid.upper_ratio - grid.lower_ratio);
    3.0 * (partials * grid.upper_ratio - grid.lower_ratio) < lengths
}
