// What a lobe opens at consecutive bins, as many as the lent chunk has room for.
//
// Method. Several short loops over the same chunk: the bins' positions in the Gaussian table, the
// table entry and the fraction of each, the bells by linear interpolation, and the openings. The
// loops without a table lookup run on several bins at once, and the openings are computed once for
// both sides of a stereo mask.
ghost use Rattle.std.specs.Prelude.{◌≡◌, ℕ, ◌+◌, ◌≤◌, ◌<◌, length, get_or};
ghost use Rattle.std.specs.Float.{nan, binary32};
ghost use Rattle.std.specs.Float.Ieee.{sub};
ghost use Rattle.lists.specs.Maps.{map_range};
ghost use Rattle.gaussian.specs.Table.{gaussian_table};
ghost use Rattle.gaussian.specs.Bell.{Place, index_of, part_of, line, between};
ghost use Rattle.lobes.specs.Distance.{lent, logs_of, in_widths};
ghost use Rattle.lobes.specs.Lobe.{opening};
ghost use Rattle.lobe_rows.specs.Stages.{relative_to, place_of, opened_by};
ghost use Rattle.lobe_rows.specs.Premises.{Room, ByTable, BinsKnown};

use crate::by_frequency::openings_by_frequency;
use gaussian::{GaussianTable, step_of};
use lobes::distances::distance_by_table;
use lobes::{Grid, Lobe};
use power::table::PowerTable;

// The square of a distance in widths, relative to that of the peak bin. The centre of a lobe almost
// always falls between two bins. Measured from the bin closest to it, where the bell is then 1, an
// otherwise identical note does not get weaker by its place between the bins.
pub(crate) fn relative_square(peak_squared: f32, distance: f32) -> f32
    ensures { result ≡ relative_to peak_squared distance }
{
    float32::order::max(float32::powers::powi2(distance) - peak_squared, 0.0)
}

// The position of a distance in the Gaussian table.
fn place_of(peak_squared: f32, distance: f32) -> f32
    ensures { result ≡ place_of peak_squared distance }
{
    gaussian::position(relative_square(peak_squared, distance))
}

// What a lobe of a strength opens where its bell has a height.
fn opened_by(strength: f32, bell: f32) -> f32
    ensures { result ≡ opened_by strength bell }
{
    float32::order::clamp(strength * bell, 0.0, 1.0)
}

// The positions in the Gaussian table of the bins from `start` on.
fn places(
    chunk: &mut [f32],
    table: &[f32],
    start: usize,
    count: usize,
    center_log2: f32,
    width: f32,
    peak_squared: f32,
)
    requires { (count ≤ length chunk.old) × (start + count ≤ length table.now) }
    ensures { chunk.new ≡ map_range (λ k held. place_of peak_squared
        (in_widths width (sub binary32 (get_or table.now (start + k) nan) center_log2))) 0
        count chunk.old }
{
    for k in 0..count {
        chunk[k] = place_of(
            peak_squared,
            distance_by_table(table, width, center_log2, start + k),
        );
    }
}

// Splits each position into the index of the table entry below it and the fraction past that entry,
// which replaces the position in the chunk.
fn steps(chunk: &mut [f32], indexes: &mut [u32], count: usize)
    requires { (Room chunk.old indexes.old count)
        × ((k : ℕ) → k < count → Place (get_or chunk.old k nan)) }
    ensures { (chunk.new
        ≡ map_range (λ k place. part_of place) 0 count chunk.old)
        × (indexes.new ≡ map_range (λ k held. index_of (get_or chunk.old k nan)) 0
        count indexes.old) }
{
    for k in 0..count {
        let step = step_of(chunk[k]);
        chunk[k] = step.part;
        indexes[k] = step.index;
    }
}

// The bells: linear interpolation between two entries of the table.
fn lines(chunk: &mut [f32], indexes: &[u32], gaussians: &GaussianTable, count: usize)
    requires { (Room chunk.old indexes.now count)
        × ((k : ℕ) → k < count → get_or indexes.now k 0 ≤ 1024) }
    ensures { chunk.new ≡ map_range
        (λ k part. line (get_or indexes.now k 0) part) 0 count chunk.old }
{
    for k in 0..count {
        chunk[k] = gaussian::line(gaussians, indexes[k], chunk[k]);
    }
}

// The bells at the bins from `start` on: what a lobe of strength 1 opens there.
pub fn bells(
    chunk: &mut [f32],
    indexes: &mut [u32],
    gaussians: &GaussianTable,
    table: &[f32],
    start: usize,
    count: usize,
    center_log2: f32,
    width: f32,
    peak_squared: f32,
)
    requires { (Room chunk.old indexes.old count) × (start + count ≤ length table.now) }
    ensures { chunk.new ≡ map_range (λ k held. between (place_of peak_squared
        (in_widths width (sub binary32 (get_or table.now (start + k) nan) center_log2))))
        0 count chunk.old }
{
    places(chunk, table, start, count, center_log2, width, peak_squared);
    steps(chunk, indexes, count);
    lines(chunk, indexes, gaussians, count);
}

// What a lobe of a strength opens, in place of each bell.
pub(crate) fn openings_of_bells(chunk: &mut [f32], count: usize, strength: f32)
    requires { count ≤ length chunk.old }
    ensures { chunk.new
        ≡ map_range (λ k bell. opened_by strength bell) 0 count chunk.old }
{
    for k in 0..count {
        chunk[k] = opened_by(strength, chunk[k]);
    }
}

// What the lobe opens at the bins from `start` on, by the table.
pub fn openings_by_table(
    chunk: &mut [f32],
    indexes: &mut [u32],
    gaussians: &GaussianTable,
    table: &[f32],
    grid: Grid,
    lobe: Lobe,
    start: usize,
    count: usize,
)
    requires { (Room chunk.old indexes.old count) × (ByTable table.now lobe start count) }
    ensures { chunk.new ≡ map_range
        (λ k held. opening grid (lent table.now) lobe (start + k)) 0 count
        chunk.old }
{
    bells(
        chunk,
        indexes,
        gaussians,
        table,
        start,
        count,
        lobe.center_log2,
        grid.width,
        lobe.peak_squared,
    );
    openings_of_bells(chunk, count, lobe.strength);
}

// What the lobe opens at the bins from `start` on, by the table if one is lent.
pub fn openings(
    chunk: &mut [f32],
    indexes: &mut [u32],
    powers: &PowerTable,
    gaussians: &GaussianTable,
    table: Option<&[f32]>,
    grid: Grid,
    lobe: Lobe,
    start: usize,
    count: usize,
)
    requires { (Room chunk.old indexes.old count)
        × (BinsKnown (logs_of table) lobe start count) }
    ensures { chunk.new ≡ map_range
        (λ k held. opening grid (logs_of table.entry) lobe (start + k)) 0 count
        chunk.old }
{
    match table {
        Some(table) => {
            openings_by_table(chunk, indexes, gaussians, table, grid, lobe, start, count);
        }
        None => openings_by_frequency(chunk, powers, grid, lobe, start, count),
    }
}
