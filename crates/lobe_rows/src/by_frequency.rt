// What a lobe opens at consecutive bins, computed from the bins' frequencies, for the calls without
// a table.
//
// Method. As with a table, several short loops over the same chunk: the ratios of the bins'
// frequencies to the lobe's centre, their octaves, the exponents of the bells, the bells, and the
// openings.
ghost use Rattle.std.specs.Prelude.{◌≡◌, ◌+◌, ◌^◌, ◌≤◌, length};
ghost use Rattle.std.specs.Float.{binary32};
ghost use Rattle.std.specs.Float.Ieee.{mul};
ghost use Rattle.lists.specs.Maps.{map_range};
ghost use Rattle.power.specs.Table.{power_table};
ghost use Rattle.lobes.specs.Distance.{none, minus_half, in_widths};
ghost use Rattle.lobes.specs.Lobe.{opening};
ghost use Rattle.lobe_rows.specs.Stages.{relative_to};

use crate::chunk::{openings_of_bells, relative_square};
use frequencies::rows::ratios;
use lobes::distances::in_widths;
use lobes::{Grid, Lobe};
use power::table::PowerTable;
use power_rows::exp2::exp_row;
use power_rows::log2::log2_row;

const MINUS_HALF: f32 = -0.5;

// A bell is e to the power of minus half the relative square.
fn exponents(chunk: &mut [f32], count: usize, width: f32, peak_squared: f32)
    requires { count ≤ length chunk.old }
    ensures { chunk.new ≡ map_range
        (λ k octaves. mul binary32 minus_half (relative_to peak_squared (in_widths width octaves)))
        0 count chunk.old }
{
    for k in 0..count {
        chunk[k] = MINUS_HALF * relative_square(peak_squared, in_widths(width, chunk[k]));
    }
}

pub fn openings_by_frequency(
    chunk: &mut [f32],
    powers: &PowerTable,
    grid: Grid,
    lobe: Lobe,
    start: usize,
    count: usize,
)
    requires { (count ≤ length chunk.old) × (start + count ≤ 2 ^ 24 + 1) }
    ensures { chunk.new
        ≡ map_range (λ k held. opening grid none lobe (start + k)) 0 count chunk.old }
{
    ratios(chunk, grid.bin_hz, lobe.center, start, count);
    log2_row(chunk, powers, count);
    exponents(chunk, count, grid.width, lobe.peak_squared);
    exp_row(chunk, powers, count);
    openings_of_bells(chunk, count, lobe.strength);
}
