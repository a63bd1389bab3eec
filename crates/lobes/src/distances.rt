// A bin's distance from a lobe's centre in widths: the Rust's `normalized`.
ghost use Rattle.std.specs.Prelude.{◌≡◌, ◌^◌, ◌≤◌, ◌<◌, length, get_or};
ghost use Rattle.std.specs.Float.{nan, binary32};
ghost use Rattle.std.specs.Float.Ieee.{sub};
ghost use Rattle.power.specs.Table.{power_table};
ghost use Rattle.lobes.specs.Distance.{none, in_widths, distance};

use crate::Grid;
use crate::grids::CENTS_PER_OCTAVE;
use power::table::PowerTable;

pub fn in_widths(width: f32, octaves: f32) -> f32
    ensures { result ≡ in_widths width octaves }
{
    CENTS_PER_OCTAVE * octaves / width
}

// From the lent table. The centre is given as its logarithm, which is computed once per lobe.
pub fn distance_by_table(table: &[f32], width: f32, center_log2: f32, bin: usize) -> f32
    requires { bin < length table.now }
    ensures { result
        ≡ in_widths width (sub binary32 (get_or table.now bin nan) center_log2) }
{
    in_widths(width, table[bin] - center_log2)
}

// From the bin's own frequency, where no table was lent.
pub fn distance_by_hertz(powers: &PowerTable, grid: Grid, center: f32, bin: usize) -> f32
    requires { bin ≤ 2 ^ 24 }
    ensures { result ≡ distance grid none center bin }
{
    let hertz = bin as f32 * grid.bin_hz;
    in_widths(grid.width, power::log2::log2(powers, hertz / center))
}
