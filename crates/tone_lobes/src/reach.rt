// A partial's lobe: the bins that it reaches, its strength and its peak bin.
ghost use Rattle.std.specs.Prelude.{◌≡◌, ◌^◌, ◌≤◌, ◌<◌, length};
ghost use Rattle.power.specs.Table.{power_table};
ghost use Rattle.power.specs.Log.{L2};
ghost use Rattle.limits.specs.Lengths.{max_partials};
ghost use Rattle.lobes.specs.Tone.{partial_octaves};
ghost use Rattle.lobes.specs.Distance.{logs_of, IfLent, distance};
ghost use Rattle.lobes.specs.Lobe.{first_bin_of, last_bin_of, lobe_of};

use crate::peaks::closest_bin_in_cents;
use lobes::distances::{distance_by_hertz, distance_by_table};
use lobes::octaves::PartialOctaves;
use lobes::tones::{center_of, harmonic_gain};
use lobes::{Grid, Lobe, Tone};
use power::table::PowerTable;

// The first bin that a lobe reaches, never bin 0.
pub fn first_bin(grid: Grid, center: f32) -> usize
    ensures { result ≡ first_bin_of grid center }
{
    let place = center * grid.lower_ratio / grid.bin_hz;
    counts::floor_to_count(place).max(1)
}

pub fn last_bin(grid: Grid, center: f32) -> usize
    ensures { result ≡ last_bin_of grid center }
{
    let place = center * grid.upper_ratio / grid.bin_hz;
    counts::ceil_to_count(place).min(grid.last_bin)
}

// A bin's distance from a centre: from the table where one was lent.
fn distance(
    powers: &PowerTable,
    table: Option<&[f32]>,
    grid: Grid,
    center: f32,
    center_log2: f32,
    bin: usize,
) -> f32
    requires { (center_log2 ≡ L2 center)
        × (bin ≤ 2 ^ 24)
        × (IfLent (logs_of table) (λ entries. bin < length entries)) }
    ensures { result ≡ distance grid (logs_of table.entry) center bin }
{
    match table {
        Some(table) => distance_by_table(table, grid.width, center_log2, bin),
        None => distance_by_hertz(powers, grid, center, bin),
    }
}

pub fn lobe_of(
    powers: &PowerTable,
    octaves: &PartialOctaves,
    table: Option<&[f32]>,
    grid: Grid,
    tone: Tone,
    partial: usize,
) -> Lobe
    requires { (grid.last_bin ≤ 2 ^ 24)
        × (partial ≤ max_partials)
        × (IfLent (logs_of table) (λ entries. grid.last_bin < length entries)) }
    ensures { result ≡ lobe_of grid (logs_of table.entry) tone partial }
{
    let center = center_of(tone, partial);
    let center_log2 = power::log2::log2(powers, center);
    let strength = tone.level * harmonic_gain(powers, octaves, tone.rolloff, partial);
    // The musical center will almost always fall between two linearly spaced FFT bins. Normalize
    // the sampled Gaussian against the closest usable bin so fractional placement cannot make an
    // otherwise identical note arbitrarily weak.
    let peak_bin = closest_bin_in_cents(powers, center, grid.bin_hz, grid.last_bin);
    let peak = distance(powers, table, grid, center, center_log2, peak_bin);
    Lobe {
        center,
        center_log2,
        strength,
        first_bin: first_bin(grid, center),
        last_bin: last_bin(grid, center),
        peak_squared: float32::powers::powi2(peak),
    }
}
