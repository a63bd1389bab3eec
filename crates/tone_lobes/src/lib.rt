// The lobes of a tone's partials, computed once: the plain and the compact way both start from
// them.
#![tactic(auto)]

pub mod peaks;
pub mod reach;

ghost use Rattle.std.specs.Prelude.{◌≡◌, ◌^◌, ◌≤◌, ◌<◌, length, take};
ghost use Rattle.power.specs.Table.{power_table};
ghost use Rattle.limits.specs.Lengths.{max_partials};
ghost use Rattle.lobes.specs.Tone.{partial_octaves};
ghost use Rattle.lobes.specs.Distance.{logs_of, IfLent};
ghost use Rattle.tone_lobes.specs.ToneLobes.{partials_of, lobes_of};

use crate::reach::lobe_of;
use limits::lengths::MAX_PARTIALS;
use lobes::octaves::PartialOctaves;
use lobes::tones::center_of;
use lobes::{Grid, Lobe, Tone};
use power::table::PowerTable;

// The number of partials before the first above nyquist.
pub fn partials_of(grid: Grid, tone: Tone) -> usize
    requires { grid.partials ≤ max_partials }
    ensures { (result ≡ length (partials_of grid tone)) × (result ≤ grid.partials) }
{
    for count in 0..grid.partials {
        if grid.nyquist < center_of(tone, count + 1) {
            return count;
        }
    }
    grid.partials
}

fn empty_lobes() -> [Lobe; MAX_PARTIALS]
    ensures { length result ≡ max_partials }
{
    let lobe = Lobe {
        center: 0.0,
        center_log2: 0.0,
        strength: 0.0,
        first_bin: 1,
        last_bin: 0,
        peak_squared: 0.0,
    };
    [lobe; MAX_PARTIALS]
}

// The lobes of the first `count` partials, which are all of the tone's.
pub fn lobes_of(
    powers: &PowerTable,
    octaves: &PartialOctaves,
    table: Option<&[f32]>,
    grid: Grid,
    tone: Tone,
    count: usize,
) -> [Lobe; MAX_PARTIALS]
    requires { (grid.partials ≤ max_partials)
        × (grid.last_bin ≤ 2 ^ 24)
        × (IfLent (logs_of table) (λ entries. grid.last_bin < length entries))
        × (count ≡ length (partials_of grid tone)) }
    ensures { (take count result ≡ lobes_of grid (logs_of table.entry) tone)
        × (length result ≡ max_partials) }
{
    let mut lobes = empty_lobes();
    for p in 0..count {
        lobes[p] = lobe_of(powers, octaves, table, grid, tone, p + 1);
    }
    lobes
}
