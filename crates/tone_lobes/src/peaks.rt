// The bin closest to a lobe's centre.
ghost use Rattle.std.specs.Prelude.{◌≡◌, ◌^◌, ◌≤◌};
ghost use Rattle.power.specs.Table.{power_table};
ghost use Rattle.lobes.specs.Peak.{cents, closest_bin};

use lobes::grids::CENTS_PER_OCTAVE;
use power::table::PowerTable;

fn cents(powers: &PowerTable, bin_hz: f32, center: f32, bin: usize) -> f32
    requires { bin ≤ 2 ^ 24 }
    ensures { result ≡ cents bin_hz center bin }
{
    let octaves = power::log2::log2(powers, bin as f32 * bin_hz / center);
    float32::order::abs(CENTS_PER_OCTAVE * octaves)
}

// Of the two bins around the centre the nearer in cents, within 1..last.
pub fn closest_bin_in_cents(powers: &PowerTable, center: f32, bin_hz: f32, last: usize) -> usize
    requires { last ≤ 2 ^ 24 }
    ensures { result ≡ closest_bin center bin_hz last }
{
    let lower = counts::floor_to_count(center / bin_hz).max(1).min(last);
    let upper = (lower + 1).min(last);
    if cents(powers, bin_hz, center, upper) < cents(powers, bin_hz, center, lower) {
        return upper;
    }
    lower
}
