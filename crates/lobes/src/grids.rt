// What all lobes of a mask share.
ghost use Rattle.std.specs.Prelude.{◌≡◌, ◌^◌, ◌≤◌};
ghost use Rattle.power.specs.Table.{power_table};
ghost use Rattle.lobes.specs.Grid.{grid_of};

use crate::Grid;
use float32::order::max;
use limits::lengths::MAX_PARTIALS;
use power::exp2::exp2;
use power::table::PowerTable;
use scene::MaskConfig;

pub const HALF: f32 = 0.5;

pub const CENTS_PER_OCTAVE: f32 = 1200.0;

// A lobe ends four widths (standard deviations) from its centre. Updating only those bins avoids a
// full bins x notes x partials scan.
const WIDTHS_TO_THE_END: f32 = 4.0;

pub fn grid_of(powers: &PowerTable, config: MaskConfig) -> Grid
    requires { config.fft_size ≤ 2 ^ 24 }
    ensures { result ≡ grid_of config }
{
    let rate = config.sample_rate;
    let size = config.fft_size;
    let width = max(config.width_cents, 1.0);
    let radius = WIDTHS_TO_THE_END * width / CENTS_PER_OCTAVE;
    Grid {
        nyquist: rate * HALF,
        bin_hz: frequencies::bin_hz(rate, size),
        width,
        lower_ratio: exp2(powers, -radius),
        upper_ratio: exp2(powers, radius),
        last_bin: size / 2,
        partials: config.partials.max(1).min(MAX_PARTIALS),
        rolloff: config.harmonic_rolloff_db_per_octave,
    }
}
