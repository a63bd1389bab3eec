// The real, non-negative gain masks for an RFFT spectrum: the gain of every bin. Nothing is
// allocated, so the audio thread may call this.
#![tactic(auto)]

pub mod centers;

ghost use Rattle.std.specs.Prelude.{◌≡◌, ◌+◌, ◌/◌, ◌≤◌, length, take};
ghost use Rattle.lists.specs.Maps.{tabulate};
ghost use Rattle.power.specs.Table.{power_table};
ghost use Rattle.sine.specs.Table.{sine_table};
ghost use Rattle.limits.specs.Lengths.{most_voices, most_size, manual_mask_points};
ghost use Rattle.lobes.specs.Pan as side;
ghost use Rattle.lobes.specs.Grid.{grid_of};
ghost use Rattle.lobes.specs.Distance.{lent, logs_of, IfLent};
ghost use Rattle.openness.specs.Scene.{SoundScene};
ghost use Rattle.mask_builder.specs.Mask.{openness_at, mask_of};

use limits::lengths::MOST_VOICES;
use power::table::PowerTable;
use scene::{MaskConfig, MaskVoice};
use sine::table::SineTable;

// The openness of each bin of a mono mask, 0 with the note layer off. As in the Rust, the output
// first serves as the buffer for it.
fn open_mono(
    powers: &PowerTable,
    sines: &SineTable,
    out: &mut [f32],
    voices: [MaskVoice; MOST_VOICES],
    count: usize,
    config: MaskConfig,
    table: Option<&[f32]>,
)
    requires { (count ≤ most_voices)
        × (config.fft_size ≤ most_size)
        × (length out.old ≡ config.fft_size / 2 + 1)
        × (IfLent (logs_of table) (λ entries. length entries ≡ config.fft_size / 2 + 1))
        × (IfLent (logs_of table) (SoundScene (grid_of config) (take count voices))) }
    ensures { out.new ≡ tabulate (length out.old)
        (openness_at config (logs_of table.entry) side.mono (take count voices)) }
{
    if config.note_layer_enabled {
        let gaussians = gaussian::gaussian_table();
        let grid = lobes::grids::grid_of(powers, config);
        openness::open_one(out, powers, sines, &gaussians, table, voices, count, grid);
    } else {
        out.fill(0.0);
    }
}

// The openness of each bin on both sides of a stereo pair.
fn open_sides(
    powers: &PowerTable,
    sines: &SineTable,
    left: &mut [f32],
    right: &mut [f32],
    voices: [MaskVoice; MOST_VOICES],
    count: usize,
    config: MaskConfig,
    table: &[f32],
)
    requires { (count ≤ most_voices)
        × (config.fft_size ≤ most_size)
        × (length left.old ≡ config.fft_size / 2 + 1)
        × (length right.old ≡ config.fft_size / 2 + 1)
        × (length table.now ≡ config.fft_size / 2 + 1)
        × (SoundScene (grid_of config) (take count voices) table.now) }
    ensures left_after { left.new ≡ tabulate (length left.old)
        (openness_at config (lent table.now) side.left (take count voices)) }
    ensures right_after { right.new ≡ tabulate (length right.old)
        (openness_at config (lent table.now) side.right (take count voices)) }
{
    if config.note_layer_enabled {
        let gaussians = gaussian::gaussian_table();
        let grid = lobes::grids::grid_of(powers, config);
        openness::open_two(
            left, right, powers, sines, &gaussians, table, voices, count, grid,
        );
    } else {
        left.fill(0.0);
        right.fill(0.0);
    }
}

// The mono mask, from the table where one is lent.
pub fn build_one(
    out: &mut [f32],
    curve: &[f32],
    voices: [MaskVoice; MOST_VOICES],
    count: usize,
    config: MaskConfig,
    table: Option<&[f32]>,
)
    requires { (length curve.now ≡ manual_mask_points)
        × (count ≤ most_voices)
        × (config.fft_size ≤ most_size)
        × (length out.old ≡ config.fft_size / 2 + 1)
        × (IfLent (logs_of table) (λ entries. length entries ≡ config.fft_size / 2 + 1))
        × (IfLent (logs_of table) (SoundScene (grid_of config) (take count voices))) }
    ensures { out.new ≡ mask_of curve.now config
        (logs_of table.entry) side.mono (take count voices) }
{
    let powers = power::table::power_table();
    let sines = sine::table::sine_table();
    open_mono(&powers, &sines, out, voices, count, config, table);
    bin_gains::finish_one(&powers, &sines, out, curve, config);
}

// Both masks of a stereo pair. The manual curve, motion and closed-note floor are shared;
// overlapping contributions combine by maximum, independently on each side.
pub fn build_two(
    left: &mut [f32],
    right: &mut [f32],
    curve: &[f32],
    voices: [MaskVoice; MOST_VOICES],
    count: usize,
    config: MaskConfig,
    table: &[f32],
)
    requires { (length curve.now ≡ manual_mask_points)
        × (count ≤ most_voices)
        × (config.fft_size ≤ most_size)
        × (length left.old ≡ config.fft_size / 2 + 1)
        × (length right.old ≡ config.fft_size / 2 + 1)
        × (length table.now ≡ config.fft_size / 2 + 1)
        × (SoundScene (grid_of config) (take count voices) table.now) }
    ensures left_after { left.new ≡ mask_of curve.now config
        (lent table.now) side.left (take count voices) }
    ensures right_after { right.new ≡ mask_of curve.now config
        (lent table.now) side.right (take count voices) }
{
    // Centered voices give identical masks; copy rather than rebuild.
    if centers::all_centered(voices, count) {
        build_one(left, curve, voices, count, config, Some(table));
        slices::copy(left, right);
        return;
    }
    let powers = power::table::power_table();
    let sines = sine::table::sine_table();
    open_sides(&powers, &sines, left, right, voices, count, config, table);
    bin_gains::finish_two(&powers, &sines, left, right, curve, config);
}
