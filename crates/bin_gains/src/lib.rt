// From a bin's openness to its gain: manual · motion · gate.
//
// Method. The bins are done in rows: first the ceilings, that is the gains where the gate is 1, and
// then each side from that one row of ceilings.
#![tactic(auto)]

ghost use Rattle.std.specs.Prelude.{◌≡◌, ◌+◌, ◌-◌, ◌^◌, ◌≤◌, length, get_or};
ghost use Rattle.std.specs.Float.{nan, binary32};
ghost use Rattle.std.specs.Float.Ieee.{mul};
ghost use Rattle.lists.specs.Maps.{map_at, map_range};
ghost use Rattle.power.specs.Table.{power_table};
ghost use Rattle.sine.specs.Table.{sine_table};
ghost use Rattle.limits.specs.Lengths.{manual_mask_points};
ghost use Rattle.bin_gains.specs.Gains.{gate_at, ceiling_at, gain_at};
ghost use Rattle.bin_gains.specs.Shared.{shared_of};

use motion::field::RESTING_DEPTH_DB;
use power::table::PowerTable;
use scene::{MaskConfig, MotionConfig};
use sine::table::SineTable;

// How many bins are computed at a time: enough that the calls of the stages take little time, few
// enough that the row stays in the first-level cache.
const ROW: usize = 256;

// What all bins of a mask share, computed once from its settings.
#[derive(Clone, Copy)]
pub struct Shared {
    pub bin_hz: f32,
    // The moving field's settings as `motion::field::settled` gives them.
    pub field: MotionConfig,
    pub compensation: f32,
    // The gate's gain in a closed region, and at a fully open note centre.
    pub floor: f32,
    pub emphasis: f32,
}

fn shared_of(powers: &PowerTable, sines: &SineTable, config: MaskConfig) -> Shared
    requires { config.fft_size ≤ 2 ^ 24 }
    ensures { result ≡ shared_of config }
{
    let motion = config.motion;
    Shared {
        bin_hz: frequencies::bin_hz(config.sample_rate, config.fft_size),
        field: motion::field::settled(motion),
        compensation: motion_compensation::compensation_gain(powers, sines, motion),
        floor: masks::gates::floor_gain(config.note_depth_db),
        emphasis: masks::gates::emphasis(config.width_cents),
    }
}

// Multiplies a row of the drawn curve's gains by the moving field's compensated gains.
fn move_row(row: &mut [f32], field: &[f32], compensation: f32, count: usize)
    requires { (count ≤ length row.old) × (count ≤ length field.now) }
    ensures { row.new ≡ map_range
        (λ k held. mul binary32 held (mul binary32 (get_or field.now k nan) compensation))
        0 count row.old }
{
    for k in 0..count {
        row[k] = row[k] * (field[k] * compensation);
    }
}

// The ceilings of the bins from `start` on, their gains where the gate is 1: the drawn curve's gain
// times the moving field's compensated gain.
fn ceilings(
    row: &mut [f32],
    field: &mut [f32],
    powers: &PowerTable,
    sines: &SineTable,
    curve: &[f32],
    config: MaskConfig,
    shared: Shared,
    start: usize,
    count: usize,
)
    requires { (length curve.now ≡ manual_mask_points)
        × (shared ≡ shared_of config)
        × (count ≤ length row.old)
        × (count ≤ length field.old)
        × (start + count ≤ 2 ^ 24 + 1) }
    ensures { row.new ≡ map_range
        (λ k held. ceiling_at curve.now config (start + k)) 0 count row.old }
{
    let motion = config.motion;
    masks::rows::manual_gains(row, powers, curve, config.fft_size, start, count);
    if RESTING_DEPTH_DB < motion.depth_db {
        motion_rows::motion_gains(
            field,
            powers,
            sines,
            shared.field,
            shared.bin_hz,
            start,
            count,
        );
        move_row(row, field, shared.compensation, count);
    }
}

fn gate_at(config: MaskConfig, shared: Shared, opened: f32) -> f32
    requires { shared ≡ shared_of config }
    ensures { result ≡ gate_at config opened }
{
    if config.note_layer_enabled {
        return masks::gates::gate_gain(shared.floor, shared.emphasis, opened);
    }
    1.0
}

// Turns the openness of the bins from `start` on and below `end` into their gains: ceiling times
// gate.
fn finish_row(
    out: &mut [f32],
    ceilings: &[f32],
    config: MaskConfig,
    shared: Shared,
    start: usize,
    end: usize,
)
    requires { (shared ≡ shared_of config)
        × (start ≤ end)
        × (end ≤ length out.old)
        × (end ≤ start + length ceilings.now) }
    ensures { out.new ≡ map_range (λ bin opened. mul binary32
        (get_or ceilings.now (bin - start) nan) (gate_at config opened)) start end
        out.old }
{
    for bin in start..end {
        out[bin] = ceilings[bin - start] * gate_at(config, shared, out[bin]);
    }
}

// Turns the openness of each bin into the bin's gain.
pub fn finish_one(
    powers: &PowerTable,
    sines: &SineTable,
    out: &mut [f32],
    curve: &[f32],
    config: MaskConfig,
)
    requires { (length curve.now ≡ manual_mask_points)
        × (config.fft_size ≤ 2 ^ 24)
        × (length out.old ≤ 2 ^ 24) }
    ensures { out.new
        ≡ map_at (gain_at curve.now config) out.old }
{
    let shared = shared_of(powers, sines, config);
    let mut row = [0.0f32; ROW];
    let mut field = [0.0f32; ROW];
    for start in (0..out.len()).step_by(ROW) {
        let count = (out.len() - start).min(ROW);
        let next = start + count;
        ceilings(
            &mut row, &mut field, powers, sines, curve, config, shared, start, count,
        );
        finish_row(out, &row, config, shared, start, next);
    }
}

// The same for both sides: the drawn curve, motion and closed-note floor are shared.
pub fn finish_two(
    powers: &PowerTable,
    sines: &SineTable,
    left: &mut [f32],
    right: &mut [f32],
    curve: &[f32],
    config: MaskConfig,
)
    requires { (length curve.now ≡ manual_mask_points)
        × (config.fft_size ≤ 2 ^ 24)
        × (length left.old ≤ 2 ^ 24)
        × (length right.old ≡ length left.old) }
    ensures left_after { left.new
        ≡ map_at (gain_at curve.now config) left.old }
    ensures right_after { right.new
        ≡ map_at (gain_at curve.now config) right.old }
{
    let shared = shared_of(powers, sines, config);
    let mut row = [0.0f32; ROW];
    let mut field = [0.0f32; ROW];
    for start in (0..left.len()).step_by(ROW) {
        let count = (left.len() - start).min(ROW);
        let next = start + count;
        ceilings(
            &mut row, &mut field, powers, sines, curve, config, shared, start, count,
        );
        finish_row(left, &row, config, shared, start, next);
        finish_row(right, &row, config, shared, start, next);
    }
}
