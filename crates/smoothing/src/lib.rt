// Smoothing of gains in decibels: between neighbouring bins, and over time toward a target.
#![tactic(auto)]

ghost use Rattle.std.specs.Prelude.{◌≡◌, ℕ, ◌+◌, ◌-◌, ◌≤◌, ◌<◌, length, get_or};
ghost use Rattle.std.specs.Float.{nan, binary32};
ghost use Rattle.std.specs.Float.Ieee.{mul};
ghost use Rattle.lists.specs.Maps.{map_range};
ghost use Rattle.float32.specs.Constants.{log10_2};
ghost use Rattle.float32.specs.Order.{maximum};
ghost use Rattle.power.specs.Table.{power_table};
ghost use Rattle.decibels.specs.Gain.{decibels_per_decade};
ghost use Rattle.smoothing.specs.Smoothing.{least_gain, decibels_of, softened, softened_at};
ghost use Rattle.smoothing.specs.Smoothing.{softened_of, blend_of, nearer, smoothed_of};

use decibels::{DECIBELS_PER_DECADE, gain};
use float32::constants::LOG10_2;
use power::decimal::exp;
use power::table::{PowerTable, power_table};

// A smaller gain counts as this, so that silence has decibels too.
const LEAST_GAIN: f32 = 1.0e-6;

// The weights of each neighbour's decibels and of the bin's own.
const SIDE_SHARE: f32 = 0.2;

const CENTER_SHARE: f32 = 0.6;

const SMOOTH_MASK_TIME_SECONDS: f32 = 0.03;

// How many bins are computed together.
const ROW: usize = 64;

// A row without its two outer neighbours.
const INSIDE: usize = 62;

// The gains from `start` on, at least LEAST_GAIN.
fn audible(row: &mut [f32], gains: &[f32], start: usize, count: usize)
    requires { (count ≤ length row.old) × (start + count ≤ length gains.now) }
    ensures { row.new ≡ map_range
        (λ k held. maximum (get_or gains.now (start + k) nan) least_gain) 0 count
        row.old }
{
    for k in 0..count {
        row[k] = float32::order::max(gains[start + k], LEAST_GAIN);
    }
}

// From the base-2 logarithms of gains to their decibels.
fn scaled(row: &mut [f32], count: usize)
    requires { count ≤ length row.old }
    ensures { row.new ≡ map_range
        (λ k log. mul binary32 decibels_per_decade (mul binary32 log log10_2)) 0 count
        row.old }
{
    for k in 0..count {
        row[k] = DECIBELS_PER_DECADE * (row[k] * LOG10_2);
    }
}

// The decibels of the gains from `start` on, one short loop per stage.
fn decibel_row(row: &mut [f32], gains: &[f32], powers: &PowerTable, start: usize, count: usize)
    requires { (count ≤ length row.old) × (start + count ≤ length gains.now) }
    ensures { row.new ≡ map_range
        (λ k held. decibels_of (get_or gains.now (start + k) nan)) 0 count
        row.old }
{
    audible(row, gains, start, count);
    power_rows::log2::log2_row(row, powers, count);
    scaled(row, count);
}

// A bin's softened gain, from its own decibels and its neighbours'.
fn softened(powers: &PowerTable, left_db: f32, center_db: f32, right_db: f32) -> f32
    ensures { result ≡ softened left_db center_db right_db }
{
    gain(
        powers,
        left_db * SIDE_SHARE + center_db * CENTER_SHARE + right_db * SIDE_SHARE,
    )
}

// Softens the bins from `start` on. The row of decibels begins with the left neighbour of the
// first.
fn soften_row(output: &mut [f32], row: &[f32], powers: &PowerTable, start: usize, stop: usize)
    requires { (start ≤ stop) × (stop ≤ length output.old) × (stop + 2 ≤ start + length row.now) }
    ensures { output.new ≡ map_range (λ b x. softened
        (get_or row.now (b - start) nan) (get_or row.now (b - start + 1) nan)
        (get_or row.now (b - start + 2) nan)) start stop output.old }
{
    for bin in start..stop {
        let k = bin - start;
        output[bin] = softened(powers, row[k], row[k + 1], row[k + 2]);
    }
}

// Every bin but the first and the last, in rows.
fn soften_inside(powers: &PowerTable, source: &[f32], output: &mut [f32])
    requires { (length source.now ≡ length output.old) × (3 ≤ length source.now) }
    ensures { output.new ≡ map_range (λ b x. softened_at source.now b) 1
        (length source.now - 1) output.old }
{
    let last = source.len() - 1;
    let mut row = [0.0f32; ROW];
    for start in (1..last).step_by(INSIDE) {
        let count = (last - start).min(INSIDE);
        let stop = start + count;
        decibel_row(&mut row, source, powers, start - 1, count + 2);
        soften_row(output, &row, powers, start, stop);
    }
}

// Smooths adjacent gain bins in decibels, retaining the edge bins. Fewer than three bins are all
// edges.
pub fn soften(source: &[f32], output: &mut [f32])
    requires { length source.now ≡ length output.old }
    ensures { output.new ≡ softened_of source.now }
{
    slices::copy(source, output);
    if source.len() < 3 {
        return;
    }
    let powers = power_table();
    soften_inside(&powers, source, output);
}

// The fraction of the distance to the target that is covered in the seconds elapsed.
fn blend(powers: &PowerTable, elapsed_seconds: f32) -> f32
    ensures { result ≡ blend_of elapsed_seconds }
{
    let way = 1.0 - exp(powers, -elapsed_seconds / SMOOTH_MASK_TIME_SECONDS);
    float32::order::clamp(way, 0.0, 1.0)
}

// The gain at that fraction of the distance between two levels in decibels.
fn nearer(powers: &PowerTable, current_db: f32, target_db: f32, blend: f32) -> f32
    ensures { result ≡ nearer blend current_db target_db }
{
    gain(powers, current_db + (target_db - current_db) * blend)
}

// Moves the gains from `start` on toward their targets; both are given in decibels.
fn move_row(
    current: &mut [f32],
    current_db: &[f32],
    target_db: &[f32],
    powers: &PowerTable,
    blend: f32,
    start: usize,
    stop: usize,
)
    requires { (start ≤ stop)
        × (stop ≤ length current.old)
        × (stop ≤ start + length current_db.now)
        × (stop ≤ start + length target_db.now)
        × ((i : ℕ) → start ≤ i → i < stop
        → get_or current_db.now (i - start) nan ≡ decibels_of (get_or current.old i nan)) }
    ensures { current.new ≡ map_range
        (λ i x. nearer blend (decibels_of x) (get_or target_db.now (i - start) nan)) start
        stop current.old }
{
    for i in start..stop {
        current[i] = nearer(powers, current_db[i - start], target_db[i - start], blend);
    }
}

// The loop over rows of bins.
fn smooth_all(powers: &PowerTable, current: &mut [f32], target: &[f32], elapsed_seconds: f32)
    requires { length current.old ≡ length target.now }
    ensures { current.new
        ≡ smoothed_of current.old target.now elapsed_seconds }
{
    let part = blend(powers, elapsed_seconds);
    let mut current_db = [0.0f32; ROW];
    let mut target_db = [0.0f32; ROW];
    for start in (0..current.len()).step_by(ROW) {
        let count = (current.len() - start).min(ROW);
        let stop = start + count;
        decibel_row(&mut current_db, current, powers, start, count);
        decibel_row(&mut target_db, target, powers, start, count);
        move_row(current, &current_db, &target_db, powers, part, start, stop);
    }
}

// Approaches a target gain mask with a 30 ms time constant.
pub fn smooth(current: &mut [f32], target: &[f32], elapsed_seconds: f32)
    requires { length current.old ≡ length target.now }
    ensures { current.new
        ≡ smoothed_of current.old target.now elapsed_seconds }
{
    let powers = power_table();
    smooth_all(&powers, current, target, elapsed_seconds);
}
