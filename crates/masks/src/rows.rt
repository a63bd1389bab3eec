// The drawn curve's gains at a row of bins, one short loop per stage: the curve values that the
// bins read, the decibels that they count as, the gains.
ghost use Rattle.std.specs.Prelude.{◌≡◌, not, ◌⊎◌, ℕ, ◌+◌, ◌*◌, ◌/◌, ◌^◌, ◌≤◌, ◌<◌, min, T, length, get_or};
ghost use Rattle.std.specs.Float.{nan};
ghost use Rattle.std.specs.Float.Ieee.{is_nan};
ghost use Rattle.lists.specs.Maps.{map_range};
ghost use Rattle.power.specs.Table.{power_table};
ghost use Rattle.limits.specs.Lengths.{manual_mask_points, last_point};
ghost use Rattle.masks.specs.Manual.{curve_point, manual_gain};
ghost use Rattle.masks.specs.Counted.{counted_as};

use crate::manual::{MANUAL_CURVE_MUTE_DB, curve_point};
use float32::order::min;
use limits::lengths::LAST_POINT;
use power::table::PowerTable;

// So low that its gain is 0.
const SILENT_DB: f32 = -1000.0;

// Curve points per bin, where that is a whole number, as it is at every accepted size; else 0.
fn point_step(size: usize) -> usize
    ensures { (result ≤ last_point) × ((result ≡ 0) ⊎ (result * (size / 2) ≡ last_point)) }
{
    let source_bins = size / 2;
    if source_bins == 0 {
        return 0;
    }
    let step = LAST_POINT / source_bins;
    if step * source_bins == LAST_POINT {
        return step;
    }
    0
}

fn values_by_step(row: &mut [f32], curve: &[f32], step: usize, start: usize, count: usize)
    requires { (length curve.now ≡ manual_mask_points)
        × (step ≤ last_point)
        × (count ≤ length row.old)
        × (start + count ≤ 2 ^ 24 + 1) }
    ensures { row.new ≡ map_range
        (λ k held. get_or curve.now (min ((start + k) * step) last_point) nan) 0 count
        row.old }
{
    for k in 0..count {
        row[k] = curve[((start + k) * step).min(LAST_POINT)];
    }
}

fn values_by_quotient(row: &mut [f32], curve: &[f32], size: usize, start: usize, count: usize)
    requires { (length curve.now ≡ manual_mask_points)
        × (count ≤ length row.old)
        × (start + count ≤ 2 ^ 24 + 1) }
    ensures { row.new ≡ map_range
        (λ k held. get_or curve.now (curve_point (start + k) size) nan) 0 count
        row.old }
{
    for k in 0..count {
        row[k] = curve[curve_point(start + k, size)];
    }
}

// The curve values that the bins from `start` on read.
fn curve_values(row: &mut [f32], curve: &[f32], size: usize, start: usize, count: usize)
    requires { (length curve.now ≡ manual_mask_points)
        × (count ≤ length row.old)
        × (start + count ≤ 2 ^ 24 + 1) }
    ensures { row.new ≡ map_range
        (λ k held. get_or curve.now (curve_point (start + k) size) nan) 0 count
        row.old }
{
    let step = point_step(size);
    if step == 0 {
        values_by_quotient(row, curve, size, start, count);
        return;
    }
    values_by_step(row, curve, step, start, count);
}

// What a curve value counts as, in decibels: never a NaN.
fn counted_as(db: f32) -> f32
    ensures { result ≡ counted_as db }
{
    if MANUAL_CURVE_MUTE_DB < db {
        return min(db, 0.0);
    }
    SILENT_DB
}

// The decibels that the curve values of a row count as. None of them is a NaN, so the shortcut for
// a level row, which compares them, sees none.
fn counted_values(row: &mut [f32], count: usize)
    requires { count ≤ length row.old }
    ensures row_after { row.new
        ≡ map_range (λ k db. counted_as db) 0 count row.old }
    ensures by_index { (k : ℕ) → k < count →
        T (not (is_nan (get_or row.new k nan))) }
{
    for k in 0..count {
        row[k] = counted_as(row[k]);
    }
}

// The gains that the curve gives the bins from `start` on.
pub fn manual_gains(
    row: &mut [f32],
    powers: &PowerTable,
    curve: &[f32],
    size: usize,
    start: usize,
    count: usize,
)
    requires { (length curve.now ≡ manual_mask_points)
        × (count ≤ length row.old)
        × (start + count ≤ 2 ^ 24 + 1) }
    ensures { row.new ≡ map_range
        (λ k held. manual_gain curve.now (start + k) size) 0 count row.old }
{
    curve_values(row, curve, size, start, count);
    counted_values(row, count);
    decibels::rows::gains(row, powers, count);
}
