// The gains of a row of decibels: the divisions, then the powers. In a level row, where all entries
// are equal, as with a flat curve or an open field, the gain is computed once.
ghost use Rattle.std.specs.Prelude.{◌≡◌, true, false, ℕ, ◌≤◌, ◌<◌, T, length, get_or};
ghost use Rattle.std.specs.Float.{nan, binary32};
ghost use Rattle.std.specs.Float.Ieee.{div, eq};
ghost use Rattle.lists.specs.Maps.{map_range};
ghost use Rattle.power.specs.Table.{power_table};
ghost use Rattle.decibels.specs.Gain.{decibels_per_decade, gain_of};

use crate::{DECIBELS_PER_DECADE, gain};
use power::table::PowerTable;
use power_rows::exp2::pow10_row;

fn decades(row: &mut [f32], count: usize)
    requires { count ≤ length row.old }
    ensures { row.new
        ≡ map_range (λ k db. div binary32 db decibels_per_decade) 0 count row.old }
{
    for k in 0..count {
        row[k] = row[k] / DECIBELS_PER_DECADE;
    }
}

// Whether one of the first `count` entries differs from `first`.
fn differs(row: &[f32], first: f32, count: usize) -> bool
    requires { count ≤ length row.now }
    ensures { result ≡ false → (k : ℕ) → k < count →
        T (eq (get_or row.now k nan) first) }
{
    let mut other = false;
    for k in 0..count {
        other = other | (row[k] != first);
    }
    other
}

// Whether the first `count` entries are equal. The ends are compared first: in most drawn rows they
// already differ.
fn is_level(row: &[f32], count: usize) -> bool
    requires { count ≤ length row.now }
    ensures { result ≡ true →
        (0 < count) ×
        ((k : ℕ) → k < count →
        T (eq (get_or row.now k nan) (get_or row.now 0 nan))) }
{
    if count == 0 {
        return false;
    }
    if row[0] != row[count - 1] {
        return false;
    }
    !differs(row, row[0], count)
}

// Converts the first `count` entries of the row from decibels to gains.
pub fn gains(row: &mut [f32], powers: &PowerTable, count: usize)
    requires { count ≤ length row.old }
    ensures { row.new ≡ map_range (λ k db. gain_of db) 0 count row.old }
{
    if is_level(row, count) {
        let level = gain(powers, row[0]);
        row[..count].fill(level);
        return;
    }
    decades(row, count);
    pow10_row(row, powers, count);
}
