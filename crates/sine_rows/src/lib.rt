// Sine and cosine of a row of angles, in place.
//
// Method. `sine::sin` for up to 64 angles at a time, one short loop per stage: positions in the
// turn, steps of R, values read from R, signed results. All loops but the one that reads R are
// vectorized: none branches, and an angle beyond 2^23 turns, infinite or NaN, counts as 0 turns.
// Exact: each result is that of `sin`, bit for bit.
#![tactic(auto)]

ghost use Rattle.std.specs.Prelude.{◌≡◌, cond, ℕ, ◌+◌, ◌-◌, ◌^◌, ◌≤◌, ◌<◌, eqb, length, get_or};
ghost use Rattle.std.specs.Float.{nan};
ghost use Rattle.lists.specs.Maps.{map_range};
ghost use Rattle.sine.specs.Table.{sine_table};
ghost use Rattle.sine.specs.Sine.{wave, sin_of, cos_of};
ghost use Rattle.sine.specs.Rows.{place_ahead, index_of, part_of, value_at, level_at};

use sine::table::SineTable;
use sine::turns::{QUARTER, place_ahead};
use sine::wave::{entry, level};

// How many angles are computed together.
const ROW: usize = 64;

// The positions of the angles from `start` on.
fn places(row: &[f32], found: &mut [u32], start: usize, count: usize, ahead: u64)
    requires { (start + count ≤ length row.now)
        × (count ≤ length found.old)
        × (ahead ≤ 2 ^ 22) }
    ensures { found.new ≡ map_range
        (λ k held. place_ahead ahead (get_or row.now (start + k) nan)) 0 count
        found.old }
{
    for k in 0..count {
        found[k] = place_ahead(row[start + k], ahead);
    }
}

// An entry of R, and the fraction of the step from there to the next, in units of 2^-14.
#[derive(Clone, Copy)]
struct Step {
    index: u32,
    part: u32,
}

// The position in the quarter, counted back from its end in an odd one: there one unit short, which
// `step_of` adds, so that an entry of R always follows.
fn way_into(odd: u32, p: u32) -> u32
    requires { p < 4194304 }
    ensures { result ≡ cond (eqb odd 1) (4194303 - p) p }
{
    if odd == 1 {
        return 0x3f_ffff - p;
    }
    p
}

fn step_of(place: u32) -> Step
    ensures { (result.index ≡ index_of place) × (result.part ≡ part_of place) }
{
    let odd = (place >> 22) & 1;
    let way = way_into(odd, place & 0x3f_ffff);
    Step {
        index: way >> 14,
        part: (way & 0x3fff) + odd,
    }
}

fn steps(places: &[u32], indexes: &mut [u32], parts: &mut [u32], count: usize)
    requires { (count ≤ length places.now)
        × (count ≤ length indexes.old)
        × (count ≤ length parts.old) }
    ensures { (indexes.new ≡ map_range
        (λ k held. index_of (get_or places.now k 0)) 0 count indexes.old)
        × (parts.new ≡ map_range (λ k held. part_of (get_or places.now k 0)) 0 count
        parts.old) }
{
    for k in 0..count {
        let step = step_of(places[k]);
        indexes[k] = step.index;
        parts[k] = step.part;
    }
}

fn value_at(sines: &SineTable, index: u32, part: u32) -> u32
    requires { (index < 256) × (part ≤ 2 ^ 14) }
    ensures { result ≡ value_at index part }
{
    let left = index as usize;
    let a = entry(sines, left);
    let b = entry(sines, left + 1);
    ((a + (((b - a) * part as u64) >> 14)) >> 6) as u32
}

// Replaces each index by the value at its step.
fn values(indexes: &mut [u32], parts: &[u32], sines: &SineTable, count: usize)
    requires { (count ≤ length indexes.old)
        × (count ≤ length parts.now)
        × ((k : ℕ) → k < count → get_or indexes.old k 0 < 256)
        × ((k : ℕ) → k < count → get_or parts.now k 0 ≤ 2 ^ 14) }
    ensures { indexes.new ≡ map_range
        (λ k index. value_at index (get_or parts.now k 0)) 0 count
        indexes.old }
{
    for k in 0..count {
        indexes[k] = value_at(sines, indexes[k], parts[k]);
    }
}

// The sines of the angles from `start` on, from their positions and the values there.
fn levels(row: &mut [f32], places: &[u32], values: &[u32], start: usize, count: usize)
    requires { (start + count ≤ length row.old)
        × (count ≤ length places.now)
        × (count ≤ length values.now)
        × ((k : ℕ) → k < count → get_or values.now k 0 ≤ 16777216) }
    ensures { row.new ≡ map_range (λ i held. level_at
        (get_or places.now (i - start) 0) (get_or values.now (i - start) 0)) start
        (start + count) row.old }
{
    let next = start + count;
    for i in start..next {
        row[i] = level(places[i - start], values[i - start]);
    }
}

// The sines of `count` angles from `start` on, for which the lent buffers have room.
fn waves(
    row: &mut [f32],
    found: &mut [u32],
    indexes: &mut [u32],
    parts: &mut [u32],
    sines: &SineTable,
    start: usize,
    count: usize,
    ahead: u64,
)
    requires { (start + count ≤ length row.old)
        × (count ≤ length found.old)
        × (count ≤ length indexes.old)
        × (count ≤ length parts.old)
        × (ahead ≤ 2 ^ 22) }
    ensures { row.new ≡ map_range (λ i angle. wave (place_ahead ahead angle)) start
        (start + count) row.old }
{
    places(row, found, start, count, ahead);
    steps(found, indexes, parts, count);
    values(indexes, parts, sines, count);
    levels(row, found, indexes, start, count);
}

// The sines of the first `count` angles, each moved on by `ahead`.
fn waves_ahead(row: &mut [f32], sines: &SineTable, count: usize, ahead: u64)
    requires { (count ≤ length row.old) × (ahead ≤ 2 ^ 22) }
    ensures { row.new
        ≡ map_range (λ i angle. wave (place_ahead ahead angle)) 0 count row.old }
{
    let mut found = [0u32; ROW];
    let mut indexes = [0u32; ROW];
    let mut parts = [0u32; ROW];
    for start in (0..count).step_by(ROW) {
        let few = (count - start).min(ROW);
        waves(
            row,
            &mut found,
            &mut indexes,
            &mut parts,
            sines,
            start,
            few,
            ahead,
        );
    }
}

pub fn sin_row(row: &mut [f32], sines: &SineTable, count: usize)
    requires { count ≤ length row.old }
    ensures { row.new
        ≡ map_range (λ k angle. sin_of angle) 0 count row.old }
{
    waves_ahead(row, sines, count, 0);
}

// The sines a quarter turn ahead.
pub fn cos_row(row: &mut [f32], sines: &SineTable, count: usize)
    requires { count ≤ length row.old }
    ensures { row.new
        ≡ map_range (λ k angle. cos_of angle) 0 count row.old }
{
    waves_ahead(row, sines, count, QUARTER);
}
