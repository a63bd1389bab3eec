// Powers of 2, 10 and e of a row of numbers, in place.
//
// Method. `power::exp2` for up to 64 numbers at a time, one short loop per stage: clip to the
// range, steps of 2^-24 (fixed_point), the 24 bits from the table P, the powers. All loops but the
// table lookup are vectorized: none branches, a number out of range counts as 0, and the last loop
// puts in the results for those. Exact: each result is that of exp2, bit for bit.
ghost use Rattle.std.specs.Prelude.{◌≡◌, ℕ, ◌+◌, ◌*◌, ◌/◌, ◌%◌, ◌^◌, ◌≤◌, ◌<◌, T, length, get_or};
ghost use Rattle.std.specs.Float.{nan, binary32};
ghost use Rattle.std.specs.Float.Ieee.{mul};
ghost use Rattle.lists.specs.Maps.{map_range};
ghost use Rattle.float32.specs.Value.{moved};
ghost use Rattle.power.specs.Table.{low_bits, power_table, P};
ghost use Rattle.power.specs.Power.{power_at, E2};
ghost use Rattle.power.specs.Decimal.{pow10, exp};
ghost use Rattle.power_rows.specs.Exp2.{between, clipped, digits, Found};

use fixed_point::far_steps;
use float32::constants::{LOG2_10, LOG2_E};
use power::exp2::{FAR_MORE, LARGEST, LIMIT, LOWEST};
use power::table::{PowerTable, interpolate};

// How many numbers are computed together.
const ROW: usize = 64;

fn is_between(x: f32) -> bool
    ensures { result ≡ between x }
{
    LOWEST <= x && x < LIMIT
}

fn clipped(x: f32) -> f32
    ensures { result ≡ clipped x }
{
    if is_between(x) {
        return x;
    }
    0.0
}

fn clip(row: &[f32], inside: &mut [f32], start: usize, count: usize)
    requires { (start + count ≤ length row.now) × (count ≤ length inside.old) }
    ensures { inside.new ≡ map_range
        (λ k held. clipped (get_or row.now (start + k) nan)) 0 count
        inside.old }
{
    for k in 0..count {
        inside[k] = clipped(row[start + k]);
    }
}

// floor((x + 128) * 2^24)
fn steps_of(x: f32) -> u32
    requires { T (between x) }
    ensures { result ≡ moved 128 x }
{
    (far_steps(x) - FAR_MORE) as u32
}

fn steps(inside: &[f32], found: &mut [u32], count: usize)
    requires { (count ≤ length inside.now)
        × (count ≤ length found.old)
        × ((k : ℕ) → k < count → T (between (get_or inside.now k nan))) }
    ensures { found.new ≡ map_range
        (λ k held. moved 128 (get_or inside.now k nan)) 0 count found.old }
{
    for k in 0..count {
        found[k] = steps_of(inside[k]);
    }
}

fn digits_of(powers: &PowerTable, y: u32) -> u32
    ensures { result ≡ digits y }
{
    (interpolate(powers, (y & 0xff_ffff) as u64) >> 7) as u32
}

fn leading(found: &[u32], values: &mut [u32], powers: &PowerTable, count: usize)
    requires { (count ≤ length found.now) × (count ≤ length values.old) }
    ensures { values.new ≡ map_range
        (λ k held. digits (get_or found.now k 0)) 0 count values.old }
{
    for k in 0..count {
        values[k] = digits_of(powers, found[k]);
    }
}

// The float with those 24 bits, whose leading 1 carries into the exponent field.
fn made_of(y: u32, q: u32) -> f32
    requires { (2 * 2 ^ 24 ≤ y) × (q ≡ digits y) }
    ensures { result ≡ power_at low_bits P (y / 2 ^ 24) (y % 2 ^ 24) }
{
    let n = (y >> 24) as u64;
    f32::from_bits((((n - 2) << 23) + q as u64) as u32)
}

fn power_of(x: f32, y: u32, q: u32) -> f32
    requires { Found x y q }
    ensures { result ≡ E2 x }
{
    let power = made_of(y, q);
    if !(LOWEST <= x) {
        return 0.0;
    }
    if !(x < LIMIT) {
        return LARGEST;
    }
    power
}

fn finish(row: &mut [f32], found: &[u32], values: &[u32], start: usize, count: usize)
    requires { (start + count ≤ length row.old)
        × (count ≤ length found.now)
        × (count ≤ length values.now)
        × ((k : ℕ) → k < count →
        Found (get_or row.old (start + k) nan) (get_or found.now k 0) (get_or values.now k 0)) }
    ensures { row.new
        ≡ map_range (λ i x. E2 x) start (start + count) row.old }
{
    let next = start + count;
    for i in start..next {
        row[i] = power_of(row[i], found[i - start], values[i - start]);
    }
}

// The powers of `count` numbers from `start` on, for which the lent buffers have room.
fn few_powers(
    row: &mut [f32],
    inside: &mut [f32],
    found: &mut [u32],
    values: &mut [u32],
    powers: &PowerTable,
    start: usize,
    count: usize,
)
    requires { (start + count ≤ length row.old)
        × (count ≤ length inside.old)
        × (count ≤ length found.old)
        × (count ≤ length values.old) }
    ensures { row.new
        ≡ map_range (λ i x. E2 x) start (start + count) row.old }
{
    clip(row, inside, start, count);
    steps(inside, found, count);
    leading(found, values, powers, count);
    finish(row, found, values, start, count);
}

pub fn exp2_row(row: &mut [f32], powers: &PowerTable, count: usize)
    requires { count ≤ length row.old }
    ensures { row.new ≡ map_range (λ i x. E2 x) 0 count row.old }
{
    let mut inside = [0.0f32; ROW];
    let mut found = [0u32; ROW];
    let mut values = [0u32; ROW];
    for start in (0..count).step_by(ROW) {
        let few = (count - start).min(ROW);
        few_powers(
            row,
            &mut inside,
            &mut found,
            &mut values,
            powers,
            start,
            few,
        );
    }
}

pub(crate) fn scale(row: &mut [f32], factor: f32, count: usize)
    requires { count ≤ length row.old }
    ensures { row.new
        ≡ map_range (λ k y. mul binary32 y factor) 0 count row.old }
{
    for k in 0..count {
        row[k] = row[k] * factor;
    }
}

pub fn pow10_row(row: &mut [f32], powers: &PowerTable, count: usize)
    requires { count ≤ length row.old }
    ensures { row.new ≡ map_range (λ k y. pow10 y) 0 count row.old }
{
    scale(row, LOG2_10, count);
    exp2_row(row, powers, count);
}

pub fn exp_row(row: &mut [f32], powers: &PowerTable, count: usize)
    requires { count ≤ length row.old }
    ensures { row.new ≡ map_range (λ k y. exp y) 0 count row.old }
{
    scale(row, LOG2_E, count);
    exp2_row(row, powers, count);
}
