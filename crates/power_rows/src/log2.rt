// The logarithms of a row of numbers.
//
// Method. `power::log2` for up to 64 numbers at a time, one short loop per stage: a number without
// a logarithm becomes 1, whose logarithm is 0 too; then the digits, the table steps with their
// ends, and the logarithms within them. No branch depends on a number, and all loops but
// the table lookup are vectorized, the divisions too. Exact: each result is that of log2, bit for
// bit.
ghost use Rattle.std.specs.Prelude.{◌≡◌, ℕ, ◌+◌, ◌<◌, ◌≤◌, T, length, get_or};
ghost use Rattle.std.specs.Float.{nan};
ghost use Rattle.lists.specs.Maps.{map_range};
ghost use Rattle.power.specs.Table.{power_table};
ghost use Rattle.power.specs.Log.{positive_normal, L2};
ghost use Rattle.power.specs.Decimal.{log10};
ghost use Rattle.power.specs.Stages.{digits_of};
ghost use Rattle.power_rows.specs.Log2.{ready_of, step_of, from_of, to_of, Room, Scaled, Found};

use crate::exp2::scale;
use float32::constants::LOG10_2;
use power::exp2::LARGEST;
use power::log2::{LEAST_NORMAL, log_in_step, step_of};
use power::table::{PowerEntries, PowerTable};

// How many numbers are computed together.
const ROW: usize = 64;

fn ready(v: f32) -> f32
    ensures { result ≡ ready_of v }
{
    if !(LEAST_NORMAL <= v) {
        return 1.0;
    }
    if !(v <= LARGEST) {
        return 1.0;
    }
    v
}

fn make_ready(row: &mut [f32], start: usize, stop: usize)
    requires { (start ≤ stop) × (stop ≤ length row.old) }
    ensures { row.new ≡ map_range (λ i v. ready_of v) start stop row.old }
{
    for i in start..stop {
        row[i] = ready(row[i]);
    }
}

fn take_digits(digits: &mut [u32], row: &[f32], start: usize, count: usize)
    requires { (count ≤ length digits.old)
        × (start + count ≤ length row.now)
        × ((k : ℕ) → k < count → T (positive_normal (get_or row.now (start + k) nan))) }
    ensures { digits.new ≡ map_range
        (λ k held. digits_of (get_or row.now (start + k) nan)) 0 count
        digits.old }
{
    for k in 0..count {
        digits[k] = power::log2::digits(row[start + k]);
    }
}

// The step of each number's digits, with the table's entries at its ends. Only this stage has
// lookups. They come before the stores: the other order is slower.
fn find_steps(
    steps: &mut [u32],
    from: &mut [u32],
    to: &mut [u32],
    digits: &[u32],
    powers: &PowerTable,
    count: usize,
)
    requires { Room digits.now steps.old from.old to.old count
        × ((k : ℕ) → k < count → Scaled (get_or digits.now k 0)) }
    ensures { (steps.new ≡ map_range
        (λ k held. step_of (get_or digits.now k 0)) 0 count steps.old)
        × (from.new ≡ map_range
        (λ k held. from_of (get_or digits.now k 0)) 0 count from.old)
        × (to.new ≡ map_range
        (λ k held. to_of (get_or digits.now k 0)) 0 count to.old) }
{
    for k in 0..count {
        let h = step_of(powers, digits[k]);
        let a = powers.entry(h as usize);
        let b = powers.entry(h as usize + 1);
        steps[k] = h;
        from[k] = a;
        to[k] = b;
    }
}

fn take_logs(
    row: &mut [f32],
    digits: &[u32],
    steps: &[u32],
    from: &[u32],
    to: &[u32],
    start: usize,
    count: usize,
)
    requires { (start + count ≤ length row.old)
        × Room digits.now steps.now from.now to.now count
        × ((k : ℕ) → k < count → Found (get_or row.old (start + k) nan) (get_or digits.now k 0)
        (get_or steps.now k 0) (get_or from.now k 0) (get_or to.now k 0)) }
    ensures { row.new
        ≡ map_range (λ i v. L2 v) start (start + count) row.old }
{
    let next = start + count;
    for i in start..next {
        let k = i - start;
        row[i] = log_in_step(row[i], digits[k], steps[k], from[k], to[k]);
    }
}

// The logarithms of `count` numbers from `start` on, for which the lent buffers have room.
fn few_logs(
    row: &mut [f32],
    digits: &mut [u32],
    steps: &mut [u32],
    from: &mut [u32],
    to: &mut [u32],
    powers: &PowerTable,
    start: usize,
    count: usize,
)
    requires { (start + count ≤ length row.old) × Room digits.old steps.old from.old to.old count }
    ensures { row.new
        ≡ map_range (λ i v. L2 v) start (start + count) row.old }
{
    make_ready(row, start, start + count);
    take_digits(digits, row, start, count);
    find_steps(steps, from, to, digits, powers, count);
    take_logs(row, digits, steps, from, to, start, count);
}

// Replaces the first `count` numbers of the row by their logarithms.
pub fn log2_row(row: &mut [f32], powers: &PowerTable, count: usize)
    requires { count ≤ length row.old }
    ensures { row.new ≡ map_range (λ k v. L2 v) 0 count row.old }
{
    let mut digits = [0u32; ROW];
    let mut steps = [0u32; ROW];
    let mut from = [0u32; ROW];
    let mut to = [0u32; ROW];
    for start in (0..count).step_by(ROW) {
        let few = (count - start).min(ROW);
        few_logs(
            row,
            &mut digits,
            &mut steps,
            &mut from,
            &mut to,
            powers,
            start,
            few,
        );
    }
}

pub fn log10_row(row: &mut [f32], powers: &PowerTable, count: usize)
    requires { count ≤ length row.old }
    ensures { row.new ≡ map_range (λ k v. log10 v) 0 count row.old }
{
    log2_row(row, powers, count);
    scale(row, LOG10_2, count);
}
