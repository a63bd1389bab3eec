// The minimum and maximum of each block of 64 bins, so that whole blocks can be skipped.
#![tactic(auto)]

ghost use Rattle.std.specs.Prelude.{◌≡◌, ◌+◌, ◌*◌, ◌≤◌, ◌<◌, length};
ghost use Rattle.blocks.specs.Least.{Numbers, Least, Greatest, largest, lowest};
ghost use Rattle.blocks.specs.Row.{RowOf};
ghost use Rattle.blocks.specs.Ends.{Ends};

use rows::{copy_row, least_of, negate};

pub mod rows;

pub const BLOCK: usize = 64;

const LARGEST: f32 = 3.4028235e38;

const LOWEST: f32 = -3.4028235e38;

// Fills the row with the slice's numbers from `start` on. Where the slice ends first, the rest of
// the row repeats the first of them.
fn take_row(row: &mut [f32], from: &[f32], start: usize)
    requires { (length row.old ≡ 64) × (start < length from.now) }
    ensures { RowOf start from.now row.new }
{
    row.fill(from[start]);
    copy_row(row, from, start, BLOCK.min(from.len() - start));
}

// The minimum of the 64 numbers from `start` on, or of as many as the slice has; the largest f32 if
// there are none.
pub fn least_from(row: &mut [f32], from: &[f32], start: usize) -> f32
    requires { (length row.old ≡ 64) × Numbers start (start + 64) from.now }
    ensures { Least result start (start + 64) from.now
        × (length from.now ≤ start → result ≡ largest) }
{
    if from.len() <= start {
        return LARGEST;
    }
    take_row(row, from, start);
    least_of(row)
}

// Their maximum: the minimum of the negated numbers, negated.
pub fn greatest_from(row: &mut [f32], from: &[f32], start: usize) -> f32
    requires { (length row.old ≡ 64) × Numbers start (start + 64) from.now }
    ensures { Greatest result start (start + 64) from.now
        × (length from.now ≤ start → result ≡ lowest) }
{
    if from.len() <= start {
        return LOWEST;
    }
    take_row(row, from, start);
    negate(row);
    -least_of(row)
}

// The minimum and maximum of each block of a table. Bin 0 is in no block.
pub fn block_ends(lows: &mut [f32], highs: &mut [f32], row: &mut [f32], table: &[f32])
    requires { (length row.old ≡ 64)
        × (length lows.old ≡ length highs.old)
        × (length table.now ≤ 64 * length lows.old + 1)
        × Numbers 1 (length table.now) table.now }
    ensures { Ends table.now lows.new highs.new }
{
    for start in (1..table.len()).step_by(BLOCK) {
        let block = start / BLOCK;
        lows[block] = least_from(row, table, start);
        highs[block] = greatest_from(row, table, start);
    }
}
