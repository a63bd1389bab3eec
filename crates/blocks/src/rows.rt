// The minimum of a row of 64 numbers.
//
// Method. With one running minimum every step depends on the one before. Instead the second half of
// the row is folded onto the first, entry by entry, then the second quarter onto the first, and so
// on: the steps of one loop are independent, and it is vectorized.
ghost use Rattle.std.specs.Prelude.{◌≡◌, ◌+◌, ◌≤◌, length, get_or};
ghost use Rattle.std.specs.Float.{nan};
ghost use Rattle.std.specs.Float.Ieee.{neg};
ghost use Rattle.lists.specs.Maps.{map_at, map_range};
ghost use Rattle.float_laws.specs.Order.{smaller};
ghost use Rattle.blocks.specs.Least.{Numbers, Least};

// Copies `count` numbers of the slice, from `start` on, to the front of the row.
pub(crate) fn copy_row(row: &mut [f32], from: &[f32], start: usize, count: usize)
    requires { (count ≤ length row.old) × (start + count ≤ length from.now) }
    ensures { row.new ≡ map_range (λ k held. get_or from.now (start + k) nan)
        0 count row.old }
{
    for k in 0..count {
        row[k] = from[start + k];
    }
}

pub(crate) fn negate(row: &mut [f32])
    ensures { row.new ≡ map_at (λ k held. neg held) row.old }
{
    for x in row.iter_mut() {
        *x = -*x;
    }
}

// The lesser of two numbers.
fn lesser(a: f32, b: f32) -> f32
    ensures { result ≡ smaller a b }
{
    if b < a { b } else { a }
}

// Replaces each of the first `count` numbers by the lesser of itself and the one `count` entries
// on.
fn halve(row: &mut [f32], count: usize)
    requires { count + count ≤ length row.old }
    ensures { row.new ≡ map_range
        (λ k held. smaller held (get_or row.old (k + count) nan)) 0 count
        row.old }
{
    for k in 0..count {
        row[k] = lesser(row[k], row[k + count]);
    }
}

// The minimum of a row of 64 numbers, which it overwrites.
pub fn least_of(row: &mut [f32]) -> f32
    requires { (length row.old ≡ 64) × Numbers 0 64 row.old }
    ensures { Least result 0 64 row.old }
{
    halve(row, 32);
    halve(row, 16);
    halve(row, 8);
    halve(row, 4);
    halve(row, 2);
    halve(row, 1);
    row[0]
}
