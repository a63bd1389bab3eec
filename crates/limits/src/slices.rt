// The lowest place of a slice whose entry is outside its limits, or none.
ghost use Rattle.std.specs.Prelude.{◌≡◌, true, cond, ◌&&◌, length, get_or};
ghost use Rattle.std.specs.Float.{nan};
ghost use Rattle.std.specs.Float.Ieee.{lt};
ghost use Rattle.float32.specs.Order.{within};
ghost use Rattle.lists.specs.Folds.{first_bad};
ghost use Rattle.limits.specs.Found.{Finds};

use float32::order::in_range;

// The second where either is NaN, as of the processor's instruction for several pairs at once.
fn lesser(x: f32, y: f32) -> f32
    ensures { result ≡ cond (lt x y) x y }
{
    if x < y { x } else { y }
}

// The second where either is NaN, for the same reason.
fn greater(x: f32, y: f32) -> f32
    ensures { result ≡ cond (lt y x) x y }
{
    if y < x { x } else { y }
}

// Whether both are in lo..hi, by the lesser and the greater of them: a row of pairs then takes
// fewer tests than two rows. If one is NaN, the lesser or the greater is NaN.
fn pair_in_range(x: f32, y: f32, lo: f32, hi: f32) -> bool
    ensures { result ≡ (within lo hi x && within lo hi y) }
{
    lo <= lesser(x, y) && greater(y, x) <= hi
}

// Whether no entry is outside. None of them ends the loop, so that it is done for several entries
// at once; the slice's first half is tested against its second, with the middle entry in both where
// the length is odd.
fn none_outside(xs: &[f32], lo: f32, hi: f32) -> bool
    ensures { result ≡ true →
        first_bad (λ k x. within lo hi x) xs.now ≡ length xs.now }
{
    let rest = xs.len() / 2;
    let half = xs.len() - rest;
    let mut all = true;
    for i in 0..half {
        all &= pair_in_range(xs[i], xs[rest + i], lo, hi);
    }
    all
}

fn search_outside(xs: &[f32], lo: f32, hi: f32) -> Option<usize>
    ensures { Finds (length xs.now) (first_bad (λ k x. within lo hi x) xs.now) result }
{
    for (i, x) in xs.iter().enumerate() {
        if !in_range(*x, lo, hi) {
            return Some(i);
        }
    }
    None
}

pub fn first_outside(xs: &[f32], lo: f32, hi: f32) -> Option<usize>
    ensures { Finds (length xs.now) (first_bad (λ k x. within lo hi x) xs.now) result }
{
    if none_outside(xs, lo, hi) {
        return None;
    }
    search_outside(xs, lo, hi)
}

// Of two slices of equal length the lowest place at which either is outside.
pub fn first_pair_outside(xs: &[f32], ys: &[f32], lo: f32, hi: f32) -> Option<usize>
    requires { length xs.now ≡ length ys.now }
    ensures { Finds (length xs.now) (first_bad
        (λ k x. within lo hi x && within lo hi (get_or ys.now k nan)) xs.now) result }
{
    for i in 0..xs.len() {
        if !pair_in_range(xs[i], ys[i], lo, hi) {
            return Some(i);
        }
    }
    None
}
