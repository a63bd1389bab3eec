// The sine at a position in the turn.
//
// Method. The two top bits of U are the quarter q, the other 22 the position p in it; odd quarters
// are read backwards. The 8 top bits of p choose an entry of R, and the 14 others interpolate to
// the next, rounded down. Of the 30 bits 24 are kept, which an f32 holds exactly.
ghost use Rattle.std.specs.Prelude.{◌≡◌, cond, ◌^◌, ◌<◌, ◌≤◌, pos, neg_ℤ};
ghost use Rattle.lists.specs.Interpolation.{interp};
ghost use Rattle.sine.specs.Table.{sine_table, R};
ghost use Rattle.sine.specs.Sine.{turned, wave};
ghost use Rattle.sine.specs.Rows.{level_at};

use super::table::SineTable;
use super::turns::QUARTER;

// R[256], the sine of a quarter turn.
const LAST_ENTRY: u64 = 1073741824;

// R[j]
pub fn entry(sines: &SineTable, j: usize) -> u64
    requires { j < 257 }
    ensures { result ≡ R j }
{
    sines.entries[j] as u64
}

// Linear interpolation in R, over steps of 2^14. There is no entry after the last.
fn interpolated(sines: &SineTable, p: u64) -> u64
    requires { p ≤ 2 ^ 22 }
    ensures { result ≡ interp 14 R p }
{
    let h = (p >> 14) as usize;
    if 255 < h {
        return LAST_ENTRY;
    }
    let a = entry(sines, h);
    let b = entry(sines, h + 1);
    a + (((b - a) * (p & 0x3fff)) >> 14)
}

// p, turned to 2^22 - p for an odd quarter.
fn turned_place(place: u64) -> u64
    requires { place < 2 ^ 24 }
    ensures { result ≡ turned place }
{
    let p = place & 0x3f_ffff;
    if (place >> 22) & 1 == 1 {
        return QUARTER - p;
    }
    p
}

// w or -w. The compiler turns this into a select, not into a branch, which would be unpredictable.
fn signed(negative: bool, w: u32) -> i32
    requires { w ≤ 16777216 }
    ensures { result ≡ cond negative (neg_ℤ (pos w)) (pos w) }
{
    let v = w as i32;
    if negative {
        return 0 - v;
    }
    v
}

// w / 2^24, negative in the quarters 2 and 3; zero is positive.
pub fn level(place: u32, w: u32) -> f32
    requires { w ≤ 16777216 }
    ensures { result ≡ level_at place w }
{
    (signed(1 < place >> 22, w) as f32) / 16777216.0
}

pub fn wave_at(sines: &SineTable, place: u64) -> f32
    requires { place < 2 ^ 24 }
    ensures { result ≡ wave place }
{
    let w = (interpolated(sines, turned_place(place)) >> 6) as u32;
    level(place as u32, w)
}
