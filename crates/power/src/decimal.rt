// Powers of 10 and e and base-10 logarithms, from exp2 and log2 by one rounded multiplication each:
// before exp2, and after log2.
ghost use Rattle.std.specs.Prelude.{◌≡◌};
ghost use Rattle.power.specs.Table.{power_table};
ghost use Rattle.power.specs.Decimal.{pow10, exp, log10};

use crate::exp2::exp2;
use crate::log2::log2;
use crate::table::PowerEntries;
use float32::constants::{LOG2_10, LOG2_E, LOG10_2};

// 10^y: powf(10, y) of document 01.
pub fn pow10<E: PowerEntries>(powers: &E, y: f32) -> f32
    ensures { result ≡ pow10 y }
{
    exp2(powers, y * LOG2_10)
}

// e^y: exp(y) of document 01.
pub fn exp<E: PowerEntries>(powers: &E, y: f32) -> f32
    ensures { result ≡ exp y }
{
    exp2(powers, y * LOG2_E)
}

// log10(v) of document 01.
pub fn log10<E: PowerEntries>(powers: &E, v: f32) -> f32
    ensures { result ≡ log10 v }
{
    log2(powers, v) * LOG10_2
}
