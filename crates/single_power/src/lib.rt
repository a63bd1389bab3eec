// Powers and logarithms of one number, without a copy of the table of `power`: a call that wants
// one of them reads the two or three entries that it needs (entries.rt).
#![tactic(auto)]

ghost use Rattle.std.specs.Prelude.{◌≡◌};
ghost use Rattle.power.specs.Power.{E2};
ghost use Rattle.power.specs.Log.{L2};
ghost use Rattle.power.specs.Decimal.{pow10, exp, log10};

use power::table::PowerEntries;

pub mod entries;

// P entry by entry, in place of the table.
#[derive(Clone, Copy)]
struct SingleEntries {}

impl PowerEntries for SingleEntries {
    fn entry(&self, j: usize) -> u32 {
        entries::entry(j)
    }
}

// 2^x: E2 of document 01.
pub fn exp2(x: f32) -> f32
    ensures { result ≡ E2 x }
{
    power::exp2::exp2(&SingleEntries {}, x)
}

// 10^y: powf(10, y) of document 01.
pub fn pow10(y: f32) -> f32
    ensures { result ≡ pow10 y }
{
    power::decimal::pow10(&SingleEntries {}, y)
}

// e^y: exp(y) of document 01.
pub fn exp(y: f32) -> f32
    ensures { result ≡ exp y }
{
    power::decimal::exp(&SingleEntries {}, y)
}

// log2(v): L2 of document 01.
pub fn log2(v: f32) -> f32
    ensures { result ≡ L2 v }
{
    power::log2::log2(&SingleEntries {}, v)
}

// log10(v) of document 01.
pub fn log10(v: f32) -> f32
    ensures { result ≡ log10 v }
{
    power::decimal::log10(&SingleEntries {}, v)
}
