// The functions of one number by name, for callers that apply one of them to a whole list: the
// static library and the replay program.
#![tactic(auto)]

ghost use Rattle.std.specs.Prelude.{◌≡◌};
ghost use Rattle.lists.specs.Maps.{map_at};
ghost use Rattle.power.specs.Table.{power_table};
ghost use Rattle.sine.specs.Table.{sine_table};
ghost use Rattle.elementary.specs.Functions.{value_of};

use power::table::PowerTable;
use sine::table::SineTable;

// Which function to make. A caller, and a list of calls, name it as a value, so that one law speaks
// of every function.
#[derive(Clone, Copy, Debug, PartialEq, Eq)]
pub enum Function {
    Exp2,
    Log2,
    Sin,
    Cos,
    Sqrt,
    Pow10,
    Exp,
    Log10,
    RemEuclid,
    Powi2,
    Powi5,
    Abs,
}

// The function's value, from the lent tables.
pub fn value(function: Function, powers: &PowerTable, sines: &SineTable, x: f32) -> f32
    ensures { result ≡ value_of function x }
{
    match function {
        Function::Exp2 => power::exp2::exp2(powers, x),
        Function::Log2 => power::log2::log2(powers, x),
        Function::Sin => sine::sin(sines, x),
        Function::Cos => sine::cos(sines, x),
        Function::Sqrt => square_root::sqrt(x),
        Function::Pow10 => power::decimal::pow10(powers, x),
        Function::Exp => power::decimal::exp(powers, x),
        Function::Log10 => power::decimal::log10(powers, x),
        Function::RemEuclid => float32::remainder::rem_euclid_one(x),
        Function::Powi2 => float32::powers::powi2(x),
        Function::Powi5 => float32::powers::powi5(x),
        Function::Abs => float32::order::abs(x),
    }
}

fn apply_one_by_one(function: Function, powers: &PowerTable, sines: &SineTable, xs: &mut [f32])
    ensures { xs.new ≡ map_at (λ k x. value_of function x) xs.old }
{
    for x in xs.iter_mut() {
        *x = value(function, powers, sines, *x);
    }
}

// Replaces each entry by the function's value there: a whole row at a time where the function has a
// row version.
pub fn apply(function: Function, xs: &mut [f32])
    ensures { xs.new ≡ map_at (λ k x. value_of function x) xs.old }
{
    let powers = power::table::power_table();
    let sines = sine::table::sine_table();
    let count = xs.len();
    match function {
        Function::Exp2 => power_rows::exp2::exp2_row(xs, &powers, count),
        Function::Log2 => power_rows::log2::log2_row(xs, &powers, count),
        Function::Sin => sine_rows::sin_row(xs, &sines, count),
        Function::Cos => sine_rows::cos_row(xs, &sines, count),
        Function::Pow10 => power_rows::exp2::pow10_row(xs, &powers, count),
        Function::Exp => power_rows::exp2::exp_row(xs, &powers, count),
        Function::Log10 => power_rows::log2::log10_row(xs, &powers, count),
        _ => apply_one_by_one(function, &powers, &sines, xs),
    }
}
