// The list `numbers`: the functions of floats. A record is four words: the function's number, and
// three bit patterns.
use crate::{list, text};
use elementary::Function;
use float32::bits::of_bits;
use float32::order;
use std::io;

fn print_function(rt: &impl Print, name: &str, function: Function, a: u32) -> io::Result<()> {
    let mut x = [of_bits(a)];
    elementary::apply(function, &mut x);
    print!(rt; "{name} {a:08x}")?;
    text::print_float(rt, x[0])
}

// A function of two floats.
fn print_pair(rt: &impl Print, name: &str, a: u32, b: u32, value: f32) -> io::Result<()> {
    print!(rt; "{name} {a:08x} {b:08x}")?;
    text::print_float(rt, value)
}

fn print_clamp(rt: &impl Print, a: u32, b: u32, c: u32) -> io::Result<()> {
    print!(rt; "clamp {a:08x} {b:08x} {c:08x}")?;
    text::print_float(rt, order::clamp(of_bits(a), of_bits(b), of_bits(c)))
}

fn print_bits(rt: &impl Print, name: &str, a: u32) -> io::Result<()> {
    print!(rt; "{name} {a:08x}")?;
    text::print_float(rt, of_bits(a))
}

fn print_call(rt: &impl Print, which: u32, a: u32, b: u32, c: u32) -> io::Result<()> {
    let x = of_bits(a);
    let y = of_bits(b);
    match which {
        0 => print_function(rt, "exp2", Function::Exp2, a),
        1 => print_function(rt, "log2", Function::Log2, a),
        2 => print_function(rt, "sin", Function::Sin, a),
        3 => print_function(rt, "cos", Function::Cos, a),
        4 => print_function(rt, "sqrt", Function::Sqrt, a),
        5 => print_function(rt, "pow10", Function::Pow10, a),
        6 => print_function(rt, "exp", Function::Exp, a),
        7 => print_function(rt, "log10", Function::Log10, a),
        8 => print_function(rt, "rem_euclid", Function::RemEuclid, a),
        9 => print_function(rt, "powi2", Function::Powi2, a),
        10 => print_function(rt, "powi5", Function::Powi5, a),
        11 => print_function(rt, "abs", Function::Abs, a),
        12 => print_pair(rt, "max", a, b, order::max(x, y)),
        13 => print_pair(rt, "min", a, b, order::min(x, y)),
        14 => print_clamp(rt, a, b, c),
        15 => print!(rt; "floor_to_count {a:08x} {}", counts::floor_to_count(x)),
        16 => print!(rt; "ceil_to_count {a:08x} {}", counts::ceil_to_count(x)),
        17 => print_bits(rt, "bits_of", a),
        18 => print_bits(rt, "of_bits", a),
        _ => print!(rt; "no such function"),
    }
}

pub fn print_record(rt: &impl Print, bytes: &[u8]) -> io::Result<usize> {
    print_call(
        rt,
        list::word(bytes, 0),
        list::word(bytes, 1),
        list::word(bytes, 2),
        list::word(bytes, 3),
    )?;
    Ok(4)
}
