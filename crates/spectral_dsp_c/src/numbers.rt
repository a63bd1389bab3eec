// The functions of the number layer.
ghost use Rattle.std.specs.Prelude.{◌≡◌};
ghost use Rattle.std.specs.Float.{binary32};
ghost use Rattle.std.specs.Float.Ieee.{to_bits, of_bits};
ghost use Rattle.lists.specs.Maps.{map_at};
ghost use Rattle.float32.specs.Order.{maximum, minimum, clamp, magnitude};
ghost use Rattle.counts.specs.Counts.{floor_count, ceil_count};
ghost use Rattle.float32.specs.Remainder.{rem_euclid_one};
ghost use Rattle.float32.specs.Powers.{square, fifth};
ghost use Rattle.square_root.specs.Root.{square_root_of};
ghost use Rattle.power.specs.Power.{E2};
ghost use Rattle.power.specs.Log.{L2};
ghost use Rattle.power.specs.Decimal.{pow10, exp, log10};
ghost use Rattle.sine.specs.Sine.{sin_of, cos_of};

use elementary::Function;

// Each `_all` function replaces every entry by the value there.

#[unsafe(no_mangle)]
pub extern "C" fn dovetable_exp2_all(xs: &mut [f32])
    ensures { xs.new ≡ map_at (λ k x. E2 x) xs.old }
{
    elementary::apply(Function::Exp2, xs)
}

#[unsafe(no_mangle)]
pub extern "C" fn dovetable_log2_all(xs: &mut [f32])
    ensures { xs.new ≡ map_at (λ k x. L2 x) xs.old }
{
    elementary::apply(Function::Log2, xs)
}

#[unsafe(no_mangle)]
pub extern "C" fn dovetable_sin_all(xs: &mut [f32])
    ensures { xs.new ≡ map_at (λ k x. sin_of x) xs.old }
{
    elementary::apply(Function::Sin, xs)
}

#[unsafe(no_mangle)]
pub extern "C" fn dovetable_cos_all(xs: &mut [f32])
    ensures { xs.new ≡ map_at (λ k x. cos_of x) xs.old }
{
    elementary::apply(Function::Cos, xs)
}

#[unsafe(no_mangle)]
pub extern "C" fn dovetable_sqrt_all(xs: &mut [f32])
    ensures { xs.new ≡ map_at (λ k x. square_root_of binary32 x) xs.old }
{
    elementary::apply(Function::Sqrt, xs)
}

#[unsafe(no_mangle)]
pub extern "C" fn dovetable_pow10_all(xs: &mut [f32])
    ensures { xs.new ≡ map_at (λ k x. pow10 x) xs.old }
{
    elementary::apply(Function::Pow10, xs)
}

#[unsafe(no_mangle)]
pub extern "C" fn dovetable_exp_all(xs: &mut [f32])
    ensures { xs.new ≡ map_at (λ k x. exp x) xs.old }
{
    elementary::apply(Function::Exp, xs)
}

#[unsafe(no_mangle)]
pub extern "C" fn dovetable_log10_all(xs: &mut [f32])
    ensures { xs.new ≡ map_at (λ k x. log10 x) xs.old }
{
    elementary::apply(Function::Log10, xs)
}

#[unsafe(no_mangle)]
pub extern "C" fn dovetable_rem_euclid_all(xs: &mut [f32])
    ensures { xs.new ≡ map_at (λ k x. rem_euclid_one x) xs.old }
{
    elementary::apply(Function::RemEuclid, xs)
}

#[unsafe(no_mangle)]
pub extern "C" fn dovetable_powi2_all(xs: &mut [f32])
    ensures { xs.new ≡ map_at (λ k x. square x) xs.old }
{
    elementary::apply(Function::Powi2, xs)
}

#[unsafe(no_mangle)]
pub extern "C" fn dovetable_powi5_all(xs: &mut [f32])
    ensures { xs.new ≡ map_at (λ k x. fifth x) xs.old }
{
    elementary::apply(Function::Powi5, xs)
}

#[unsafe(no_mangle)]
pub extern "C" fn dovetable_abs_all(xs: &mut [f32])
    ensures { xs.new ≡ map_at (λ k x. magnitude x) xs.old }
{
    elementary::apply(Function::Abs, xs)
}

#[unsafe(no_mangle)]
pub extern "C" fn dovetable_max(a: f32, b: f32) -> f32
    ensures { result ≡ maximum a b }
{
    float32::order::max(a, b)
}

#[unsafe(no_mangle)]
pub extern "C" fn dovetable_min(a: f32, b: f32) -> f32
    ensures { result ≡ minimum a b }
{
    float32::order::min(a, b)
}

#[unsafe(no_mangle)]
pub extern "C" fn dovetable_clamp(x: f32, lo: f32, hi: f32) -> f32
    ensures { result ≡ clamp lo hi x }
{
    float32::order::clamp(x, lo, hi)
}

#[unsafe(no_mangle)]
pub extern "C" fn dovetable_floor_to_count(x: f32) -> usize
    ensures { result ≡ floor_count x }
{
    counts::floor_to_count(x)
}

#[unsafe(no_mangle)]
pub extern "C" fn dovetable_ceil_to_count(x: f32) -> usize
    ensures { result ≡ ceil_count x }
{
    counts::ceil_to_count(x)
}

#[unsafe(no_mangle)]
pub extern "C" fn dovetable_bits_of(x: f32) -> u32
    ensures { result ≡ to_bits binary32 x }
{
    float32::bits::bits_of(x)
}

#[unsafe(no_mangle)]
pub extern "C" fn dovetable_of_bits(n: u32) -> f32
    ensures { result ≡ of_bits binary32 n }
{
    float32::bits::of_bits(n)
}
