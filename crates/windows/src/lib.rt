// The dual window and the coherent gain.
#![tactic(auto)]

ghost use Rattle.std.specs.Prelude.{◌≡◌, ◌+◌, ◌/◌, ◌%◌, ◌^◌, ◌≤◌, ◌<◌, length};
ghost use Rattle.limits.specs.Lengths.{most_window};
ghost use Rattle.windows.specs.Windows.{denominator_at, dual_of, sum_of, coherent_gain};

// A smaller sum of squares counts as this, so that no division is by 0.
const LEAST_DIVISOR: f32 = 1.0e-12;

// The index one hop after `at`, wrapping around at the end of the window. The comparison is faster
// than a remainder by a variable.
fn a_hop_on(at: usize, hop: usize, size: usize) -> usize
    requires { (at < size) × (hop ≤ size) × (size < 2 ^ 61) }
    ensures { (result < size) × (result ≡ (at + hop) % size) }
{
    let next = at + hop;
    if next < size { next } else { next - size }
}

// What the value at an index is divided by. As in the Rust, the sum starts at the index itself, so
// each index of a residue class has its own rounding.
pub fn denominator(analysis: &[f32], hop: usize, overlap: usize, index: usize) -> f32
    requires { (index < length analysis.now) × (hop ≤ length analysis.now) }
    ensures { result ≡ denominator_at analysis.now hop overlap index }
{
    let mut sum: f32 = 0.0;
    let mut at = index;
    for offset in 0..overlap {
        sum = sum + float32::powers::powi2(analysis[at]);
        at = a_hop_on(at, hop, analysis.len());
    }
    float32::order::max(sum, LEAST_DIVISOR)
}

// The canonical dual window for the given overlap: at each index the value over its denominator.
pub fn dual_window(analysis: &[f32], synthesis: &mut [f32], overlap: usize)
    requires { (length analysis.now ≡ length synthesis.old) × (0 < overlap) }
    ensures { synthesis.new ≡ dual_of analysis.now overlap }
{
    let hop = analysis.len() / overlap;
    for index in 0..synthesis.len() {
        synthesis[index] = analysis[index] / denominator(analysis, hop, overlap, index);
    }
}

// The sum of the values, left to right.
fn sum(window: &[f32]) -> f32
    ensures { result ≡ sum_of window.now }
{
    let mut total: f32 = 0.0;
    for &value in window {
        total = total + value;
    }
    total
}

// The mean of a window's values: its gain on a steady tone.
pub fn coherent_gain(window: &[f32]) -> f32
    requires { length window.now ≤ most_window }
    ensures { result ≡ coherent_gain window.now }
{
    sum(window) / (window.len() as f32)
}
