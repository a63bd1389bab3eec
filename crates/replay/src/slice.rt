// A slice described by 8 words: length, seed, low, high, and twice a place and a value.
ghost use Rattle.replay.specs.Counts.{Counts};

use crate::list;

// The slice's length, or that of the room for it where that is less.
pub fn length(bytes: &[u8], past: usize, room: &[f32]) -> usize
    ensures { Counts result room.now }
{
    let n = list::count(bytes, past);
    if n <= room.len() {
        return n;
    }
    room.len()
}

// The generator's next state.
fn next(state: u32) -> u32 {
    state.wrapping_mul(1664525).wrapping_add(1013904223)
}

// Spread from low to high by the state; low where the two have the same bits.
fn spread(low: u32, high: u32, state: u32) -> f32 {
    let from = float32::bits::of_bits(low);
    if low == high {
        return from;
    }
    let to = float32::bits::of_bits(high);
    from + (to - from) * (std::num::nearest_u32_to_f32(state / 256) / 16777216.0)
}

fn put(xs: &mut [f32], place: usize, value: f32) {
    if let Some(x) = xs.get_mut(place) {
        *x = value;
    }
}

// Puts the two values at their places.
pub fn put_both(bytes: &[u8], past: usize, xs: &mut [f32]) {
    let words = list::past(bytes, past);
    put(xs, list::count(words, 4), list::float(words, 5));
    put(xs, list::count(words, 6), list::float(words, 7));
}

// Makes the entries of the slice.
pub fn fill(bytes: &[u8], past: usize, xs: &mut [f32]) {
    let words = list::past(bytes, past);
    let low = list::word(words, 2);
    let high = list::word(words, 3);
    let mut state = list::word(words, 1);
    for x in xs.iter_mut() {
        state = next(state);
        *x = spread(low, high, state);
    }
    put_both(bytes, past, xs);
}
