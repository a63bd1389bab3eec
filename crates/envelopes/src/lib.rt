// The envelopes of the 128 notes: each level moves toward 1 while its note is held and toward 0
// while it is not. The sixteen bytes of held notes are read as two words of 64 notes each.
#![tactic(auto)]

ghost use Rattle.std.specs.Prelude.{◌≡◌, ◌+◌, ◌-◌, ◌*◌, ◌%◌, ◌<◌, T, length, get_or};
ghost use Rattle.std.specs.Float.Ieee.{le};
ghost use Rattle.lists.specs.Maps.{map_at, map_range};
ghost use Rattle.float32.specs.Remainder.{zero};
ghost use Rattle.limits.specs.Limits as limits;
ghost use Rattle.limits.specs.Lengths.{midi_notes, held_bytes};
ghost use Rattle.envelopes.specs.Envelope.{is_held, smoothing_alpha, fade_alpha, target_of};
ghost use Rattle.envelopes.specs.Envelope.{settled, next_level, Accepted};
ghost use Rattle.envelopes.specs.Words.{Bytes, word_of, is_set};

const SECONDS_PER_MS: f32 = 0.001;

// A level below this is silence.
const SILENCE: f32 = 1.0e-6;

// The fraction of the distance to its target that a level covers in the seconds elapsed; all of it
// where the time constant is 0 or less.
fn smoothing_alpha(elapsed_seconds: f32, time_seconds: f32) -> f32
    ensures { result ≡ smoothing_alpha elapsed_seconds time_seconds }
{
    if time_seconds <= 0.0 {
        return 1.0;
    }
    1.0 - single_power::exp(-elapsed_seconds / time_seconds)
}

// The same for a fade in milliseconds. It is in 0..1.
pub fn fade_alpha(elapsed_seconds: f32, fade_ms: f32) -> f32
    requires { T (limits.elapsed elapsed_seconds) × T (limits.fade fade_ms) }
    ensures { (result ≡ fade_alpha elapsed_seconds fade_ms) × T (limits.level result) }
{
    smoothing_alpha(elapsed_seconds, fade_ms * SECONDS_PER_MS)
}

fn wide(byte: u8) -> u64
    ensures { (result ≡ byte) × (result < 256) }
{
    byte as u64
}

// Byte k of a word.
fn byte_of(held: &[u8], index: usize, k: usize) -> u8
    requires { (length held.now ≡ held_bytes) × (index < 2) × (k < 8) }
    ensures { result ≡ get_or held.now (8 * index + k) 0 }
{
    held[8 * index + k]
}

// The eight bytes of a word, the first the most significant.
fn word_of(held: &[u8], index: usize) -> u64
    requires { (length held.now ≡ held_bytes) × (index < 2) }
    ensures { (result ≡ word_of held.now index)
        × Bytes held.now (8 * index) 8 }
{
    let mut word: u64 = 0;
    for k in 0..8 {
        word = word * 256 + wide(byte_of(held, index, k));
    }
    word
}

// A note's target from its bit of half a word; bit 0 is the top one.
fn target_of(half: u32, bit: usize) -> f32
    requires { bit < 32 }
    ensures { result ≡ target_of (is_set half (31 - bit)) }
{
    let place = (31 - bit) as u32;
    if (half >> place) & 1 == 1 { 1.0 } else { 0.0 }
}

// Silence becomes 0, so that a released level comes to rest. No level is below 0, so one test is
// enough for its magnitude.
fn settle(level: f32) -> f32
    requires { T (le zero level) }
    ensures { result ≡ settled level }
{
    if level < SILENCE { 0.0 } else { level }
}

fn next_level(half: u32, bit: usize, alpha: f32, level: f32) -> f32
    requires { (bit < 32) × T (limits.level alpha) × T (limits.level level) }
    ensures { result ≡ next_level (is_set half (31 - bit)) alpha level }
{
    settle(level + (target_of(half, bit) - level) * alpha)
}

// The step of the 32 notes of half a word, the one at `index` of four. The bank is changed in
// place, and not copied. By halves, since SSE2 compares numbers of 32 bits and not of 64.
fn step_half(levels: &mut [f32], half: u32, index: usize, alpha: f32)
    requires { (length levels.old ≡ midi_notes) × (index < 4) × T (limits.level alpha)
        × Accepted levels.old (32 * index) (32 * index + 32) }
    ensures { levels.new ≡ map_range
        (λ note level. next_level (is_set half (31 - note % 32)) alpha level)
        (32 * index) (32 * index + 32) levels.old }
{
    for bit in 0..32 {
        let note = 32 * index + bit;
        levels[note] = next_level(half, bit, alpha, levels[note]);
    }
}

// The step of the 64 notes of a word.
fn step_word(levels: &mut [f32], word: u64, index: usize, alpha: f32)
    requires { (length levels.old ≡ midi_notes) × (index < 2) × T (limits.level alpha)
        × Accepted levels.old (64 * index) (64 * index + 64) }
    ensures { levels.new ≡ map_range
        (λ note level. next_level (is_set word (63 - note % 64)) alpha level)
        (64 * index) (64 * index + 64) levels.old }
{
    step_half(levels, (word >> 32) as u32, 2 * index, alpha);
    step_half(levels, (word & 0xffff_ffff) as u32, 2 * index + 1, alpha);
}

// Advances a bank of note envelopes by one STFT frame, in which a level covers the fraction alpha
// of the distance to its target. Both words are read before the first level is written.
pub fn advance(levels: &mut [f32], held: &[u8], alpha: f32)
    requires { (length levels.old ≡ midi_notes) × (length held.now ≡ held_bytes)
        × T (limits.level alpha) × Accepted levels.old 0 midi_notes }
    ensures { levels.new ≡ map_at
        (λ note level. next_level (is_held held.now note) alpha level)
        levels.old }
{
    let first = word_of(held, 0);
    let second = word_of(held, 1);
    step_word(levels, first, 0, alpha);
    step_word(levels, second, 1, alpha);
}
