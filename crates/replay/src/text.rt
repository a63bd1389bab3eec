// Words, answers and hashes of slices as text. A line is the call's name and parts that each begin
// with a space.
use answer::{Answer, CoherentGains, Outcome, Refusal};
use float32::bits::bits_of;
use std::io;

pub fn end_line(rt: &impl Print) -> io::Result<()> {
    println!(rt; "")
}

pub fn print_word(rt: &impl Print, word: u32) -> io::Result<()> {
    print!(rt; " {word:08x}")
}

pub fn print_float(rt: &impl Print, x: f32) -> io::Result<()> {
    print_word(rt, bits_of(x))
}

pub fn print_count(rt: &impl Print, n: usize) -> io::Result<()> {
    print!(rt; " {n}")
}

pub fn print_answer(rt: &impl Print, answer: Answer) -> io::Result<()> {
    match answer {
        Answer::Gain(x) => print_float(rt, x),
        Answer::Refused(reason, place) => print!(rt; " {}", Refusal::at(reason, place)),
    }
}

pub fn print_outcome(rt: &impl Print, outcome: Outcome) -> io::Result<()> {
    match outcome {
        Ok(()) => print!(rt; " done"),
        Err(refusal) => print!(rt; " {refusal}"),
    }
}

fn print_gains(rt: &impl Print, gains: CoherentGains) -> io::Result<()> {
    print_float(rt, gains.window)?;
    print_float(rt, gains.smooth_window)
}

pub fn print_prepared(rt: &impl Print, prepared: Result<CoherentGains, Refusal>) -> io::Result<()> {
    match prepared {
        Ok(gains) => print_gains(rt, gains),
        Err(refusal) => print!(rt; " {refusal}"),
    }
}

// FNV-1a's hash of no bytes, and its prime.
pub const NO_BYTES: u64 = 0xcbf29ce484222325;

const PRIME: u64 = 0x100000001b3;

// The hash with more bytes.
fn with_bytes(hash: u64, bytes: &[u8]) -> u64 {
    let mut longer = hash;
    for byte in bytes {
        longer = (longer ^ u64::from(*byte)).wrapping_mul(PRIME);
    }
    longer
}

// The hash with the four bytes of a word, the most significant first.
pub fn with_word(hash: u64, word: u32) -> u64 {
    with_bytes(hash, &word.to_be_bytes())
}

// The hash with the bytes of words.
pub fn with_words(hash: u64, words: &[u32]) -> u64 {
    let mut longer = hash;
    for word in words {
        longer = with_word(longer, *word);
    }
    longer
}

// FNV-1a, of 64 bits, over the bit patterns of the entries.
fn hash(xs: &[f32]) -> u64 {
    let mut hash = NO_BYTES;
    for x in xs {
        hash = with_word(hash, bits_of(*x));
    }
    hash
}

// Prints a hash that the caller has made, as one over several parts.
pub fn print_made(rt: &impl Print, hash: u64) -> io::Result<()> {
    print!(rt; " {hash:016x}")
}

pub fn print_hash(rt: &impl Print, xs: &[f32]) -> io::Result<()> {
    print_made(rt, hash(xs))
}

pub fn print_hash_of_bytes(rt: &impl Print, bytes: &[u8]) -> io::Result<()> {
    print_made(rt, with_bytes(NO_BYTES, bytes))
}
