// A list of calls: words of 32 bits, most significant byte first. A record is the list from the
// record's first word on, and its words are found by their number.
ghost use Rattle.std.specs.Prelude.{◌≡◌, ◌<◌, ◌≤◌, ◌-◌, ◌*◌, length, IfOk, OnErr};
ghost use Rattle.replay.specs.Counts.{IsPrefixLen};

use std::fs::File;
use std::io;
use std::io::Read;
use std::rt::Files;

pub const WORD_BYTES: usize = 4;

// What follows the first words; nothing where there are no more.
pub fn past(bytes: &[u8], words: usize) -> &[u8]
    ensures { length result.now ≤ length bytes.now - words * 4 }
{
    if bytes.len() / WORD_BYTES <= words {
        return &[];
    }
    &bytes[words * WORD_BYTES..]
}

// The word with this number; 0 past the list's end.
pub fn word(bytes: &[u8], number: usize) -> u32 {
    match past(bytes, number).first_chunk::<4>() {
        Some(word) => u32::from_be_bytes(*word),
        None => 0,
    }
}

pub fn float(bytes: &[u8], number: usize) -> f32 {
    float32::bits::of_bits(word(bytes, number))
}

pub fn count(bytes: &[u8], number: usize) -> usize {
    word(bytes, number) as usize
}

// A count that can be the greatest, which has no word: the greatest word stands for it.
pub fn any_count(bytes: &[u8], number: usize) -> usize {
    match word(bytes, number) {
        u32::MAX => usize::MAX,
        n => n as usize,
    }
}

// The byte with this number, counted from a word on; 0 past the list's end.
pub fn byte(bytes: &[u8], words: usize, number: usize) -> u8 {
    match past(bytes, words).get(number) {
        Some(byte) => *byte,
        None => 0,
    }
}

// What follows a record of this many words; nothing where a record has none.
pub fn after(bytes: &[u8], words: usize) -> &[u8]
    requires { 0 < length bytes.now }
    ensures { length result.now < length bytes.now }
{
    if words == 0 {
        return &[];
    }
    past(bytes, words)
}

// Reads a file into the start of the bytes, and answers how many it read.
pub fn read(rt: &impl Files, path: &str, bytes: &mut [u8]) -> io::Result<usize>
    ensures ok { IfOk result (λ n. IsPrefixLen n bytes.new) }
    ensures err { OnErr result (length bytes.new ≡ length bytes.old) }
{
    let mut file = File::open(rt, path)?;
    let mut done: usize = 0;
    // How many bytes a read brings is known once it is done.
    while done < bytes.len() {
        let n = file.read(&mut bytes[done..])?;
        if n == 0 {
            break;
        }
        done += n;
    }
    Ok(done)
}
