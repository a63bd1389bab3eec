// The list `scene_records`. What follows the call's number is a scene's settings, the length of the
// record to write, and the voices; or the length of the record to read, and its stored bytes.
ghost use Rattle.std.specs.Prelude.{◌≤◌};
ghost use Rattle.replay.specs.Counts.{IsPrefixLen};

use crate::{list, settings, text};
use answer::Refusal;
use scene::{Scene, blank_scene};
use std::io;

// The list's longest record has this many bytes.
const LONGEST: usize = 8000;

// What each byte of a record holds before a scene is written there.
const BEFORE: u8 = 7;

// The record's length, or that of the room for it where that is less.
fn length(bytes: &[u8], past: usize, room: &[u8]) -> usize
    ensures { IsPrefixLen result room.now }
{
    let n = list::count(bytes, past);
    if n <= room.len() {
        return n;
    }
    room.len()
}

fn print_write_scene_on(rt: &impl Print, bytes: &[u8], record: &mut [u8]) -> io::Result<()> {
    let scene = settings::scene_at(bytes, 1, 13);
    text::print_outcome(rt, spectral_dsp::write_scene(record, scene))?;
    text::print_hash_of_bytes(rt, record)
}

fn print_write_scene(rt: &impl Print, bytes: &[u8]) -> io::Result<()> {
    print!(rt; "write_scene")?;
    let mut room = [BEFORE; LONGEST];
    let n = length(bytes, 12, &room);
    print_write_scene_on(rt, bytes, &mut room[..n])
}

// The stored byte with this number, or 0 past them.
fn stored_byte(bytes: &[u8], number: usize) -> u8 {
    if number < list::count(bytes, 2) {
        return list::byte(bytes, 3, number);
    }
    0
}

// Makes the bytes of a record that is read.
fn fill(bytes: &[u8], record: &mut [u8]) {
    for (number, byte) in record.iter_mut().enumerate() {
        *byte = stored_byte(bytes, number);
    }
}

// The hash over the words of a scene: the settings, the count, and all voices of the array.
fn hash_of_scene(scene: Scene) -> u64 {
    let head = text::with_words(text::NO_BYTES, &settings::words_of_config(scene.config));
    let mut hash = text::with_word(head, settings::word_of(scene.count));
    for voice in &scene.voices {
        hash = text::with_words(hash, &settings::words_of_voice(*voice));
    }
    hash
}

fn print_scene(rt: &impl Print, scene: Scene) -> io::Result<()> {
    text::print_count(rt, scene.count)?;
    text::print_made(rt, hash_of_scene(scene))
}

// Where the read is refused, the blank scene stands in the scene's place.
fn print_scene_read(rt: &impl Print, read: Result<Scene, Refusal>) -> io::Result<()> {
    match read {
        Ok(scene) => {
            text::print_outcome(rt, Ok(()))?;
            print_scene(rt, scene)
        }
        Err(refusal) => {
            text::print_outcome(rt, Err(refusal))?;
            print_scene(rt, blank_scene())
        }
    }
}

fn print_read_scene_on(rt: &impl Print, bytes: &[u8], record: &mut [u8]) -> io::Result<()> {
    fill(bytes, record);
    print_scene_read(rt, spectral_dsp::read_scene(record))
}

fn print_read_scene(rt: &impl Print, bytes: &[u8]) -> io::Result<()> {
    print!(rt; "read_scene")?;
    let mut room = [0u8; LONGEST];
    let n = length(bytes, 1, &room);
    print_read_scene_on(rt, bytes, &mut room[..n])
}

fn print_call(rt: &impl Print, call: u32, bytes: &[u8]) -> io::Result<()> {
    match call {
        0 => print_write_scene(rt, bytes),
        1 => print_read_scene(rt, bytes),
        _ => print!(rt; "no such call"),
    }
}

// The number of words of the stored bytes, of which a record has at most 8,000. The last word may
// hold fewer than four.
fn stored_words(bytes: &[u8]) -> usize
    ensures { result ≤ 2000 }
{
    (list::count(bytes, 2) % (LONGEST + 1) + 3) / 4
}

// The number of words of a call's record: up to its voices or bytes, and theirs.
fn words_of(call: u32, bytes: &[u8]) -> usize {
    match call {
        0 => 13 + settings::voice_words(bytes, 13),
        1 => 3 + stored_words(bytes),
        _ => 1,
    }
}

pub fn print_record(rt: &impl Print, bytes: &[u8]) -> io::Result<usize> {
    let call = list::word(bytes, 0);
    print_call(rt, call, bytes)?;
    Ok(words_of(call, bytes))
}
