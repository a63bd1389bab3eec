// The list `oiko_dsp`. A record is three words: the call, and its arguments.
use crate::{list, text};
use float32::bits::of_bits;
use std::io;

// A note is a byte: the word's last.
fn note_of(word: u32) -> u8 {
    (word % 256) as u8
}

fn print_db_to_gain(rt: &impl Print, db: u32) -> io::Result<()> {
    print!(rt; "db_to_gain {db:08x}")?;
    text::print_answer(rt, oiko_dsp::db_to_gain(of_bits(db)))
}

fn print_note_frequency(rt: &impl Print, note: u8) -> io::Result<()> {
    print!(rt; "note_frequency {note}")?;
    text::print_answer(rt, oiko_dsp::note_frequency(note))
}

fn print_note_frequency_with_tuning(rt: &impl Print, note: u8, tuning: u32) -> io::Result<()> {
    print!(rt; "note_frequency_with_tuning {note} {tuning:08x}")?;
    text::print_answer(
        rt,
        oiko_dsp::note_frequency_with_tuning(note, of_bits(tuning)),
    )
}

fn print_call(rt: &impl Print, call: u32, first: u32, second: u32) -> io::Result<()> {
    match call {
        0 => print_db_to_gain(rt, first),
        1 => print_note_frequency(rt, note_of(first)),
        2 => print_note_frequency_with_tuning(rt, note_of(first), second),
        _ => print!(rt; "no such call"),
    }
}

pub fn print_record(rt: &impl Print, bytes: &[u8]) -> io::Result<usize> {
    print_call(
        rt,
        list::word(bytes, 0),
        list::word(bytes, 1),
        list::word(bytes, 2),
    )?;
    Ok(3)
}
