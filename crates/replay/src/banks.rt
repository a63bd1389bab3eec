// The list `voice_banks`. A bank, empty at first, is kept from each record to the next. After the
// call's number stands an id, an id and a voice, or what a stereo call takes before its voices. The
// last number is no call: it puts a bank as a caller in C can make one.
use crate::{list, mask_records, settings, text};
use answer::Outcome;
use limits::lengths::MOST_VOICES;
use spectral_dsp::Bank;
use std::io;
use voice_records::VoiceRecord;

fn id_of(word: u32) -> u16 {
    (word % 65536) as u16
}

// The bank that a record gives. Each id is a step on from the one before; the places past the count
// are filled too, since a call must not look at them.
fn given_bank(bytes: &[u8]) -> Bank {
    let stored = list::past(bytes, 3);
    let step = id_of(list::word(bytes, 2));
    let mut id = id_of(list::word(bytes, 1));
    let mut bank = spectral_dsp::new_bank();
    bank.count = list::any_count(bytes, 3);
    for place in 0..MOST_VOICES {
        bank.ids[place] = id;
        bank.voices[place] = VoiceRecord::from(settings::voice_of(stored, place));
        id = id.wrapping_add(step);
    }
    bank
}

// The hash over the words of the voices that count, each after its id.
fn hash_of_bank(bank: &Bank) -> u64 {
    let mut hash = text::NO_BYTES;
    for place in 0..bank.count.min(MOST_VOICES) {
        hash = text::with_word(hash, u32::from(bank.ids[place]));
        hash = text::with_words(hash, &settings::words_of_record(bank.voices[place]));
    }
    hash
}

fn print_bank(rt: &impl Print, bank: &Bank) -> io::Result<()> {
    text::print_count(rt, bank.count)?;
    text::print_made(rt, hash_of_bank(bank))
}

// Prints the line of a bank that is new or given.
fn print_made(rt: &impl Print, name: &str, bank: &Bank) -> io::Result<()> {
    print!(rt; "{name}")?;
    print_bank(rt, bank)
}

// Prints the line of a call that changes a bank.
fn print_changed(rt: &impl Print, name: &str, outcome: Outcome, bank: &Bank) -> io::Result<()> {
    print!(rt; "{name}")?;
    text::print_outcome(rt, outcome)?;
    print_bank(rt, bank)
}

fn print_read_masks(rt: &impl Print, bytes: &[u8], bank: &Bank) -> io::Result<()> {
    print!(rt; "read_masks")?;
    let config = settings::config_at(bytes, 1);
    mask_records::print_stereo_masks(rt, bytes, |left, right, curve, table| {
        spectral_dsp::read_masks(left, right, curve, bank, config, table)
    })
}

// Makes the call of the record at a place on the bank, and prints its line.
fn print_call(rt: &impl Print, call: u32, bytes: &[u8], bank: &mut Bank) -> io::Result<()> {
    let id = id_of(list::word(bytes, 1));
    let voice = settings::voice_at(bytes, 2);
    match call {
        0 => {
            *bank = spectral_dsp::new_bank();
            print_made(rt, "new_bank", bank)
        }
        1 => {
            let outcome = spectral_dsp::add_voice(bank, id, voice);
            print_changed(rt, "add_voice", outcome, bank)
        }
        2 => {
            let outcome = spectral_dsp::remove_voice(bank, id);
            print_changed(rt, "remove_voice", outcome, bank)
        }
        3 => {
            let outcome = spectral_dsp::change_voice(bank, id, voice);
            print_changed(rt, "change_voice", outcome, bank)
        }
        4 => print_read_masks(rt, bytes, bank),
        5 => {
            *bank = given_bank(bytes);
            print_made(rt, "given", bank)
        }
        _ => print!(rt; "no such call"),
    }
}

// The number of words of a record, with the voices of a bank that is given.
fn words_of(call: u32, bytes: &[u8]) -> usize {
    match call {
        0 => 1,
        1 => 10,
        2 => 2,
        3 => 10,
        4 => 31,
        5 => 3 + settings::voice_words(bytes, 3),
        _ => 1,
    }
}

// Makes the call of a record on the bank that the one before left.
pub fn print_record(rt: &impl Print, bytes: &[u8], bank: &mut Bank) -> io::Result<usize> {
    let call = list::word(bytes, 0);
    print_call(rt, call, bytes, bank)?;
    Ok(words_of(call, bytes))
}
