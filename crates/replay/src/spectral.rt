// The list `spectral_dsp`. A record is its call's number and as many words as the call takes.
use crate::{list, settings, slice, text};
use answer::Envelopes;
use limits::lengths::{HELD_BYTES, MIDI_NOTES};
use scene::MotionConfig;
use std::io;

fn print_note_emphasis_gain(rt: &impl Print, bytes: &[u8]) -> io::Result<()> {
    print!(rt; "note_emphasis_gain")?;
    text::print_word(rt, list::word(bytes, 1))?;
    text::print_answer(rt, spectral_dsp::note_emphasis_gain(list::float(bytes, 1)))
}

fn print_note_gate_gain(rt: &impl Print, bytes: &[u8]) -> io::Result<()> {
    print!(rt; "note_gate_gain")?;
    for number in 1..4 {
        text::print_word(rt, list::word(bytes, number))?;
    }
    text::print_answer(
        rt,
        spectral_dsp::note_gate_gain(
            list::float(bytes, 1),
            list::float(bytes, 2),
            list::float(bytes, 3),
        ),
    )
}

fn print_manual_gain_on(rt: &impl Print, bytes: &[u8], curve: &mut [f32]) -> io::Result<()> {
    slice::fill(bytes, 3, curve);
    let bin = list::count(bytes, 1);
    let size = list::count(bytes, 2);
    text::print_answer(rt, spectral_dsp::manual_gain_at_bin(curve, bin, size))
}

// The list's longest curve has 8,194 points.
fn print_manual_gain_at_bin(rt: &impl Print, bytes: &[u8]) -> io::Result<()> {
    print!(rt; "manual_gain_at_bin")?;
    text::print_count(rt, list::count(bytes, 1))?;
    text::print_count(rt, list::count(bytes, 2))?;
    let mut room = [0.0f32; 8194];
    let points = slice::length(bytes, 3, &room);
    print_manual_gain_on(rt, bytes, &mut room[..points])
}

// The settings from four words, which are printed.
fn motion_at(rt: &impl Print, bytes: &[u8], past: usize) -> io::Result<MotionConfig> {
    let words = list::past(bytes, past);
    for number in 0..4 {
        text::print_word(rt, list::word(words, number))?;
    }
    Ok(settings::motion_at(bytes, past))
}

fn print_motion_openness(rt: &impl Print, bytes: &[u8]) -> io::Result<()> {
    print!(rt; "motion_openness")?;
    text::print_word(rt, list::word(bytes, 1))?;
    let motion = motion_at(rt, bytes, 2)?;
    text::print_answer(
        rt,
        spectral_dsp::motion_openness(list::float(bytes, 1), motion),
    )
}

fn print_motion_attenuation_db(rt: &impl Print, bytes: &[u8]) -> io::Result<()> {
    print!(rt; "motion_attenuation_db")?;
    text::print_word(rt, list::word(bytes, 1))?;
    let motion = motion_at(rt, bytes, 2)?;
    text::print_answer(
        rt,
        spectral_dsp::motion_attenuation_db(list::float(bytes, 1), motion),
    )
}

fn print_motion_compensation_gain(rt: &impl Print, bytes: &[u8]) -> io::Result<()> {
    print!(rt; "motion_compensation_gain")?;
    let motion = motion_at(rt, bytes, 1)?;
    text::print_answer(rt, spectral_dsp::motion_compensation_gain(motion))
}

// The 16 bytes of four words.
fn held_at(bytes: &[u8]) -> [u8; HELD_BYTES] {
    let mut held = [0u8; HELD_BYTES];
    for number in 0..HELD_BYTES {
        let word = list::word(bytes, 3 + number / list::WORD_BYTES);
        held[number] = word.to_be_bytes()[number % list::WORD_BYTES];
    }
    held
}

fn print_envelopes(rt: &impl Print, envelopes: Envelopes) -> io::Result<()> {
    text::print_outcome(rt, envelopes.outcome)?;
    text::print_hash(rt, &envelopes.levels)
}

fn print_advance_note_envelopes(rt: &impl Print, bytes: &[u8]) -> io::Result<()> {
    print!(rt; "advance_note_envelopes")?;
    let mut levels = [0.0f32; MIDI_NOTES];
    slice::fill(bytes, 7, &mut levels);
    print_envelopes(
        rt,
        spectral_dsp::advance_note_envelopes(
            levels,
            held_at(bytes),
            list::float(bytes, 1),
            list::float(bytes, 2),
        ),
    )
}

fn print_prepare_on(rt: &impl Print, bytes: &[u8], table: &mut [f32]) -> io::Result<()> {
    slice::fill(bytes, 3, table);
    let rate = list::float(bytes, 1);
    let size = list::count(bytes, 2);
    text::print_outcome(rt, spectral_dsp::MaskWorkspace::prepare(table, rate, size))?;
    text::print_hash(rt, table)
}

// The list's longest table has 16,386 entries.
fn print_prepare(rt: &impl Print, bytes: &[u8]) -> io::Result<()> {
    print!(rt; "prepare")?;
    let mut room = [0.0f32; 16386];
    let entries = slice::length(bytes, 3, &room);
    print_prepare_on(rt, bytes, &mut room[..entries])
}

fn print_call(rt: &impl Print, call: u32, bytes: &[u8]) -> io::Result<()> {
    match call {
        0 => print_note_emphasis_gain(rt, bytes),
        1 => print_note_gate_gain(rt, bytes),
        2 => print_manual_gain_at_bin(rt, bytes),
        3 => print_motion_openness(rt, bytes),
        4 => print_motion_attenuation_db(rt, bytes),
        5 => print_motion_compensation_gain(rt, bytes),
        6 => print_advance_note_envelopes(rt, bytes),
        7 => print_prepare(rt, bytes),
        _ => print!(rt; "no such call"),
    }
}

// The number of words of a call's record.
fn words_of(call: u32) -> usize {
    match call {
        0 => 2,
        1 => 4,
        2 => 11,
        3 => 6,
        4 => 6,
        5 => 5,
        6 => 15,
        7 => 11,
        _ => 1,
    }
}

pub fn print_record(rt: &impl Print, bytes: &[u8]) -> io::Result<usize> {
    let call = list::word(bytes, 0);
    print_call(rt, call, bytes)?;
    Ok(words_of(call))
}
