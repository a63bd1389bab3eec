// The gains at the bins closest to the chord's partials, in ascending order, one row per bin.
use crate::chord;
use crate::chord::{BIN_HZ, BINS};
use crate::figures::print_decibels;
use answer::Answer;
use counts::{floor_to_count, millionths};
use scene::{MaskVoice, Pitch};
use std::io;

fn mark(marked: &mut [bool; BINS], bin: usize) {
    if bin < BINS {
        marked[bin] = true;
    }
}

fn closest_bin(hertz: f32) -> usize {
    floor_to_count(hertz / BIN_HZ + 0.5)
}

fn mark_partials(marked: &mut [bool; BINS], first: f32) {
    for partial in 1..=chord::PARTIALS {
        mark(marked, closest_bin(first * partial as f32));
    }
}

fn mark_note(marked: &mut [bool; BINS], note: u8, tuning_semitones: f32) {
    match oiko_dsp::note_frequency_with_tuning(note, tuning_semitones) {
        Answer::Gain(hertz) => mark_partials(marked, hertz),
        Answer::Refused(_, _) => {}
    }
}

fn mark_voice(marked: &mut [bool; BINS], voice: MaskVoice) {
    match voice.pitch {
        Pitch::Note(note, tuning_semitones) => mark_note(marked, note, tuning_semitones),
        Pitch::Hertz(hertz) => mark_partials(marked, hertz),
    }
}

fn mark_chord(marked: &mut [bool; BINS]) {
    for voice in &chord::voices()[..chord::VOICES] {
        mark_voice(marked, *voice);
    }
}

fn print_row(rt: &impl Print, bin: u16, left: f32, right: f32) -> io::Result<()> {
    let hertz = floor_to_count(bin as f32 * BIN_HZ);
    print!(rt;
        "{bin:>4}{hertz:>7}{:>12}{:>12}",
        millionths(left),
        millionths(right)
    )?;
    print_decibels(rt, 10, left)?;
    print_decibels(rt, 10, right)?;
    println!(rt; "")
}

fn print_heading(rt: &impl Print) -> io::Result<()> {
    println!(rt; "C minor seventh at 48000 Hz, size 8192: the bins closest to its partials")?;
    println!(rt; "                   gain, millionths            decibels")?;
    println!(rt; " bin  hertz        left       right      left     right")
}

pub fn print_rows(rt: &impl Print, left: &[f32; BINS], right: &[f32; BINS]) -> io::Result<()> {
    print_heading(rt)?;
    let mut marked = [false; BINS];
    mark_chord(&mut marked);
    for bin in 0u16..4097 {
        let at = bin as usize;
        if marked[at] {
            print_row(rt, bin, left[at], right[at])?;
        }
    }
    Ok(())
}
