// Builds both masks of a chord and prints their gains at its partials; with the argument --plot it
// writes a drawing of them in SVG.
#![tactic(auto)]

mod chord;
mod figures;
mod plot;
mod rows;

use chord::BINS;
use std::env::{Env, FillError};
use std::io;

fn show(
    rt: &impl Print,
    plotted: bool,
    table: &[f32; BINS],
    left: &[f32; BINS],
    right: &[f32; BINS],
) -> io::Result<()> {
    if plotted {
        return plot::print_plot(rt, table, left, right);
    }
    rows::print_rows(rt, left, right)
}

fn build_and_show(rt: &impl Print, plotted: bool, table: &[f32; BINS]) -> io::Result<()> {
    let mut left = [0.0f32; BINS];
    let mut right = [0.0f32; BINS];
    let curve = chord::curve();
    let outcome = spectral_dsp::build_stereo_masks_with_voices_precomputed(
        &mut left,
        &mut right,
        &curve,
        chord::voices(),
        chord::VOICES,
        chord::config(),
        table,
    );
    match outcome {
        Ok(()) => show(rt, plotted, table, &left, &right),
        Err(refusal) => println!(rt; "{refusal}"),
    }
}

fn run(rt: &impl Print, plotted: bool) -> io::Result<()> {
    let mut table = [0.0f32; BINS];
    let outcome = spectral_dsp::MaskWorkspace::prepare(
        &mut table,
        chord::SAMPLE_RATE,
        chord::FFT_SIZE,
    );
    match outcome {
        Ok(()) => build_and_show(rt, plotted, &table),
        Err(refusal) => println!(rt; "{refusal}"),
    }
}

fn print_usage(rt: &impl Print) -> io::Result<()> {
    println!(rt; "usage: panel [--plot]")
}

// Does what the argument says.
fn run_with(rt: &impl Print, word: &[u8]) -> io::Result<()> {
    if word == b"--plot".as_slice() {
        return run(rt, true);
    }
    print_usage(rt)
}

fn main(rt: HostRuntime) -> io::Result<()> {
    let mut word = [0u8; 4096];
    match rt.arg(1, &mut word) {
        Ok(n) => run_with(&rt, &word[..n]),
        Err(FillError::NotPresent) => run(&rt, false),
        Err(FillError::TooLong) => print_usage(&rt),
    }
}
