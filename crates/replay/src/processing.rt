// The list `processing`. A record is its call's number and as many words as the call takes; a slice
// takes 8.
use crate::{list, slice, text};
use spectral_dsp::processing;
use spectral_dsp::processing::PreparedSpectrum;
use std::io;

fn print_build_dual_synthesis_window_on(
    rt: &impl Print,
    bytes: &[u8],
    analysis: &mut [f32],
    synthesis: &mut [f32],
) -> io::Result<()> {
    slice::fill(bytes, 2, analysis);
    slice::fill(bytes, 10, synthesis);
    let overlap = list::count(bytes, 1);
    text::print_outcome(
        rt,
        processing::build_dual_synthesis_window(analysis, synthesis, overlap),
    )?;
    text::print_hash(rt, synthesis)
}

// The list's longest windows have 16,386 values.
fn print_build_dual_synthesis_window(rt: &impl Print, bytes: &[u8]) -> io::Result<()> {
    print!(rt; "build_dual_synthesis_window")?;
    let mut analysis = [0.0f32; 16386];
    let mut synthesis = [0.0f32; 16386];
    let n = slice::length(bytes, 2, &analysis);
    let m = slice::length(bytes, 10, &synthesis);
    print_build_dual_synthesis_window_on(rt, bytes, &mut analysis[..n], &mut synthesis[..m])
}

fn print_soften_spectral_edges_on(
    rt: &impl Print,
    bytes: &[u8],
    source: &mut [f32],
    output: &mut [f32],
) -> io::Result<()> {
    slice::fill(bytes, 1, source);
    slice::fill(bytes, 9, output);
    text::print_outcome(rt, processing::soften_spectral_edges(source, output))?;
    text::print_hash(rt, output)
}

// The list's longest gain lists have 8,195 entries.
fn print_soften_spectral_edges(rt: &impl Print, bytes: &[u8]) -> io::Result<()> {
    print!(rt; "soften_spectral_edges")?;
    let mut source = [0.0f32; 8195];
    let mut output = [0.0f32; 8195];
    let n = slice::length(bytes, 1, &source);
    let m = slice::length(bytes, 9, &output);
    print_soften_spectral_edges_on(rt, bytes, &mut source[..n], &mut output[..m])
}

fn print_smooth_mask_in_db_on(
    rt: &impl Print,
    bytes: &[u8],
    current: &mut [f32],
    target: &mut [f32],
) -> io::Result<()> {
    slice::fill(bytes, 2, current);
    slice::fill(bytes, 10, target);
    let elapsed = list::float(bytes, 1);
    text::print_outcome(rt, processing::smooth_mask_in_db(current, target, elapsed))?;
    text::print_hash(rt, current)
}

// The list's longest gain lists have 8,195 entries.
fn print_smooth_mask_in_db(rt: &impl Print, bytes: &[u8]) -> io::Result<()> {
    print!(rt; "smooth_mask_in_db")?;
    let mut current = [0.0f32; 8195];
    let mut target = [0.0f32; 8195];
    let n = slice::length(bytes, 2, &current);
    let m = slice::length(bytes, 10, &target);
    print_smooth_mask_in_db_on(rt, bytes, &mut current[..n], &mut target[..m])
}

fn print_spectrum_on(
    rt: &impl Print,
    bytes: &[u8],
    window: &mut [f32],
    smooth: &mut [f32],
    block: &mut [f32],
) -> io::Result<()> {
    slice::fill(bytes, 3, window);
    slice::fill(bytes, 11, smooth);
    slice::fill(bytes, 19, block);
    let rate = list::float(bytes, 1);
    let overlap = list::count(bytes, 2);
    text::print_prepared(
        rt,
        PreparedSpectrum::new(rate, window, smooth, overlap, block),
    )?;
    text::print_hash(rt, block)
}

fn print_spectrum_in(
    rt: &impl Print,
    bytes: &[u8],
    window: &mut [f32],
    smooth: &mut [f32],
    block: &mut [f32],
) -> io::Result<()> {
    let n = slice::length(bytes, 3, window);
    let m = slice::length(bytes, 11, smooth);
    let l = slice::length(bytes, 19, block);
    print_spectrum_on(
        rt,
        bytes,
        &mut window[..n],
        &mut smooth[..m],
        &mut block[..l],
    )
}

// The list's longest windows have 32,768 values.
fn print_prepared_spectrum_new(rt: &impl Print, bytes: &[u8]) -> io::Result<()> {
    print!(rt; "prepared_spectrum_new")?;
    let mut window = [0.0f32; 32768];
    let mut smooth = [0.0f32; 32768];
    let mut block = [0.0f32; 147457];
    print_spectrum_in(rt, bytes, &mut window, &mut smooth, &mut block)
}

fn print_call(rt: &impl Print, call: u32, bytes: &[u8]) -> io::Result<()> {
    match call {
        0 => print_build_dual_synthesis_window(rt, bytes),
        1 => print_soften_spectral_edges(rt, bytes),
        2 => print_smooth_mask_in_db(rt, bytes),
        3 => print_prepared_spectrum_new(rt, bytes),
        _ => print!(rt; "no such call"),
    }
}

// The number of words of a call's record.
fn words_of(call: u32) -> usize {
    match call {
        0 => 18,
        1 => 17,
        2 => 18,
        3 => 27,
        _ => 1,
    }
}

pub fn print_record(rt: &impl Print, bytes: &[u8]) -> io::Result<usize> {
    let call = list::word(bytes, 0);
    print_call(rt, call, bytes)?;
    Ok(words_of(call))
}
