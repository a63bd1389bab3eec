// The lists `masks` and `mask_refusals`. A record is its call's number, the settings, the lengths
// of the masks, the curve, and what else the call takes.
use crate::{list, settings, slice, text};
use answer::Outcome;
use spectral_dsp::Bank;
use std::io;

// What each entry of a mask holds before the call.
pub const BEFORE: f32 = 7.0;

// A table is a rate and a slice. Where the rate is not 0, the table is prepared at it, and its two
// values are put in once more.
pub fn fill_table(bytes: &[u8], past: usize, size: usize, table: &mut [f32]) {
    let words = list::past(bytes, past);
    slice::fill(words, 1, table);
    let rate = list::float(words, 0);
    if rate != 0.0 {
        // A table that is refused keeps what it holds.
        let _ = spectral_dsp::MaskWorkspace::prepare(table, rate, size);
        slice::put_both(words, 1, table);
    }
}

fn print_entry(rt: &impl Print, mask: &[f32], bin: usize) -> io::Result<()> {
    match mask.get(bin) {
        Some(gain) => text::print_float(rt, *gain),
        None => Ok(()),
    }
}

pub fn print_mask(rt: &impl Print, mask: &[f32]) -> io::Result<()> {
    text::print_hash(rt, mask)?;
    let n = mask.len();
    if 2 <= n {
        print_entry(rt, mask, 1)?;
        print_entry(rt, mask, n / 16)?;
        print_entry(rt, mask, n / 4)?;
        print_entry(rt, mask, n - 1)?;
    }
    Ok(())
}

fn print_build_mask_on(
    rt: &impl Print,
    bytes: &[u8],
    output: &mut [f32],
    curve: &mut [f32],
    levels: &mut [f32],
) -> io::Result<()> {
    slice::fill(bytes, 13, curve);
    slice::fill(bytes, 21, levels);
    let config = settings::config_at(bytes, 1);
    text::print_outcome(rt, spectral_dsp::build_mask(output, curve, levels, config))?;
    print_mask(rt, output)
}

// The longest slices of the lists have 8,194 entries.
fn print_build_mask(rt: &impl Print, bytes: &[u8]) -> io::Result<()> {
    print!(rt; "build_mask")?;
    let mut output = [BEFORE; 8194];
    let mut curve = [0.0f32; 8194];
    let mut levels = [0.0f32; 8194];
    let n = slice::length(bytes, 12, &output);
    let points = slice::length(bytes, 13, &curve);
    let notes = slice::length(bytes, 21, &levels);
    print_build_mask_on(
        rt,
        bytes,
        &mut output[..n],
        &mut curve[..points],
        &mut levels[..notes],
    )
}

fn print_with_voices_on(
    rt: &impl Print,
    bytes: &[u8],
    output: &mut [f32],
    curve: &mut [f32],
) -> io::Result<()> {
    slice::fill(bytes, 13, curve);
    let config = settings::config_at(bytes, 1);
    let count = list::count(bytes, 21);
    let voices = settings::voices_at(bytes, 21);
    text::print_outcome(
        rt,
        spectral_dsp::build_mask_with_voices(output, curve, voices, count, config),
    )?;
    print_mask(rt, output)
}

fn print_with_voices(rt: &impl Print, bytes: &[u8]) -> io::Result<()> {
    print!(rt; "build_mask_with_voices")?;
    let mut output = [BEFORE; 8194];
    let mut curve = [0.0f32; 8194];
    let n = slice::length(bytes, 12, &output);
    let points = slice::length(bytes, 13, &curve);
    print_with_voices_on(rt, bytes, &mut output[..n], &mut curve[..points])
}

fn print_precomputed_on(
    rt: &impl Print,
    bytes: &[u8],
    output: &mut [f32],
    curve: &mut [f32],
    table: &mut [f32],
) -> io::Result<()> {
    slice::fill(bytes, 13, curve);
    let config = settings::config_at(bytes, 1);
    fill_table(bytes, 21, config.fft_size, table);
    let count = list::count(bytes, 30);
    let voices = settings::voices_at(bytes, 30);
    text::print_outcome(
        rt,
        spectral_dsp::build_mask_with_voices_precomputed(
            output, curve, voices, count, config, table,
        ),
    )?;
    print_mask(rt, output)
}

fn print_precomputed(rt: &impl Print, bytes: &[u8]) -> io::Result<()> {
    print!(rt; "build_mask_with_voices_precomputed")?;
    let mut output = [BEFORE; 8194];
    let mut curve = [0.0f32; 8194];
    let mut table = [0.0f32; 8194];
    let n = slice::length(bytes, 12, &output);
    let points = slice::length(bytes, 13, &curve);
    let entries = slice::length(bytes, 22, &table);
    print_precomputed_on(
        rt,
        bytes,
        &mut output[..n],
        &mut curve[..points],
        &mut table[..entries],
    )
}

fn print_stereo_on<F: FnOnce(&mut [f32], &mut [f32], &[f32], &[f32]) -> Outcome>(
    rt: &impl Print,
    bytes: &[u8],
    left: &mut [f32],
    right: &mut [f32],
    curve: &mut [f32],
    table: &mut [f32],
    build: F,
) -> io::Result<()>
    requires { F.IsAlwaysCallable build }
{
    slice::fill(bytes, 14, curve);
    fill_table(bytes, 22, list::count(bytes, 2), table);
    text::print_outcome(rt, build(left, right, curve, table))?;
    print_mask(rt, left)?;
    print_mask(rt, right)
}

// Makes a stereo call, and prints its answer and both masks. The records of all such calls are the
// same up to the voices.
pub fn print_stereo_masks<F: FnOnce(&mut [f32], &mut [f32], &[f32], &[f32]) -> Outcome>(
    rt: &impl Print,
    bytes: &[u8],
    build: F,
) -> io::Result<()>
    requires { F.IsAlwaysCallable build }
{
    let mut left = [BEFORE; 8194];
    let mut right = [BEFORE; 8194];
    let mut curve = [0.0f32; 8194];
    let mut table = [0.0f32; 8194];
    let n = slice::length(bytes, 12, &left);
    let m = slice::length(bytes, 13, &right);
    let points = slice::length(bytes, 14, &curve);
    let entries = slice::length(bytes, 23, &table);
    print_stereo_on(
        rt,
        bytes,
        &mut left[..n],
        &mut right[..m],
        &mut curve[..points],
        &mut table[..entries],
        build,
    )
}

fn print_stereo(rt: &impl Print, bytes: &[u8]) -> io::Result<()> {
    print!(rt; "build_stereo_masks_with_voices_precomputed")?;
    let config = settings::config_at(bytes, 1);
    let count = list::count(bytes, 31);
    let voices = settings::voices_at(bytes, 31);
    print_stereo_masks(rt, bytes, |left, right, curve, table| {
        spectral_dsp::build_stereo_masks_with_voices_precomputed(
            left, right, curve, voices, count, config, table,
        )
    })
}

fn print_call(rt: &impl Print, call: u32, bytes: &[u8]) -> io::Result<()> {
    match call {
        0 => print_build_mask(rt, bytes),
        1 => print_with_voices(rt, bytes),
        2 => print_precomputed(rt, bytes),
        3 => print_stereo(rt, bytes),
        _ => print!(rt; "no such call"),
    }
}

// The number of words of a call's record: up to its voices, and theirs.
fn words_of(call: u32, bytes: &[u8]) -> usize {
    match call {
        0 => 29,
        1 => 21 + settings::voice_words(bytes, 21),
        2 => 30 + settings::voice_words(bytes, 30),
        3 => 31 + settings::voice_words(bytes, 31),
        _ => 1,
    }
}

pub fn print_record(rt: &impl Print, bytes: &[u8]) -> io::Result<usize> {
    let call = list::word(bytes, 0);
    print_call(rt, call, bytes)?;
    Ok(words_of(call, bytes))
}
