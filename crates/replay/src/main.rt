// Replays the oracle's lists of calls, one after the other: makes each call and prints its answer.
// The lists are in data/ and the oracle's answers in `stdout`. oracle/README.md states the formats.
// A list has a module that reads its records, and a line in `main`. Where records depend on those
// before them, the closure keeps what they leave.
#![tactic(auto)]

mod banks;
mod list;
mod mask_records;
mod mixers;
mod numbers;
mod oiko;
mod processing;
mod records;
mod settings;
mod slice;
mod spectral;
mod text;

use mixer::STRIPS;
use std::io;
use std::rt::Files;

// The longest list has this many bytes.
const LONGEST: usize = 65536;

// Replays the list in a file, one record after the other. `print_record` makes a record's call,
// prints its line without the end, and answers the number of its words. `bytes` is room for a list.
fn replay<F: FnMut(&[u8]) -> io::Result<usize>>(
    rt: &(impl Files + Print),
    path: &str,
    bytes: &mut [u8],
    mut print_record: F,
) -> io::Result<()>
    requires { F.IsAlwaysCallable print_record }
{
    let n = list::read(rt, path, bytes)?;
    let mut rest: &[u8] = &bytes[..n];
    // How long a record is is known once its call is read.
    while list::WORD_BYTES <= rest.len() {
        let words = print_record(rest)?;
        text::end_line(rt)?;
        rest = list::after(rest, words);
    }
    Ok(())
}

fn replay_banks(rt: &(impl Files + Print), bytes: &mut [u8]) -> io::Result<()> {
    let mut bank = spectral_dsp::new_bank();
    replay(rt, "voice_banks.bin", bytes, |record| {
        banks::print_record(rt, record, &mut bank)
    })
}

fn replay_mixers(rt: &(impl Files + Print), bytes: &mut [u8]) -> io::Result<()> {
    let mut scenes = [scene::blank_scene(); STRIPS];
    let mut mixer = spectral_dsp::new_mixer();
    replay(rt, "mixers.bin", bytes, |record| {
        mixers::print_record(rt, record, &mut scenes, &mut mixer)
    })
}

fn main(rt: HostRuntime) -> io::Result<()> {
    let mut room = [0u8; LONGEST];
    let bytes: &mut [u8] = &mut room;
    replay(&rt, "numbers.bin", bytes, |r| numbers::print_record(&rt, r))?;
    replay(&rt, "oiko_dsp.bin", bytes, |r| oiko::print_record(&rt, r))?;
    replay(
        &rt,
        "spectral_dsp.bin",
        bytes,
        |r| spectral::print_record(&rt, r),
    )?;
    replay(
        &rt,
        "processing.bin",
        bytes,
        |r| processing::print_record(&rt, r),
    )?;
    replay(
        &rt,
        "masks.bin",
        bytes,
        |r| mask_records::print_record(&rt, r),
    )?;
    replay(
        &rt,
        "mask_refusals.bin",
        bytes,
        |r| mask_records::print_record(&rt, r),
    )?;
    replay(
        &rt,
        "scene_records.bin",
        bytes,
        |r| records::print_record(&rt, r),
    )?;
    replay_banks(&rt, bytes)?;
    replay_mixers(&rt, bytes)
}
