// The list `mixers`. A mixer, new at first, and the scenes of its strips are kept from each record
// to the next. After the call's number stands a strip, or what serving takes besides the scenes.
// The last two numbers are no calls: they put a mixer as a caller in C can make one, and the scene
// of a strip.
use crate::{list, mask_records, settings, slice, text};
use mixer::STRIPS;
use scene::Scene;
use spectral_dsp::Mixer;
use std::io;

// The number of the record that gives a strip a scene.
const SCENE: u32 = 5;

// Puts the scene of a record in the place of its strip.
fn keep_scene(bytes: &[u8], scenes: &mut [Scene; STRIPS]) {
    let strip = list::count(bytes, 1);
    if strip < STRIPS {
        scenes[strip] = settings::scene_at(bytes, 2, 13);
    }
}

fn joined(high: u32, low: u32) -> u64 {
    u64::from(high) * 4294967296 + u64::from(low)
}

// The mixer that a record gives. The places past the count are filled too, since a call must not
// look at them.
fn given_mixer(bytes: &[u8]) -> Mixer {
    let mut mixer = spectral_dsp::new_mixer();
    mixer.count = list::any_count(bytes, 1);
    mixer.served = joined(list::word(bytes, 2), list::word(bytes, 3));
    for place in 0..STRIPS {
        mixer.strips[place] = list::any_count(bytes, 4 + place);
    }
    mixer
}

// Prints the counts of a mixer, and the strips that wait.
fn print_mixer(rt: &impl Print, mixer: &Mixer) -> io::Result<()> {
    text::print_count(rt, mixer.count)?;
    text::print_count(rt, mixer.served as usize)?;
    for place in 0..mixer.count.min(STRIPS) {
        text::print_count(rt, mixer.strips[place])?;
    }
    Ok(())
}

fn print_named(rt: &impl Print, named: Option<usize>) -> io::Result<()> {
    match named {
        Some(strip) => text::print_count(rt, strip),
        None => print!(rt; " nobody"),
    }
}

// Prints the line of a mixer that is new or given.
fn print_made(rt: &impl Print, name: &str, mixer: &Mixer) -> io::Result<()> {
    print!(rt; "{name}")?;
    print_mixer(rt, mixer)
}

fn print_request(rt: &impl Print, strip: usize, mixer: &mut Mixer) -> io::Result<()> {
    print!(rt; "request")?;
    text::print_outcome(rt, spectral_dsp::request(mixer, strip))?;
    print_mixer(rt, mixer)
}

fn print_turn(rt: &impl Print, mixer: &mut Mixer) -> io::Result<()> {
    print!(rt; "turn")?;
    print_named(rt, spectral_dsp::turn(mixer))?;
    print_mixer(rt, mixer)
}

fn print_serve_on(
    rt: &impl Print,
    bytes: &[u8],
    scenes: &[Scene; STRIPS],
    mixer: &mut Mixer,
    left: &mut [f32],
    right: &mut [f32],
    curve: &mut [f32],
    table: &mut [f32],
) -> io::Result<()> {
    slice::fill(bytes, 4, curve);
    mask_records::fill_table(bytes, 12, list::count(bytes, 1), table);
    let served = spectral_dsp::serve(left, right, curve, scenes, table, mixer);
    print_named(rt, served.named)?;
    text::print_outcome(rt, served.outcome)?;
    print_mixer(rt, mixer)?;
    mask_records::print_mask(rt, left)?;
    mask_records::print_mask(rt, right)
}

// The longest slices of the list have 8,194 entries.
fn print_serve(
    rt: &impl Print,
    bytes: &[u8],
    scenes: &[Scene; STRIPS],
    mixer: &mut Mixer,
) -> io::Result<()> {
    print!(rt; "serve")?;
    let mut left = [mask_records::BEFORE; 8194];
    let mut right = [mask_records::BEFORE; 8194];
    let mut curve = [0.0f32; 8194];
    let mut table = [0.0f32; 8194];
    let n = slice::length(bytes, 2, &left);
    let m = slice::length(bytes, 3, &right);
    let points = slice::length(bytes, 4, &curve);
    let entries = slice::length(bytes, 13, &table);
    print_serve_on(
        rt,
        bytes,
        scenes,
        mixer,
        &mut left[..n],
        &mut right[..m],
        &mut curve[..points],
        &mut table[..entries],
    )
}

fn print_scene(rt: &impl Print, strip: usize) -> io::Result<()> {
    print!(rt; "scene")?;
    text::print_count(rt, strip)
}

// Makes the call of the record at a place on the mixer, and prints its line.
fn print_call(
    rt: &impl Print,
    call: u32,
    bytes: &[u8],
    scenes: &[Scene; STRIPS],
    mixer: &mut Mixer,
) -> io::Result<()> {
    let strip = list::any_count(bytes, 1);
    match call {
        0 => {
            *mixer = spectral_dsp::new_mixer();
            print_made(rt, "new_mixer", mixer)
        }
        1 => print_request(rt, strip, mixer),
        2 => print_turn(rt, mixer),
        3 => print_serve(rt, bytes, scenes, mixer),
        4 => {
            *mixer = given_mixer(bytes);
            print_made(rt, "given", mixer)
        }
        SCENE => print_scene(rt, strip),
        _ => print!(rt; "no such call"),
    }
}

// The number of words of a record, with the voices of a scene.
fn words_of(call: u32, bytes: &[u8]) -> usize {
    match call {
        0 => 1,
        1 => 2,
        2 => 1,
        3 => 21,
        4 => 20,
        SCENE => 13 + settings::voice_words(bytes, 13),
        _ => 1,
    }
}

// Makes the call of a record on the mixer and the scenes that the one before left.
pub fn print_record(
    rt: &impl Print,
    bytes: &[u8],
    scenes: &mut [Scene; STRIPS],
    mixer: &mut Mixer,
) -> io::Result<usize> {
    let call = list::word(bytes, 0);
    if call == SCENE {
        keep_scene(bytes, scenes);
    }
    print_call(rt, call, bytes, scenes, mixer)?;
    Ok(words_of(call, bytes))
}
