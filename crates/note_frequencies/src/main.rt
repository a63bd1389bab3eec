// Prints the frequency of each of the 128 notes in whole micro-hertz, rounded down.
#![tactic(auto)]

use std::io;

fn print_note(rt: &impl Print, note: u8) -> io::Result<()> {
    let microhertz = counts::millionths(pitch::note_hertz(note, 0.0));
    println!(rt; "{note} {microhertz}")
}

fn main(rt: HostRuntime) -> io::Result<()> {
    println!(rt; "note microhertz")?;
    for note in 0u8..128 {
        print_note(&rt, note)?;
    }
    Ok(())
}
