// The open calls that answer a gain of the gate or of the drawn curve: each tests what it is given,
// in the order of document 01's numbers, and then makes one call of the core. `spectral_dsp` passes
// them on under the Rust's paths; those on the moving field are in `motion_calls`.
#![tactic(auto)]

ghost use Rattle.std.specs.Prelude.{◌≡◌};
ghost use Rattle.answer.specs.Reply.{of_answer};
ghost use Rattle.number_calls.specs.Gates.{note_emphasis_gain, note_gate_gain, manual_gain_at_bin};

use answer::{Answer, Reason};
use limits::lengths::MANUAL_MASK_POINTS;

// The lift of a fully open note centre: 6 dB for a narrow note, none for the widest.
pub fn note_emphasis_gain(width_cents: f32) -> Answer
    ensures { of_answer result ≡ note_emphasis_gain width_cents }
{
    if !limits::width(width_cents) {
        return Answer::Refused(Reason::Setting, 0);
    }
    Answer::Gain(masks::gates::emphasis(width_cents))
}

// Gain of the complete note layer at one bin. Closed regions follow the note depth while fully open
// note centres retain their width-compensated lift.
pub fn note_gate_gain(note_depth_db: f32, width_cents: f32, openness: f32) -> Answer
    ensures { of_answer result ≡ note_gate_gain note_depth_db width_cents openness }
{
    if !limits::note_depth(note_depth_db) {
        return Answer::Refused(Reason::Setting, 0);
    }
    if !limits::width(width_cents) {
        return Answer::Refused(Reason::Setting, 0);
    }
    if !float32::order::is_finite(openness) {
        return Answer::Refused(Reason::Setting, 0);
    }
    Answer::Gain(masks::gates::gate(note_depth_db, width_cents, openness))
}

// Gain that the drawn curve gives a bin.
pub fn manual_gain_at_bin(mask_db: &[f32], bin: usize, fft_size: usize) -> Answer
    ensures { of_answer result ≡ manual_gain_at_bin mask_db.now bin fft_size }
{
    if !limits::size(fft_size) {
        return Answer::Refused(Reason::SizeOrRate, 0);
    }
    if !limits::bin(bin) {
        return Answer::Refused(Reason::Setting, 0);
    }
    if mask_db.len() != MANUAL_MASK_POINTS {
        return Answer::Refused(Reason::Length, 0);
    }
    Answer::Gain(masks::manual::manual_gain(mask_db, bin, fft_size))
}
