// The open calls of spectral-dsp, under the Rust's names and paths, and those on scene records, on
// a bank of voices and on a mixer of strips, which the Rust does not have. Each is defined, with
// its contract and its tests, in the crate of its kind.
#![tactic(auto)]

pub mod processing;

pub use bank_masks::read_masks;
pub use list_calls::{MaskWorkspace, advance_note_envelopes};
pub use mask_calls::{
    build_stereo_masks_with_prepared_spectrum, build_stereo_masks_with_voices_precomputed,
};
pub use mixer::{Mixer, new_mixer, request, turn};
pub use mixer_masks::{Served, serve};
pub use mono_calls::{build_mask, build_mask_with_voices, build_mask_with_voices_precomputed};
pub use motion_calls::{motion_attenuation_db, motion_compensation_gain, motion_openness};
pub use number_calls::{manual_gain_at_bin, note_emphasis_gain, note_gate_gain};
pub use record_calls::{read_scene, write_scene};
pub use voice_bank::{Bank, add_voice, change_voice, new_bank, remove_voice};
