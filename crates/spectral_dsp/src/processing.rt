// The open calls on windows and gain lists: numerical spectral processing.
pub use processing_calls::{
    PreparedSpectrum, build_dual_synthesis_window, smooth_mask_in_db, soften_spectral_edges,
};
