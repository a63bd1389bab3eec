// One lobe of a mask: the openness that a partial of a voice gives the bins around it.
#![tactic(auto)]

pub mod distances;
pub mod grids;
pub mod octaves;
pub mod pan;
pub mod tones;

// What all lobes of a mask share, computed once from its settings.
#[derive(Clone, Copy)]
pub struct Grid {
    pub nyquist: f32,
    // The bin spacing in hertz.
    pub bin_hz: f32,
    pub width: f32,
    // A lobe reaches from center * lower_ratio to center * upper_ratio.
    pub lower_ratio: f32,
    pub upper_ratio: f32,
    pub last_bin: usize,
    pub partials: usize,
    pub rolloff: f32,
}

// What all partials of a voice share.
#[derive(Clone, Copy)]
pub struct Tone {
    pub fundamental: f32,
    pub level: f32,
    pub rolloff: f32,
}

// A partial's lobe.
#[derive(Clone, Copy)]
pub struct Lobe {
    pub center: f32,
    // The centre's logarithm, computed once for all bins.
    pub center_log2: f32,
    // The voice's level times the partial's gain.
    pub strength: f32,
    pub first_bin: usize,
    pub last_bin: usize,
    // The square of the peak bin's distance from the centre. At the peak bin the lobe has its full
    // height.
    pub peak_squared: f32,
}
