// The shapes of the moving field. Each is a function of x, the octaves above the lowest frequency
// shown, of the size of its cycle in octaves, and of its phase, from 0 to 1. 1 is open, and 0
// receives the full depth.
ghost use Rattle.std.specs.Prelude.{◌≡◌};
ghost use Rattle.sine.specs.Table.{sine_table};
ghost use Rattle.motion.specs.Shapes.{ripple, harmonic, broad_angle, middle_angle, detail_angle};
ghost use Rattle.motion.specs.Shapes.{layered, drift, window, window_exponent, saw};

use float32::constants::TAU;
use float32::order::{abs, clamp, min};
use float32::powers::{powi2, powi5, smoothstep};
use float32::remainder::rem_euclid_one;
use sine::table::SineTable;
use sine::{cos, sin};

// The octaves from 20 to 20,000 Hz.
pub const DISPLAY_OCTAVES: f32 = 9.965_784;

// Where in its cycle the saw begins to fall.
const RESET_START: f32 = 0.9;

// A raised cosine.
pub(crate) fn ripple(sines: &SineTable, x: f32, size: f32, phase: f32) -> f32
    ensures { result ≡ ripple x size phase }
{
    let wave = cos(sines, TAU * (x / size - phase));
    clamp(0.5 + 0.5 * wave, 0.0, 1.0)
}

// The ripple to the fifth power, which narrows its crests.
pub(crate) fn harmonic(sines: &SineTable, x: f32, size: f32, phase: f32) -> f32
    ensures { result ≡ harmonic x size phase }
{
    powi5(ripple(sines, x, size, phase))
}

// The angles of Drift's three layers. Integer phase multipliers keep the field continuous when the
// free-running phase wraps, while the unrelated spatial scales prevent the layers from looking like
// a simple repeating comb.
pub fn broad_angle(x: f32, size: f32, phase: f32) -> f32
    ensures { result ≡ broad_angle x size phase }
{
    TAU * (x / (size * 2.7) - phase)
}

pub fn middle_angle(x: f32, size: f32, phase: f32) -> f32
    ensures { result ≡ middle_angle x size phase }
{
    TAU * (x / (size * 1.13) + phase * 2.0 + 0.19)
}

pub fn detail_angle(x: f32, size: f32, phase: f32) -> f32
    ensures { result ≡ detail_angle x size phase }
{
    TAU * (x / (size * 0.53) - phase * 3.0 + 0.61)
}

pub fn layered(broad: f32, middle: f32, detail: f32) -> f32
    ensures { result ≡ layered broad middle detail }
{
    clamp(0.5 + 0.25 * broad + 0.17 * middle + 0.08 * detail, 0.0, 1.0)
}

pub(crate) fn drift(sines: &SineTable, x: f32, size: f32, phase: f32) -> f32
    ensures { result ≡ drift x size phase }
{
    let broad = sin(sines, broad_angle(x, size, phase));
    let middle = sin(sines, middle_angle(x, size, phase));
    let detail = sin(sines, detail_angle(x, size, phase));
    layered(broad, middle, detail)
}

// A Gaussian window centred where the phase points, with the ends of the display joined: Scan is
// this window, Notch is 1 minus it.
pub(crate) fn window(x: f32, size: f32, phase: f32) -> f32
    ensures { result ≡ window x size phase }
{
    single_power::exp(window_exponent(x, size, phase))
}

pub fn window_exponent(x: f32, size: f32, phase: f32) -> f32
    ensures { result ≡ window_exponent x size phase }
{
    let center = phase * DISPLAY_OCTAVES;
    let distance = abs(x - center);
    let wrapped = min(distance, DISPLAY_OCTAVES - distance);
    -0.5 * powi2(wrapped / (size * 0.42))
}

// A linear rise, and a smooth fall in the last tenth of the cycle.
pub fn saw(x: f32, size: f32, phase: f32) -> f32
    ensures { result ≡ saw x size phase }
{
    let cycle = rem_euclid_one(x / size - phase);
    if cycle < RESET_START {
        return cycle / RESET_START;
    }
    1.0 - smoothstep((cycle - RESET_START) / (1.0 - RESET_START))
}
