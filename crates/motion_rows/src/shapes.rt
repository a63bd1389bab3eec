// The openness at a row of positions, in octaves above the lowest frequency shown.
//
// Method. The shape is chosen once; then one short loop per stage runs over the row: angles,
// cosines, crests. A loop without a table lookup is vectorized.
ghost use Rattle.std.specs.Prelude.{◌≡◌, ℕ, ◌+◌, ◌≤◌, ◌<◌, length, get_or};
ghost use Rattle.std.specs.Float.{nan, binary32};
ghost use Rattle.std.specs.Float.Ieee.{add, sub, mul, div};
ghost use Rattle.lists.specs.Maps.{map_range};
ghost use Rattle.float32.specs.Constants as constants;
ghost use Rattle.float32.specs.Order as order;
ghost use Rattle.float32.specs.Powers.{fifth};
ghost use Rattle.float32.specs.Remainder.{zero, one, half};
ghost use Rattle.power.specs.Table.{power_table};
ghost use Rattle.sine.specs.Table.{sine_table};
ghost use Rattle.motion.specs.Shapes.{ripple, harmonic, broad_angle, middle_angle, detail_angle};
ghost use Rattle.motion.specs.Shapes.{layered, drift, window_exponent, window, saw};
ghost use Rattle.motion_rows.specs.Rows.{shaped};

use float32::constants::TAU;
use float32::order::clamp;
use float32::powers::powi5;
use motion::shapes::{broad_angle, detail_angle, layered, middle_angle, saw, window_exponent};
use power::table::PowerTable;
use power_rows::exp2::exp_row;
use scene::{MotionConfig, MotionShape};
use sine::table::SineTable;
use sine_rows::{cos_row, sin_row};

// How many positions of a Drift are computed together.
const ROW: usize = 256;

fn angles(row: &mut [f32], size: f32, phase: f32, count: usize)
    requires { count ≤ length row.old }
    ensures { row.new ≡ map_range
        (λ k x. mul binary32 constants.tau (sub binary32 (div binary32 x size) phase)) 0 count
        row.old }
{
    for k in 0..count {
        row[k] = TAU * (row[k] / size - phase);
    }
}

fn crests(row: &mut [f32], count: usize)
    requires { count ≤ length row.old }
    ensures { row.new ≡ map_range
        (λ k wave. order.clamp zero one (add binary32 half (mul binary32 half wave))) 0 count
        row.old }
{
    for k in 0..count {
        row[k] = clamp(0.5 + 0.5 * row[k], 0.0, 1.0);
    }
}

fn ripples(row: &mut [f32], sines: &SineTable, size: f32, phase: f32, count: usize)
    requires { count ≤ length row.old }
    ensures { row.new
        ≡ map_range (λ k x. ripple x size phase) 0 count row.old }
{
    angles(row, size, phase, count);
    cos_row(row, sines, count);
    crests(row, count);
}

fn fifth_powers(row: &mut [f32], count: usize)
    requires { count ≤ length row.old }
    ensures { row.new ≡ map_range (λ k v. fifth v) 0 count row.old }
{
    for k in 0..count {
        row[k] = powi5(row[k]);
    }
}

fn harmonics(row: &mut [f32], sines: &SineTable, size: f32, phase: f32, count: usize)
    requires { count ≤ length row.old }
    ensures { row.new
        ≡ map_range (λ k x. harmonic x size phase) 0 count row.old }
{
    ripples(row, sines, size, phase, count);
    fifth_powers(row, count);
}

// The angles of Drift's three layers at the positions from `start` on.
fn layer_angles(
    row: &[f32],
    broad: &mut [f32],
    middle: &mut [f32],
    detail: &mut [f32],
    size: f32,
    phase: f32,
    start: usize,
    count: usize,
)
    requires { (start + count ≤ length row.now)
        × (count ≤ length broad.old)
        × (count ≤ length middle.old)
        × (count ≤ length detail.old) }
    ensures { (broad.new ≡ map_range
        (λ k held. broad_angle (get_or row.now (start + k) nan) size phase) 0 count
        broad.old)
        × (middle.new ≡ map_range
        (λ k held. middle_angle (get_or row.now (start + k) nan) size phase) 0 count
        middle.old)
        × (detail.new ≡ map_range
        (λ k held. detail_angle (get_or row.now (start + k) nan) size phase) 0 count
        detail.old) }
{
    for k in 0..count {
        let x = row[start + k];
        broad[k] = broad_angle(x, size, phase);
        middle[k] = middle_angle(x, size, phase);
        detail[k] = detail_angle(x, size, phase);
    }
}

// Replaces the positions by the sum of their three layers.
fn layers(
    row: &mut [f32],
    broad: &[f32],
    middle: &[f32],
    detail: &[f32],
    size: f32,
    phase: f32,
    start: usize,
    count: usize,
)
    requires { (start + count ≤ length row.old)
        × (count ≤ length broad.now)
        × (count ≤ length middle.now)
        × (count ≤ length detail.now)
        × ((k : ℕ) → k < count →
        layered (get_or broad.now k nan) (get_or middle.now k nan) (get_or detail.now k nan)
        ≡ drift (get_or row.old (start + k) nan) size phase) }
    ensures { row.new
        ≡ map_range (λ i x. drift x size phase) start (start + count) row.old }
{
    let next = start + count;
    for i in start..next {
        row[i] = layered(broad[i - start], middle[i - start], detail[i - start]);
    }
}

// The drift at `count` positions from `start` on, for which the lent buffers have room.
fn few_drifts(
    row: &mut [f32],
    broad: &mut [f32],
    middle: &mut [f32],
    detail: &mut [f32],
    sines: &SineTable,
    size: f32,
    phase: f32,
    start: usize,
    count: usize,
)
    requires { (start + count ≤ length row.old)
        × (count ≤ length broad.old)
        × (count ≤ length middle.old)
        × (count ≤ length detail.old) }
    ensures { row.new
        ≡ map_range (λ i x. drift x size phase) start (start + count) row.old }
{
    layer_angles(row, broad, middle, detail, size, phase, start, count);
    sin_row(broad, sines, count);
    sin_row(middle, sines, count);
    sin_row(detail, sines, count);
    layers(row, broad, middle, detail, size, phase, start, count);
}

fn drifts(row: &mut [f32], sines: &SineTable, size: f32, phase: f32, count: usize)
    requires { count ≤ length row.old }
    ensures { row.new
        ≡ map_range (λ k x. drift x size phase) 0 count row.old }
{
    let mut broad = [0.0f32; ROW];
    let mut middle = [0.0f32; ROW];
    let mut detail = [0.0f32; ROW];
    for start in (0..count).step_by(ROW) {
        let few = (count - start).min(ROW);
        few_drifts(
            row,
            &mut broad,
            &mut middle,
            &mut detail,
            sines,
            size,
            phase,
            start,
            few,
        );
    }
}

fn window_exponents(row: &mut [f32], size: f32, phase: f32, count: usize)
    requires { count ≤ length row.old }
    ensures { row.new
        ≡ map_range (λ k x. window_exponent x size phase) 0 count row.old }
{
    for k in 0..count {
        row[k] = window_exponent(row[k], size, phase);
    }
}

fn windows(row: &mut [f32], powers: &PowerTable, size: f32, phase: f32, count: usize)
    requires { count ≤ length row.old }
    ensures { row.new
        ≡ map_range (λ k x. window x size phase) 0 count row.old }
{
    window_exponents(row, size, phase, count);
    exp_row(row, powers, count);
}

fn complements(row: &mut [f32], count: usize)
    requires { count ≤ length row.old }
    ensures { row.new
        ≡ map_range (λ k x. sub binary32 one x) 0 count row.old }
{
    for k in 0..count {
        row[k] = 1.0 - row[k];
    }
}

fn notches(row: &mut [f32], powers: &PowerTable, size: f32, phase: f32, count: usize)
    requires { count ≤ length row.old }
    ensures { row.new
        ≡ map_range (λ k x. sub binary32 one (window x size phase)) 0 count row.old }
{
    windows(row, powers, size, phase, count);
    complements(row, count);
}

fn saws(row: &mut [f32], size: f32, phase: f32, count: usize)
    requires { count ≤ length row.old }
    ensures { row.new
        ≡ map_range (λ k x. saw x size phase) 0 count row.old }
{
    for k in 0..count {
        row[k] = saw(row[k], size, phase);
    }
}

// Open everywhere.
pub(crate) fn ones(row: &mut [f32], count: usize)
    requires { count ≤ length row.old }
    ensures { row.new ≡ map_range (λ k held. one) 0 count row.old }
{
    row[..count].fill(1.0);
}

// Replaces each of the first `count` positions by the shape's openness there.
pub fn shape_row(
    row: &mut [f32],
    powers: &PowerTable,
    sines: &SineTable,
    field: MotionConfig,
    count: usize,
)
    requires { count ≤ length row.old }
    ensures { row.new
        ≡ map_range (λ k x. shaped field x) 0 count row.old }
{
    let size = field.size_octaves;
    let phase = field.phase;
    let shape = field.shape;
    match shape {
        MotionShape::Ripple => ripples(row, sines, size, phase, count),
        MotionShape::Harmonic => harmonics(row, sines, size, phase, count),
        MotionShape::Drift => drifts(row, sines, size, phase, count),
        MotionShape::Scan => windows(row, powers, size, phase, count),
        MotionShape::Notch => notches(row, powers, size, phase, count),
        MotionShape::Saw => saws(row, size, phase, count),
        MotionShape::Sprinkle => ones(row, count),
        MotionShape::Cloud => ones(row, count),
    }
}
