// Upper bounds of lobes over a whole block of bins: where a bound is low enough, the block's bins
// need not be computed.
//
// Method. A bin whose logarithm lies in low..high is at least as far from a centre as the nearer
// end; where the centre lies between the ends, the least distance is 0. The Gaussian table never
// rises, and interpolation is never above the left entry: so the entry at the least distance bounds
// the bell at every bin. Two short loops run over the partials of a voice; the first has no table
// lookup and is vectorized.
#![tactic(auto)]

ghost use Rattle.std.specs.Prelude.{◌≡◌, ◌≤◌, ◌<◌, length, get_or};
ghost use Rattle.std.specs.Float.{nan};
ghost use Rattle.lists.specs.Maps.{map_range};
ghost use Rattle.gaussian.specs.Table.{gaussian_table};
ghost use Rattle.lobe_bounds.specs.Bound.{least_distance, nearest_place, bound_at, bound_of};
ghost use Rattle.lobe_bounds.specs.Bound.{Numbers, GreatestAt};

use float32::order::{clamp, max};
use gaussian::{GAUSSIAN_LUT_STEPS, GaussianTable};
use lobes::distances::in_widths;

// The centre is given as its logarithm.
fn least_distance(width: f32, center: f32, low: f32, high: f32) -> f32
    ensures { result ≡ least_distance width center low high }
{
    in_widths(width, max(max(low - center, center - high), 0.0))
}

fn nearest_place(width: f32, center: f32, peak: f32, low: f32, high: f32) -> f32
    ensures { result ≡ nearest_place width center peak low high }
{
    let distance = least_distance(width, center, low, high);
    gaussian::position(max(float32::powers::powi2(distance) - peak, 0.0))
}

// The positions of the least distances in the Gaussian table.
fn nearest_places(
    places: &mut [f32],
    centers: &[f32],
    peaks: &[f32],
    width: f32,
    low: f32,
    high: f32,
    count: usize,
)
    requires { (count ≤ length places.old)
        × (count ≤ length centers.now)
        × (count ≤ length peaks.now) }
    ensures { places.new ≡ map_range (λ p held. nearest_place width
        (get_or centers.now p nan) (get_or peaks.now p nan) low high) 0 count
        places.old }
{
    for p in 0..count {
        places[p] = nearest_place(width, centers[p], peaks[p], low, high);
    }
}

// The bound at a position: a lobe's strength times the entry on the left, at most the last.
fn bound_at(gaussians: &GaussianTable, strength: f32, place: f32) -> f32
    ensures { result ≡ bound_at strength place }
{
    let left = counts::floor_to_count(place).min(GAUSSIAN_LUT_STEPS);
    clamp(strength * gaussians.entries[left], 0.0, 1.0)
}

// Replaces each position by the bound there.
fn bounds_at_places(bounds: &mut [f32], gaussians: &GaussianTable, strengths: &[f32], count: usize)
    requires { (count ≤ length bounds.old) × (count ≤ length strengths.now) }
    ensures { bounds.new ≡ map_range
        (λ p place. bound_at (get_or strengths.now p nan) place) 0 count
        bounds.old }
{
    for p in 0..count {
        bounds[p] = bound_at(gaussians, strengths[p], bounds[p]);
    }
}

// The bounds of the first `count` lobes over a block of bins. Centres, strengths and peaks are
// separate arrays.
pub fn bounds_of(
    bounds: &mut [f32],
    gaussians: &GaussianTable,
    centers: &[f32],
    strengths: &[f32],
    peaks: &[f32],
    width: f32,
    low: f32,
    high: f32,
    count: usize,
)
    requires { (count ≤ length bounds.old)
        × (count ≤ length centers.now)
        × (count ≤ length strengths.now)
        × (count ≤ length peaks.now) }
    ensures { bounds.new ≡ map_range (λ p held. bound_of width
        (get_or strengths.now p nan) (get_or centers.now p nan)
        (get_or peaks.now p nan) low high) 0 count bounds.old }
{
    nearest_places(bounds, centers, peaks, width, low, high, count);
    bounds_at_places(bounds, gaussians, strengths, count);
}

// The index of the maximum of the first `count` numbers. The maximum so far is kept in a variable,
// so that no iteration waits for a load.
pub fn greatest_at(bounds: &[f32], count: usize) -> usize
    requires { (0 < count) × (count ≤ length bounds.now) × (Numbers bounds.now count) }
    ensures { GreatestAt bounds.now count result }
{
    let mut greatest = bounds[0];
    let mut place: usize = 0;
    for p in 1..count {
        let next = bounds[p];
        if greatest < next {
            greatest = next;
            place = p;
        }
    }
    place
}
