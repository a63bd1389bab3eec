// What a lobe opens over a row of bins, joined by maximum to what the bins hold.
#![tactic(auto)]

ghost use Rattle.std.specs.Prelude.{◌≡◌, ◌+◌, ◌-◌, ◌≤◌, length, get_or};
ghost use Rattle.std.specs.Float.{nan};
ghost use Rattle.lists.specs.Maps.{map_range};
ghost use Rattle.lobe_joins.specs.Joined.{joined};

// What a bin holds after a lobe is joined to it; `gain` is the voice's gain on this side.
fn joined(held: f32, opening: f32, gain: f32) -> f32
    ensures { result ≡ joined gain held opening }
{
    float32::order::max(held, opening * gain)
}

// Joins a chunk of openings to the bins from `start` up to but not including `end`. Bins past the
// end of `out` are skipped, so the unused second side of a mono mask needs no case of its own.
pub fn join(out: &mut [f32], openings: &[f32], gain: f32, start: usize, end: usize)
    requires { end ≤ start + length openings.now }
    ensures { out.new ≡ map_range
        (λ bin held. joined gain held (get_or openings.now (bin - start) nan)) start end
        out.old }
{
    let stop = end.min(out.len());
    for bin in start..stop {
        out[bin] = joined(out[bin], openings[bin - start], gain);
    }
}
