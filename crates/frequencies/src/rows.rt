// The frequencies of a row of bins relative to one frequency.
ghost use Rattle.std.specs.Prelude.{◌≡◌, ◌+◌, ◌^◌, ◌≤◌, length};
ghost use Rattle.std.specs.Float.{binary32};
ghost use Rattle.std.specs.Float.Ieee.{div};
ghost use Rattle.lists.specs.Maps.{map_range};
ghost use Rattle.frequencies.specs.Frequency.{hertz};

// The frequencies of the bins from `start` on, each divided by `over`.
pub fn ratios(row: &mut [f32], bin_hz: f32, over: f32, start: usize, count: usize)
    requires { (count ≤ length row.old) × (start + count ≤ 2 ^ 24 + 1) }
    ensures { row.new ≡ map_range
        (λ k held. div binary32 (hertz bin_hz (start + k)) over) 0 count row.old }
{
    for k in 0..count {
        row[k] = (start + k) as f32 * bin_hz / over;
    }
}
