// Whether the lobes of a tone can raise any bin of a block of 64.
ghost use Rattle.std.specs.Prelude.{◌≡◌, true, ◌+◌, length};
ghost use Rattle.std.specs.Float.{binary32};
ghost use Rattle.std.specs.Float.Ieee.{mul};
ghost use Rattle.float_laws.specs.Rise.{Upto};
ghost use Rattle.block_rows.specs.Most.{NotAbove};
ghost use Rattle.block_rows.specs.Premises.{SidesGained};

use blocks::least_from;
use lobe_rows::Gains;

// Whether a bound on what the lobes open, times each side's gain, is not above the least that the
// side holds in the block from `start` on.
pub fn nothing_rises(
    first: &[f32],
    second: &[f32],
    scratch: &mut [f32],
    bound: f32,
    gains: Gains,
    start: usize,
) -> bool
    requires { (SidesGained first.now second.now gains)
        × (length scratch.old ≡ 64)
        × (Upto binary32 0 bound) }
    ensures { result ≡ true →
        (NotAbove (mul binary32 bound gains.first) start (start + 64) first.now) ×
        (NotAbove (mul binary32 bound gains.second) start (start + 64)
        second.now) }
{
    bound * gains.first <= least_from(scratch, first, start)
        && bound * gains.second <= least_from(scratch, second, start)
}
