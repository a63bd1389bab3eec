// The named constants of Rust's std::f32::consts that the port uses, with Rust's own digits.
ghost use Rattle.std.specs.Prelude.{◌≡◌, [], ◌∷◌};
ghost use Rattle.float32.specs.Constants.{log2_10, log2_e, log10_2, tau, frac_pi_4, sqrt_2};

pub const LOG2_10: f32 = 3.32192809488736234787031942948939018;

pub const LOG2_E: f32 = 1.44269504088896340735992468100189214;

pub const LOG10_2: f32 = 0.301029995663981195213738894724493027;

pub const TAU: f32 = 6.28318530717958647692528676655900577;

pub const FRAC_PI_4: f32 = 0.785398163397448309615660845819875721;

pub const SQRT_2: f32 = 1.41421356237309504880168872420969808;

// All of them in one contract, which fixes the bits of each: a constant has no contract of its own.
pub fn all_constants() -> [f32; 6]
    ensures { result ≡ log2_10 ∷ log2_e ∷ log10_2 ∷ tau ∷ frac_pi_4 ∷ sqrt_2 ∷ [] }
{
    [LOG2_10, LOG2_E, LOG10_2, TAU, FRAC_PI_4, SQRT_2]
}
