// Rust's powi for the two exponents that the port uses, multiplied in document 01's order, and the
// Rust's smoothstep.
ghost use Rattle.std.specs.Prelude.{◌≡◌};
ghost use Rattle.float32.specs.Powers.{square, fifth};
ghost use Rattle.float32.specs.Smoothstep.{smoothstep};

pub fn powi2(v: f32) -> f32
    ensures { result ≡ square v }
{
    v * v
}

pub fn powi5(v: f32) -> f32
    ensures { result ≡ fifth v }
{
    let square = v * v;
    square * square * v
}

pub fn smoothstep(position: f32) -> f32
    ensures { result ≡ smoothstep position }
{
    position * position * (3.0 - 2.0 * position)
}
