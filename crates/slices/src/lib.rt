// Copying a lent slice. std's `copy_from_slice` does the same, but by memmove, a name that the
// static library for C would then need from outside.
#![tactic(auto)]

ghost use Rattle.std.specs.Prelude.{◌≡◌, length};

// Rust's `output.copy_from_slice(source)`.
pub fn copy(source: &[f32], output: &mut [f32])
    requires { length source.now ≡ length output.old }
    ensures { output.new ≡ source.now }
{
    for index in 0..output.len() {
        output[index] = source[index];
    }
}
