// Prepared analysis/synthesis windows and frequency lookup for one FFT size, in one block: window,
// its dual, smooth window, its dual, logarithms. Filled during activation; processing only reads
// it.
#![tactic(auto)]

ghost use Rattle.std.specs.Prelude.{◌≡◌, ◌*◌, ◌≤◌, ◌<◌, length};
ghost use Rattle.limits.specs.Lengths.{most_size, block_length};
ghost use Rattle.prepared_spectrum.specs.Block.{pair_of, block_of};

// A window and, after it, its dual.
fn fill_pair(window: &[f32], overlap: usize, block: &mut [f32])
    requires { (length block.old ≡ 2 * length window.now) × (0 < overlap) }
    ensures { block.new ≡ pair_of window.now overlap }
{
    let size = window.len();
    slices::copy(window, &mut block[..size]);
    windows::dual_window(window, &mut block[size..], overlap);
}

// The frequency table begins after the four windows.
pub fn fill_block(
    sample_rate: f32,
    window: &[f32],
    smooth: &[f32],
    overlap: usize,
    block: &mut [f32],
)
    requires { (length window.now ≤ most_size)
        × (length smooth.now ≡ length window.now)
        × (length block.old ≡ block_length (length window.now))
        × (0 < overlap) }
    ensures { block.new
        ≡ block_of sample_rate window.now smooth.now overlap }
{
    let size = window.len();
    let middle = 2 * size;
    let table = 4 * size;
    fill_pair(window, overlap, &mut block[..middle]);
    fill_pair(smooth, overlap, &mut block[middle..table]);
    frequencies::fill(&mut block[table..], sample_rate, size);
}
