// The open calls on windows and gain lists.
ghost use Rattle.std.specs.Prelude.{◌≡◌, length};
ghost use Rattle.answer.specs.Written.{written};
ghost use Rattle.windows.specs.Windows.{dual_of};
ghost use Rattle.smoothing.specs.Smoothing.{softened_of, smoothed_of};
ghost use Rattle.prepared_spectrum.specs.Block.{block_of};
ghost use Rattle.processing_calls.specs.Processing.{dual_reply, soften_reply, smooth_reply, prepared_reply};
ghost use Rattle.crossing.specs.Given.{Given, GivenValues};

use crossing::answers::{give_outcome, give_prepared};
use spectral_dsp::processing::PreparedSpectrum;

#[unsafe(no_mangle)]
pub extern "C" fn dovetable_build_dual_synthesis_window(
    analysis: &[f32],
    synthesis: &mut [f32],
    overlap: usize,
    place: &mut usize,
) -> u32
    ensures given { Given
        (dual_reply analysis.now (length synthesis.old) overlap) result
        place.old place.new }
    ensures synthesis_after { synthesis.new ≡ written
        (dual_reply analysis.now (length synthesis.old) overlap)
        (dual_of analysis.now overlap) synthesis.old }
{
    let outcome = spectral_dsp::processing::build_dual_synthesis_window(
        analysis, synthesis, overlap,
    );
    give_outcome(outcome, place)
}

#[unsafe(no_mangle)]
pub extern "C" fn dovetable_soften_spectral_edges(
    source: &[f32],
    output: &mut [f32],
    place: &mut usize,
) -> u32
    ensures given { Given (soften_reply source.now (length output.old)) result
        place.old place.new }
    ensures output_after { output.new ≡ written
        (soften_reply source.now (length output.old))
        (softened_of source.now) output.old }
{
    let outcome = spectral_dsp::processing::soften_spectral_edges(source, output);
    give_outcome(outcome, place)
}

#[unsafe(no_mangle)]
pub extern "C" fn dovetable_smooth_mask_in_db(
    current: &mut [f32],
    target: &[f32],
    elapsed_seconds: f32,
    place: &mut usize,
) -> u32
    ensures given { Given
        (smooth_reply current.old target.now elapsed_seconds) result
        place.old place.new }
    ensures current_after { current.new ≡ written
        (smooth_reply current.old target.now elapsed_seconds)
        (smoothed_of current.old target.now elapsed_seconds)
        current.old }
{
    let outcome = spectral_dsp::processing::smooth_mask_in_db(current, target, elapsed_seconds);
    give_outcome(outcome, place)
}

// `PreparedSpectrum::new` on a lent block: the coherent gains of the window and of the smooth
// window.
#[unsafe(no_mangle)]
pub extern "C" fn dovetable_prepared_spectrum_new(
    sample_rate: f32,
    window: &[f32],
    smooth_analysis_window: &[f32],
    overlap: usize,
    block: &mut [f32],
    window_coherent_gain: &mut f32,
    smooth_window_coherent_gain: &mut f32,
    place: &mut usize,
) -> u32
    ensures given_values { GivenValues (prepared_reply sample_rate window.now
        smooth_analysis_window.now overlap (length block.old)) result
        place.old place.new window_coherent_gain.old
        window_coherent_gain.new smooth_window_coherent_gain.old
        smooth_window_coherent_gain.new }
    ensures block_after { block.new ≡ written (prepared_reply sample_rate window.now
        smooth_analysis_window.now overlap (length block.old)) (block_of
        sample_rate window.now smooth_analysis_window.now overlap)
        block.old }
{
    let prepared = PreparedSpectrum::new(
        sample_rate,
        window,
        smooth_analysis_window,
        overlap,
        block,
    );
    give_prepared(
        prepared,
        window_coherent_gain,
        smooth_window_coherent_gain,
        place,
    )
}
