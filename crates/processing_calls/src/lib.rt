// The open calls on windows and gain lists, and `PreparedSpectrum`. Each tests what it is given, in
// the order of document 01's numbers, and then makes one call of the core. `spectral_dsp` passes
// them on under the Rust's paths.
#![tactic(auto)]

ghost use Rattle.std.specs.Prelude.{◌≡◌, [], length};
ghost use Rattle.answer.specs.Reply.{done, of_outcome, of_prepared};
ghost use Rattle.answer.specs.Written.{written};
ghost use Rattle.windows.specs.Windows.{dual_of};
ghost use Rattle.smoothing.specs.Smoothing.{softened_of, smoothed_of};
ghost use Rattle.prepared_spectrum.specs.Block.{block_of};
ghost use Rattle.processing_calls.specs.Processing.{dual_reply, soften_reply, smooth_reply};
ghost use Rattle.processing_calls.specs.Processing.{prepared_reply};
ghost use Rattle.processing_calls.specs.DualWindow.{IsDual};

use answer::{CoherentGains, Outcome, Reason, Refusal};
use limits::{LEAST_GAIN, LEAST_WINDOW_VALUE, MOST_GAIN, MOST_WINDOW_VALUE, lengths};

// Build the canonical dual window for the given overlap.
pub fn build_dual_synthesis_window(
    analysis: &[f32],
    synthesis: &mut [f32],
    overlap: usize,
) -> Outcome
    ensures result_value { of_outcome result
        ≡ dual_reply analysis.now (length synthesis.old) overlap }
    ensures synthesis_after { synthesis.new ≡ written (of_outcome result)
        (dual_of analysis.now overlap) synthesis.old }
    ensures dual { of_outcome result ≡ done [] →
        IsDual analysis.now synthesis.new overlap }
{
    let length = analysis.len();
    if !lengths::window_length(length) {
        return Err(Reason::Length.into());
    }
    if length != synthesis.len() {
        return Err(Reason::Length.into());
    }
    if let Some(index) = limits::first_outside(analysis, LEAST_WINDOW_VALUE, MOST_WINDOW_VALUE) {
        return Err(Refusal::at(Reason::ListValue, index));
    }
    if !limits::overlap(overlap, length) {
        return Err(Reason::Overlap.into());
    }
    windows::dual_window(analysis, synthesis, overlap);
    Ok(())
}

// Smooth adjacent gain bins in decibels, retaining the edge bins.
pub fn soften_spectral_edges(source: &[f32], output: &mut [f32]) -> Outcome
    ensures result_value { of_outcome result
        ≡ soften_reply source.now (length output.old) }
    ensures output_after { output.new
        ≡ written (of_outcome result) (softened_of source.now) output.old }
{
    let length = source.len();
    if !lengths::gains_length(length) {
        return Err(Reason::Length.into());
    }
    if length != output.len() {
        return Err(Reason::Length.into());
    }
    if let Some(bin) = limits::first_outside(source, LEAST_GAIN, MOST_GAIN) {
        return Err(Refusal::at(Reason::ListValue, bin));
    }
    smoothing::soften(source, output);
    Ok(())
}

// Approach a target gain mask with a 30 ms time constant.
pub fn smooth_mask_in_db(current: &mut [f32], target: &[f32], elapsed_seconds: f32) -> Outcome
    ensures result_value { of_outcome result
        ≡ smooth_reply current.old target.now elapsed_seconds }
    ensures current_after { current.new ≡ written (of_outcome result)
        (smoothed_of current.old target.now elapsed_seconds)
        current.old }
{
    if !limits::elapsed(elapsed_seconds) {
        return Err(Reason::Setting.into());
    }
    let length = current.len();
    if !lengths::gains_length(length) {
        return Err(Reason::Length.into());
    }
    if length != target.len() {
        return Err(Reason::Length.into());
    }
    if let Some(bin) = limits::first_pair_outside(current, target, LEAST_GAIN, MOST_GAIN) {
        return Err(Refusal::at(Reason::ListValue, bin));
    }
    smoothing::smooth(current, target, elapsed_seconds);
    Ok(())
}

// Prepared analysis and synthesis windows and frequency lookup for one size, in a block that the
// caller holds and lends.
#[derive(Clone, Copy)]
pub struct PreparedSpectrum {}

impl PreparedSpectrum {
    // Fills the block: window, its dual, smooth window, its dual, logarithms. Answers both coherent
    // gains.
    pub fn new(
        sample_rate: f32,
        window: &[f32],
        smooth_analysis_window: &[f32],
        overlap: usize,
        block: &mut [f32],
    ) -> Result<CoherentGains, Refusal>
        ensures result_value { of_prepared result ≡ prepared_reply sample_rate window.now
            smooth_analysis_window.now overlap (length block.old) }
        ensures block_after { block.new ≡ written (of_prepared result) (block_of sample_rate
            window.now smooth_analysis_window.now overlap)
            block.old }
    {
        let size = window.len();
        if !limits::size(size) {
            return Err(Reason::SizeOrRate.into());
        }
        if !limits::rate(sample_rate) {
            return Err(Reason::SizeOrRate.into());
        }
        if size != smooth_analysis_window.len() {
            return Err(Reason::Length.into());
        }
        if block.len() != lengths::block_length(size) {
            return Err(Reason::Length.into());
        }
        if let Some(index) = limits::first_pair_outside(
            window,
            smooth_analysis_window,
            LEAST_WINDOW_VALUE,
            MOST_WINDOW_VALUE,
        ) {
            return Err(Refusal::at(Reason::ListValue, index));
        }
        if !limits::overlap(overlap, size) {
            return Err(Reason::Overlap.into());
        }
        prepared_spectrum::fill_block(sample_rate, window, smooth_analysis_window, overlap, block);
        Ok(CoherentGains {
            window: windows::coherent_gain(window),
            smooth_window: windows::coherent_gain(smooth_analysis_window),
        })
    }
}
