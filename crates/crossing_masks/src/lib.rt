// The mask builders from plain numbers: the settings as one record with C's layout, the voices as
// the core's array. A shape outside 0..7 is refusal 2, after refusal 1.
#![tactic(auto)]

ghost use Rattle.std.specs.Prelude.{◌≡◌, ◌*◌, length, take, drop};
ghost use Rattle.answer.specs.Written.{written};
ghost use Rattle.lobes.specs.Distance.{lent, none};
ghost use Rattle.lobes.specs.Pan as side;
ghost use Rattle.mask_builder.specs.Mask.{mask_of};
ghost use Rattle.refusals.specs.Masks.{voices_mask_reply, tabled_mask_reply, stereo_reply};
ghost use Rattle.crossing.specs.Given.{Given};
ghost use Rattle.crossing.specs.MaskSettings.{config_of, with_settings};

use crossing::answers::give_outcome;
use crossing::settings::Settings;
use limits::lengths::MOST_VOICES;
use scene::{MaskConfig, MaskVoice};

// Without a table: every bin by its own frequency.
pub fn mono(
    output: &mut [f32],
    manual_mask_db: &[f32],
    voices: [MaskVoice; MOST_VOICES],
    count: usize,
    settings: Settings,
    place: &mut usize,
) -> u32
    ensures given { Given (with_settings settings (λ config. voices_mask_reply
        (length output.old) manual_mask_db.now voices count config)) result
        place.old place.new }
    ensures output_after { output.new ≡ written (with_settings settings (λ config. voices_mask_reply
        (length output.old) manual_mask_db.now voices count config)) (mask_of
        manual_mask_db.now (config_of settings) none side.mono (take count voices))
        output.old }
{
    match MaskConfig::try_from(settings) {
        Ok(config) => {
            let outcome = mono_calls::build_mask_with_voices(
                output,
                manual_mask_db,
                voices,
                count,
                config,
            );
            give_outcome(outcome, place)
        }
        Err(refusal) => give_outcome(Err(refusal), place),
    }
}

// With the table of the bins' logarithms.
pub fn tabled(
    output: &mut [f32],
    manual_mask_db: &[f32],
    voices: [MaskVoice; MOST_VOICES],
    count: usize,
    settings: Settings,
    table: &[f32],
    place: &mut usize,
) -> u32
    ensures given { Given (with_settings settings (λ config. tabled_mask_reply
        (length output.old) manual_mask_db.now voices count config
        table.now)) result place.old place.new }
    ensures output_after { output.new ≡ written (with_settings settings (λ config. tabled_mask_reply
        (length output.old) manual_mask_db.now voices count config
        table.now)) (mask_of manual_mask_db.now (config_of settings)
        (lent table.now) side.mono (take count voices)) output.old }
{
    match MaskConfig::try_from(settings) {
        Ok(config) => {
            let outcome = mono_calls::build_mask_with_voices_precomputed(
                output,
                manual_mask_db,
                voices,
                count,
                config,
                table,
            );
            give_outcome(outcome, place)
        }
        Err(refusal) => give_outcome(Err(refusal), place),
    }
}

// Both masks of a stereo pair.
pub fn stereo(
    left: &mut [f32],
    right: &mut [f32],
    manual_mask_db: &[f32],
    voices: [MaskVoice; MOST_VOICES],
    count: usize,
    settings: Settings,
    table: &[f32],
    place: &mut usize,
) -> u32
    ensures given { Given (with_settings settings (λ config. stereo_reply
        (length left.old) (length right.old) manual_mask_db.now
        voices count config table.now)) result place.old place.new }
    ensures left_after { left.new ≡ written (with_settings settings (λ config. stereo_reply
        (length left.old) (length right.old) manual_mask_db.now
        voices count config table.now)) (mask_of manual_mask_db.now
        (config_of settings) (lent table.now) side.left (take count voices))
        left.old }
    ensures right_after { right.new ≡ written (with_settings settings (λ config. stereo_reply
        (length left.old) (length right.old) manual_mask_db.now
        voices count config table.now)) (mask_of manual_mask_db.now
        (config_of settings) (lent table.now) side.right (take count voices))
        right.old }
{
    match MaskConfig::try_from(settings) {
        Ok(config) => {
            let outcome = mask_calls::build_stereo_masks_with_voices_precomputed(
                left,
                right,
                manual_mask_db,
                voices,
                count,
                config,
                table,
            );
            give_outcome(outcome, place)
        }
        Err(refusal) => give_outcome(Err(refusal), place),
    }
}

// Uses the frequency table of a prepared spectrum, which begins after the four windows of its
// block.
pub fn prepared(
    left: &mut [f32],
    right: &mut [f32],
    manual_mask_db: &[f32],
    voices: [MaskVoice; MOST_VOICES],
    count: usize,
    settings: Settings,
    block: &[f32],
    place: &mut usize,
) -> u32
    ensures given { Given (with_settings settings (λ config. stereo_reply
        (length left.old) (length right.old) manual_mask_db.now
        voices count config (drop (4 * config.fft_size) block.now))) result
        place.old place.new }
    ensures left_after { left.new ≡ written (with_settings settings (λ config. stereo_reply
        (length left.old) (length right.old) manual_mask_db.now
        voices count config (drop (4 * config.fft_size) block.now))) (mask_of
        manual_mask_db.now (config_of settings)
        (lent (drop (4 * settings.fft_size) block.now)) side.left (take count voices))
        left.old }
    ensures right_after { right.new ≡ written (with_settings settings (λ config. stereo_reply
        (length left.old) (length right.old) manual_mask_db.now
        voices count config (drop (4 * config.fft_size) block.now))) (mask_of
        manual_mask_db.now (config_of settings)
        (lent (drop (4 * settings.fft_size) block.now)) side.right
        (take count voices)) right.old }
{
    match MaskConfig::try_from(settings) {
        Ok(config) => {
            let outcome = mask_calls::build_stereo_masks_with_prepared_spectrum(
                left,
                right,
                manual_mask_db,
                voices,
                count,
                config,
                block,
            );
            give_outcome(outcome, place)
        }
        Err(refusal) => give_outcome(Err(refusal), place),
    }
}
