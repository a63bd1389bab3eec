// The mask builders. Voices are passed as a slice of records and the settings as one record by
// value, both with C's layout.
ghost use Rattle.std.specs.Prelude.{◌≡◌, ◌*◌, length, drop};
ghost use Rattle.answer.specs.Written.{written};
ghost use Rattle.lobes.specs.Distance.{lent, none};
ghost use Rattle.lobes.specs.Pan as side;
ghost use Rattle.scene.specs.Levels.{voices_of};
ghost use Rattle.mask_builder.specs.Mask.{mask_of};
ghost use Rattle.refusals.specs.Masks.{mask_reply, voices_mask_reply, tabled_mask_reply, stereo_reply};
ghost use Rattle.crossing.specs.Given.{Given};
ghost use Rattle.crossing.specs.MaskSettings.{config_of, with_settings};
ghost use Rattle.voice_records.specs.VoiceRecords.{voices_of_record};

use crossing::answers::give_outcome;
use crossing::settings::Settings;
use scene::MaskConfig;
use voice_records::VoiceRecord;

#[unsafe(no_mangle)]
pub extern "C" fn dovetable_build_mask_with_voices(
    output: &mut [f32],
    manual_mask_db: &[f32],
    voices: &[VoiceRecord],
    settings: Settings,
    place: &mut usize,
) -> u32
    ensures given { Given (with_settings settings (λ config. voices_mask_reply
        (length output.old) manual_mask_db.now
        (voices_of_record voices.now) (length voices.now) config)) result
        place.old place.new }
    ensures output_after { output.new ≡ written (with_settings settings (λ config. voices_mask_reply
        (length output.old) manual_mask_db.now
        (voices_of_record voices.now) (length voices.now) config)) (mask_of
        manual_mask_db.now (config_of settings) none side.mono
        (voices_of_record voices.now)) output.old }
{
    crossing_masks::mono(
        output,
        manual_mask_db,
        crossing_voices::gather(voices),
        voices.len(),
        settings,
        place,
    )
}

#[unsafe(no_mangle)]
pub extern "C" fn dovetable_build_mask_with_voices_precomputed(
    output: &mut [f32],
    manual_mask_db: &[f32],
    voices: &[VoiceRecord],
    settings: Settings,
    table: &[f32],
    place: &mut usize,
) -> u32
    ensures given { Given (with_settings settings (λ config. tabled_mask_reply
        (length output.old) manual_mask_db.now
        (voices_of_record voices.now) (length voices.now) config
        table.now)) result place.old place.new }
    ensures output_after { output.new ≡ written (with_settings settings (λ config. tabled_mask_reply
        (length output.old) manual_mask_db.now
        (voices_of_record voices.now) (length voices.now) config
        table.now)) (mask_of manual_mask_db.now (config_of settings)
        (lent table.now) side.mono (voices_of_record voices.now))
        output.old }
{
    crossing_masks::tabled(
        output,
        manual_mask_db,
        crossing_voices::gather(voices),
        voices.len(),
        settings,
        table,
        place,
    )
}

#[unsafe(no_mangle)]
pub extern "C" fn dovetable_build_stereo_masks_with_voices_precomputed(
    left: &mut [f32],
    right: &mut [f32],
    manual_mask_db: &[f32],
    voices: &[VoiceRecord],
    settings: Settings,
    table: &[f32],
    place: &mut usize,
) -> u32
    ensures given { Given (with_settings settings (λ config. stereo_reply
        (length left.old) (length right.old) manual_mask_db.now
        (voices_of_record voices.now) (length voices.now) config
        table.now)) result place.old place.new }
    ensures left_after { left.new ≡ written (with_settings settings (λ config. stereo_reply
        (length left.old) (length right.old) manual_mask_db.now
        (voices_of_record voices.now) (length voices.now) config
        table.now)) (mask_of manual_mask_db.now (config_of settings)
        (lent table.now) side.left (voices_of_record voices.now))
        left.old }
    ensures right_after { right.new ≡ written (with_settings settings (λ config. stereo_reply
        (length left.old) (length right.old) manual_mask_db.now
        (voices_of_record voices.now) (length voices.now) config
        table.now)) (mask_of manual_mask_db.now (config_of settings)
        (lent table.now) side.right (voices_of_record voices.now))
        right.old }
{
    crossing_masks::stereo(
        left,
        right,
        manual_mask_db,
        crossing_voices::gather(voices),
        voices.len(),
        settings,
        table,
        place,
    )
}

#[unsafe(no_mangle)]
pub extern "C" fn dovetable_build_stereo_masks_with_prepared_spectrum(
    left: &mut [f32],
    right: &mut [f32],
    manual_mask_db: &[f32],
    voices: &[VoiceRecord],
    settings: Settings,
    block: &[f32],
    place: &mut usize,
) -> u32
    ensures given { Given (with_settings settings (λ config. stereo_reply
        (length left.old) (length right.old) manual_mask_db.now
        (voices_of_record voices.now) (length voices.now) config
        (drop (4 * config.fft_size) block.now))) result place.old
        place.new }
    ensures left_after { left.new ≡ written (with_settings settings (λ config. stereo_reply
        (length left.old) (length right.old) manual_mask_db.now
        (voices_of_record voices.now) (length voices.now) config
        (drop (4 * config.fft_size) block.now))) (mask_of
        manual_mask_db.now (config_of settings)
        (lent (drop (4 * settings.fft_size) block.now)) side.left
        (voices_of_record voices.now)) left.old }
    ensures right_after { right.new ≡ written (with_settings settings (λ config. stereo_reply
        (length left.old) (length right.old) manual_mask_db.now
        (voices_of_record voices.now) (length voices.now) config
        (drop (4 * config.fft_size) block.now))) (mask_of
        manual_mask_db.now (config_of settings)
        (lent (drop (4 * settings.fft_size) block.now)) side.right
        (voices_of_record voices.now)) right.old }
{
    crossing_masks::prepared(
        left,
        right,
        manual_mask_db,
        crossing_voices::gather(voices),
        voices.len(),
        settings,
        block,
        place,
    )
}

// `build_mask` on 128 note levels.
#[unsafe(no_mangle)]
pub extern "C" fn dovetable_build_mask(
    output: &mut [f32],
    manual_mask_db: &[f32],
    note_levels: &[f32],
    settings: Settings,
    place: &mut usize,
) -> u32
    ensures given { Given (with_settings settings (λ config. mask_reply
        (length output.old) manual_mask_db.now note_levels.now
        config)) result place.old place.new }
    ensures output_after { output.new ≡ written (with_settings settings (λ config. mask_reply
        (length output.old) manual_mask_db.now note_levels.now
        config)) (mask_of manual_mask_db.now (config_of settings) none side.mono
        (voices_of note_levels.now)) output.old }
{
    match MaskConfig::try_from(settings) {
        Ok(config) => {
            let outcome = spectral_dsp::build_mask(output, manual_mask_db, note_levels, config);
            give_outcome(outcome, place)
        }
        Err(refusal) => give_outcome(Err(refusal), place),
    }
}
