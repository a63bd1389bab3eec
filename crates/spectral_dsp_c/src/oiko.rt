// The open calls of oiko-dsp.
ghost use Rattle.oiko_dsp.specs.Calls.{db_to_gain, note_frequency, note_frequency_with_tuning};
ghost use Rattle.crossing.specs.Given.{GivenValue};

use crossing::answers::give_answer;

#[unsafe(no_mangle)]
pub extern "C" fn dovetable_db_to_gain(db: f32, gain: &mut f32, place: &mut usize) -> u32
    ensures { GivenValue (db_to_gain db) result place.old place.new
        gain.old gain.new }
{
    give_answer(oiko_dsp::db_to_gain(db), gain, place)
}

#[unsafe(no_mangle)]
pub extern "C" fn dovetable_note_frequency(note: u8, hertz: &mut f32, place: &mut usize) -> u32
    ensures { GivenValue (note_frequency note) result place.old place.new
        hertz.old hertz.new }
{
    give_answer(oiko_dsp::note_frequency(note), hertz, place)
}

#[unsafe(no_mangle)]
pub extern "C" fn dovetable_note_frequency_with_tuning(
    note: u8,
    tuning_semitones: f32,
    hertz: &mut f32,
    place: &mut usize,
) -> u32
    ensures { GivenValue (note_frequency_with_tuning note tuning_semitones) result
        place.old place.new hertz.old hertz.new }
{
    give_answer(
        oiko_dsp::note_frequency_with_tuning(note, tuning_semitones),
        hertz,
        place,
    )
}
