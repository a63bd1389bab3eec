// The open calls on the moving field: each tests what it is given and then makes one call of the
// core. `spectral_dsp` passes them on under the Rust's paths.
#![tactic(auto)]

ghost use Rattle.std.specs.Prelude.{◌≡◌};
ghost use Rattle.answer.specs.Reply.{of_answer};
ghost use Rattle.motion_calls.specs.Motion.{openness_reply, attenuation_reply};
ghost use Rattle.motion_calls.specs.Motion.{compensation_reply};

use answer::{Answer, Reason};
use scene::MotionConfig;

// How open the moving field is at a frequency: 1 is the crest, and 0 receives the whole
// attenuation.
pub fn motion_openness(frequency: f32, config: MotionConfig) -> Answer
    ensures { of_answer result ≡ openness_reply frequency config }
{
    if !limits::frequency(frequency) {
        return Answer::Refused(Reason::Setting, 0);
    }
    if !scene::motion_accepted(config) {
        return Answer::Refused(Reason::Setting, 0);
    }
    let sines = sine::table::sine_table();
    Answer::Gain(motion::field::openness(&sines, frequency, config))
}

// The moving field's attenuation at a frequency, in decibels.
pub fn motion_attenuation_db(frequency: f32, config: MotionConfig) -> Answer
    ensures { of_answer result ≡ attenuation_reply frequency config }
{
    if !limits::frequency(frequency) {
        return Answer::Refused(Reason::Setting, 0);
    }
    if !scene::motion_accepted(config) {
        return Answer::Refused(Reason::Setting, 0);
    }
    let sines = sine::table::sine_table();
    Answer::Gain(motion::field::attenuation_db(&sines, frequency, config))
}

// The gain that makes up for the moving field, over the whole spectrum.
pub fn motion_compensation_gain(config: MotionConfig) -> Answer
    ensures { of_answer result ≡ compensation_reply config }
{
    if !scene::motion_accepted(config) {
        return Answer::Refused(Reason::Setting, 0);
    }
    let powers = power::table::power_table();
    let sines = sine::table::sine_table();
    Answer::Gain(motion_compensation::compensation_gain(&powers, &sines, config))
}
