// An open call's answer, passed to a C caller: the number is returned, the values or the place are
// written.
ghost use Rattle.answer.specs.Reply.{of_answer, of_outcome, of_prepared, of_refusal};
ghost use Rattle.crossing.specs.Given.{Given, GivenValue, GivenValues};

use answer::{Answer, CoherentGains, Outcome, Refusal};

fn give_refusal(refusal: Refusal, place: &mut usize) -> u32
    ensures { Given (of_refusal refusal) result place.old place.new }
{
    *place = refusal.place;
    u32::from(refusal.reason.number())
}

pub fn give_answer(answer: Answer, value: &mut f32, place: &mut usize) -> u32
    ensures { GivenValue (of_answer answer) result place.old place.new
        value.old value.new }
{
    match answer {
        Answer::Gain(gain) => {
            *value = gain;
            0
        }
        Answer::Refused(reason, at) => give_refusal(Refusal::at(reason, at), place),
    }
}

pub fn give_outcome(outcome: Outcome, place: &mut usize) -> u32
    ensures { Given (of_outcome outcome) result place.old place.new }
{
    match outcome {
        Ok(()) => 0,
        Err(refusal) => give_refusal(refusal, place),
    }
}

pub fn give_prepared(
    prepared: Result<CoherentGains, Refusal>,
    first: &mut f32,
    second: &mut f32,
    place: &mut usize,
) -> u32
    ensures { GivenValues (of_prepared prepared) result place.old place.new
        first.old first.new second.old second.new }
{
    match prepared {
        Ok(gains) => {
            *first = gains.window;
            *second = gains.smooth_window;
            0
        }
        Err(refusal) => give_refusal(refusal, place),
    }
}
