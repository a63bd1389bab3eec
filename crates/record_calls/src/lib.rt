// Scene records: the open calls that write a scene as bytes and read it back. Each tests what it is
// given first.
#![tactic(auto)]

ghost use Rattle.std.specs.Prelude.{◌≡◌, length};
ghost use Rattle.answer.specs.Reply.{of_outcome};
ghost use Rattle.answer.specs.Written.{written};
ghost use Rattle.refusals.specs.Masks.{first, settings_reply, voices_reply};
ghost use Rattle.record_calls.specs.Records.{record_of, write_reply, well_formed};
ghost use Rattle.record_calls.specs.Records.{read_reply, scene_read, of_read, read_or_blank};

use answer::{Outcome, Reason, Refusal};
use limits::lengths::{RECORD_HEAD, record_length};
use record_heads::{count_of, head_at, put_head, settings_at, zero_bits};
use record_voices::{pitches_allowed, put_voices, voices_at};
use refusals::{of_settings, of_voices};
use scene::{Scene, held};

// Refusals 1 to 5 of a scene that is to be written: the settings, the number of voices, the
// record's length, and the voices.
fn of_scene(scene: &Scene, lengths: bool) -> Outcome
    ensures { of_outcome result ≡ first (settings_reply scene.now.config)
        (voices_reply scene.now.voices scene.now.count lengths) }
{
    of_settings(scene.config)?;
    of_voices(scene.voices, scene.count, lengths)
}

// Writes a scene as a record, which has 31 bytes and 29 for each voice.
pub fn write_scene(record: &mut [u8], scene: Scene) -> Outcome
    ensures result_value { of_outcome result ≡ write_reply (length «record».old) scene }
    ensures record_after { «record».new
        ≡ written (of_outcome result) (record_of scene) «record».old }
{
    // Over 128 voices are refused before a length counts, so that any length will do for them.
    let length = record_length(held(scene.count));
    of_scene(&scene, record.len() == length)?;
    put_head(record, scene.config, scene.count);
    put_voices(record, RECORD_HEAD, scene.voices, scene.count);
    Ok(())
}

// The test of refusal 9: the length, and the bits that are always zero.
fn well_formed(record: &[u8]) -> bool
    ensures { result ≡ well_formed «record».now }
{
    if record.len() < RECORD_HEAD {
        return false;
    }
    let head = head_at(record);
    let count = count_of(head);
    if record.len() != record_length(count) {
        return false;
    }
    zero_bits(head) && pitches_allowed(record, RECORD_HEAD, count)
}

// Reads the scene of a record.
pub fn read_scene(record: &[u8]) -> Result<Scene, Refusal>
    ensures outcome_value { of_read result ≡ read_reply «record».now }
    ensures scene_value { read_or_blank result ≡ scene_read «record».now }
{
    if !well_formed(record) {
        return Err(Reason::Record.into());
    }
    let count = count_of(head_at(record));
    let config = settings_at(record);
    // Of over 128 voices, which are refused, the array holds the first.
    let voices = voices_at(record, RECORD_HEAD, held(count));
    of_settings(config)?;
    of_voices(voices, count, true)?;
    Ok(Scene {
        config,
        voices,
        count,
    })
}
