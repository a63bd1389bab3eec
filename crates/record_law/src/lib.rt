// The promises of scene records, each as the contract of two calls made one after the other. The
// statements are in specs/.
#![tactic(auto)]

ghost use Rattle.std.specs.Prelude.{◌≡◌, length};
ghost use Rattle.answer.specs.Reply.{of_outcome};
ghost use Rattle.record_calls.specs.Records.{read_reply, write_reply, of_read, read_or_blank};
ghost use Rattle.record_law.specs.Law.{ComesBack, WrittenAsRead, OneRecord};

use answer::{Outcome, Refusal};
use record_calls::{read_scene, write_scene};
use scene::{Scene, blank_scene};

// What a read answers.
pub type SceneRead = Result<Scene, Refusal>;

// Writes a scene, and reads what the record then holds.
pub fn write_then_read(record: &mut [u8], scene: Scene) -> (Outcome, SceneRead)
    ensures written_value { of_outcome result.0 ≡ write_reply (length «record».old) scene }
    ensures comes_back { ComesBack scene (of_outcome result.0) (of_read result.1)
        (read_or_blank result.1) }
{
    let written = write_scene(record, scene);
    (written, read_scene(record))
}

// Reads a record, and writes its scene to another slice. Where the read is refused that is the blank
// scene, which no call accepts, so nothing is written.
pub fn read_then_write(record: &[u8], copy: &mut [u8]) -> (SceneRead, Outcome)
    ensures read_value { of_read result.0 ≡ read_reply «record».now }
    ensures written_as_read { length copy.old ≡ length «record».now →
        WrittenAsRead «record».now (of_read result.0) (of_outcome result.1) copy.new }
{
    match read_scene(record) {
        Ok(scene) => (Ok(scene), write_scene(copy, scene)),
        Err(refusal) => (Err(refusal), write_scene(copy, blank_scene())),
    }
}

// Reads two records.
pub fn read_two(a: &[u8], b: &[u8]) -> (SceneRead, SceneRead)
    ensures a_value { of_read result.0 ≡ read_reply a.now }
    ensures b_value { of_read result.1 ≡ read_reply b.now }
    ensures one_record { OneRecord a.now b.now (of_read result.0) (of_read result.1)
        (read_or_blank result.0) (read_or_blank result.1) }
{
    (read_scene(a), read_scene(b))
}
