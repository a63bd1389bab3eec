// The voices of a lent slice of records, as a caller in C passes them.
#![tactic(auto)]

ghost use Rattle.std.specs.Prelude.{◌≡◌};
ghost use Rattle.scene.specs.Gathered.{gathered};
ghost use Rattle.voice_records.specs.VoiceRecords.{voices_of_record};

use limits::lengths::MOST_VOICES;
use scene::MaskVoice;
use voice_records::VoiceRecord;

// Copies the voices of a slice of records into the core's array, the first 128 where there are
// more.
pub fn gather(records: &[VoiceRecord]) -> [MaskVoice; MOST_VOICES]
    ensures { result ≡ gathered (voices_of_record records.now) }
{
    let count = scene::held(records.len());
    let mut array = scene::silent_voices();
    for i in 0..count {
        array[i] = MaskVoice::from(records[i]);
    }
    array
}
