// A voice as a record of plain numbers with C's layout, since an enum crosses to no caller in C: a
// voice of its record, the record of a voice, and the core's array of voices.
#![tactic(auto)]

ghost use Rattle.std.specs.Prelude.{◌≡◌};
ghost use Rattle.voice_records.specs.VoiceRecords.{voice_of, plain_voice, voices_of_record};

use limits::lengths::MOST_VOICES;
use scene::{MaskVoice, pitches, silent_voices};

// A voice with C's layout. Its pitch is a form, 0 for a note or 1 for hertz, a note, and one more
// number: the note's offset in semitones, or the hertz.
#[repr(C)]
#[derive(Clone, Copy, Debug, PartialEq)]
pub struct VoiceRecord {
    pub pitch_form: u8,
    pub note: u8,
    pub semitones_or_hertz: f32,
    pub level: f32,
    pub pressure: f32,
    pub timbre: f32,
    pub volume_gain: f32,
    pub expression_gain: f32,
    pub pan: f32,
}

impl From<VoiceRecord> for MaskVoice {
    ghost from_gives = { λ given voice. voice ≡ voice_of given };

    #[tactic(auto, unfolding(crate::specs::VoiceRecords::voice_of))]
    fn from(record: VoiceRecord) -> MaskVoice {
        let pitch = pitches::pitch_of(record.pitch_form, record.note, record.semitones_or_hertz);
        MaskVoice {
            pitch,
            level: record.level,
            pressure: record.pressure,
            timbre: record.timbre,
            volume_gain: record.volume_gain,
            expression_gain: record.expression_gain,
            pan: record.pan,
        }
    }
}

impl From<MaskVoice> for VoiceRecord {
    ghost from_gives = { λ voice given. given ≡ plain_voice voice };

    #[tactic(auto, unfolding(crate::specs::VoiceRecords::plain_voice))]
    fn from(voice: MaskVoice) -> VoiceRecord {
        VoiceRecord {
            pitch_form: pitches::form_of(voice.pitch),
            note: pitches::note_of(voice.pitch),
            semitones_or_hertz: pitches::number_of(voice.pitch),
            level: voice.level,
            pressure: voice.pressure,
            timbre: voice.timbre,
            volume_gain: voice.volume_gain,
            expression_gain: voice.expression_gain,
            pan: voice.pan,
        }
    }
}

// The voices of an array of records, all 128, one after the other: std has no `From` between arrays
// of other types.
pub fn voices_of(records: [VoiceRecord; MOST_VOICES]) -> [MaskVoice; MOST_VOICES]
    ensures { result ≡ voices_of_record records }
{
    let mut voices = silent_voices();
    for i in 0..MOST_VOICES {
        voices[i] = MaskVoice::from(records[i]);
    }
    voices
}
