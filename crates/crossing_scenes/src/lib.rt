// Scenes for a caller in C: one plain record with C's layout, passed and returned by value.
#![tactic(auto)]

ghost use Rattle.std.specs.Prelude.{◌≡◌, map, length};
ghost use Rattle.answer.specs.Reply.{of_refusal};
ghost use Rattle.answer.specs.Written.{written};
ghost use Rattle.crossing.specs.Given.{Given};
ghost use Rattle.crossing.specs.MaskSettings.{with_settings};
ghost use Rattle.scene.specs.Made.{blank_scene};
ghost use Rattle.voice_records.specs.VoiceRecords.{plain_voice};
ghost use Rattle.record_calls.specs.Records.{record_of, write_reply, read_reply, scene_read};
ghost use Rattle.crossing_scenes.specs.Scenes.{scene_of, plain_scene};
ghost use Rattle.crossing_scenes.specs.Scenes.{plain_read, ReadsScene};

use answer::Refusal;
use crossing::answers::give_outcome;
use crossing::settings::{Settings, config_of};
use limits::lengths::MOST_VOICES;
use record_calls::{read_scene, write_scene};
use scene::{MaskConfig, MaskVoice, Scene, blank_scene};
use voice_records::{VoiceRecord, voices_of};

// A scene with C's layout. The voices that count stand first.
#[repr(C)]
#[derive(Clone, Copy, Debug, PartialEq)]
pub struct PlainScene {
    pub settings: Settings,
    pub count: usize,
    pub voices: [VoiceRecord; MOST_VOICES],
}

// What reading a record answers, with C's layout: a number, 0 when done, a place, and the scene.
#[repr(C)]
#[derive(Clone, Copy, Debug, PartialEq)]
pub struct PlainSceneRead {
    pub number: u32,
    pub place: usize,
    pub scene: PlainScene,
}

// A shape above 7 counts as 7. It cannot fail, as callers have it; `try_from` refuses.
pub fn scene_of(plain: PlainScene) -> Scene
    ensures { result ≡ scene_of plain }
{
    Scene {
        config: config_of(plain.settings),
        voices: voices_of(plain.voices),
        count: plain.count,
    }
}

// A shape outside 0..7 is refusal 2, unless refusal 1 comes first.
impl TryFrom<PlainScene> for Scene {
    type Error = Refusal;

    ghost try_from_gives = { ReadsScene };

    fn try_from(plain: PlainScene) -> Result<Scene, Refusal> {
        MaskConfig::try_from(plain.settings)?;
        Ok(scene_of(plain))
    }
}

// One voice after the other: std has no `From` between arrays of other types.
fn plain_voices(voices: [MaskVoice; MOST_VOICES]) -> [VoiceRecord; MOST_VOICES]
    ensures { result ≡ map plain_voice voices }
{
    let first = VoiceRecord::from(voices[0]);
    let mut records = [first; MOST_VOICES];
    for i in 0..MOST_VOICES {
        records[i] = VoiceRecord::from(voices[i]);
    }
    records
}

impl From<Scene> for PlainScene {
    ghost from_gives = { λ scene plain. plain ≡ plain_scene scene };

    fn from(scene: Scene) -> PlainScene {
        let settings = Settings::from(scene.config);
        let voices = plain_voices(scene.voices);
        PlainScene {
            settings,
            count: scene.count,
            voices,
        }
    }
}

// `write_scene`. A shape outside 0..7 is refusal 2, after refusal 1.
pub fn write(record: &mut [u8], plain: PlainScene, place: &mut usize) -> u32
    ensures given { Given (with_settings plain.settings (λ config. write_reply
        (length «record».old) (scene_of plain))) result place.old
        place.new }
    ensures record_after { «record».new ≡ written (with_settings plain.settings (λ config.
        write_reply (length «record».old) (scene_of plain))) (record_of (scene_of plain))
        «record».old }
{
    match Scene::try_from(plain) {
        Ok(scene) => {
            let outcome = write_scene(record, scene);
            give_outcome(outcome, place)
        }
        Err(refusal) => give_outcome(Err(refusal), place),
    }
}

// What a refused read answers. A function of its own, so that a read that is done pays for one
// scene alone.
fn refused_read(refusal: Refusal) -> PlainSceneRead
    ensures { result ≡ plain_read (of_refusal refusal) blank_scene }
{
    PlainSceneRead {
        number: u32::from(refusal.reason.number()),
        place: refusal.place,
        scene: PlainScene::from(blank_scene()),
    }
}

// `read_scene`.
pub fn read(record: &[u8]) -> PlainSceneRead
    ensures { result ≡ plain_read (read_reply «record».now)
        (scene_read «record».now) }
{
    match read_scene(record) {
        Ok(scene) => PlainSceneRead {
            number: 0,
            place: 0,
            scene: PlainScene::from(scene),
        },
        Err(refusal) => refused_read(refusal),
    }
}
