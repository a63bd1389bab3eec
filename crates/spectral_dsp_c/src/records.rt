// Scene records. A scene is passed and returned as one record by value, with C's layout.
ghost use Rattle.std.specs.Prelude.{◌≡◌, length};
ghost use Rattle.answer.specs.Written.{written};
ghost use Rattle.crossing.specs.Given.{Given};
ghost use Rattle.crossing.specs.MaskSettings.{with_settings};
ghost use Rattle.record_calls.specs.Records.{record_of, write_reply, read_reply, scene_read};
ghost use Rattle.crossing_scenes.specs.Scenes.{scene_of, plain_read};

use crossing_scenes::{PlainScene, PlainSceneRead};

#[unsafe(no_mangle)]
pub extern "C" fn dovetable_write_scene(
    record: &mut [u8],
    scene: PlainScene,
    place: &mut usize,
) -> u32
    ensures given { Given (with_settings scene.settings (λ config. write_reply
        (length «record».old) (scene_of scene))) result place.old
        place.new }
    ensures record_after { «record».new ≡ written (with_settings scene.settings (λ config.
        write_reply (length «record».old) (scene_of scene))) (record_of (scene_of scene))
        «record».old }
{
    crossing_scenes::write(record, scene, place)
}

#[unsafe(no_mangle)]
pub extern "C" fn dovetable_read_scene(record: &[u8]) -> PlainSceneRead
    ensures { result ≡ plain_read (read_reply «record».now)
        (scene_read «record».now) }
{
    crossing_scenes::read(record)
}
