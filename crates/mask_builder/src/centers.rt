// Whether the two sides of a stereo mask are equal because every voice that sounds is centred.
ghost use Rattle.std.specs.Prelude.{◌≡◌, ◌≤◌, take};
ghost use Rattle.limits.specs.Lengths.{most_voices};
ghost use Rattle.mask_builder.specs.Centered.{centered, all_centered};

use limits::lengths::MOST_VOICES;
use openness::voices::SKIPPED_LEVEL;
use scene::MaskVoice;

fn centered(voice: MaskVoice) -> bool
    ensures { result ≡ centered voice }
{
    if voice.level <= SKIPPED_LEVEL {
        return true;
    }
    lobes::pan::pan_of(voice) == 0.0
}

pub fn all_centered(voices: [MaskVoice; MOST_VOICES], count: usize) -> bool
    requires { count ≤ most_voices }
    ensures { result ≡ all_centered (take count voices) }
{
    for i in 0..count {
        if !centered(voices[i]) {
            return false;
        }
    }
    true
}
