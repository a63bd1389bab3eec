// The head of a scene record: the small fields in three bytes, then the floats of the settings.
#![tactic(auto)]

ghost use Rattle.std.specs.Prelude.{◌≡◌, ◌/◌, ◌^◌, ◌≤◌, ◌<◌, eqb, length};
ghost use Rattle.std.specs.Int.Bits.{bit_and};
ghost use Rattle.lists.specs.Stores.{stored};
ghost use Rattle.limits.specs.Lengths.{record_head};
ghost use Rattle.record_heads.specs.Heads.{FieldsFit};
ghost use Rattle.record_heads.specs.Heads.{head_number, settings_floats, head_bytes};
ghost use Rattle.record_heads.specs.Heads.{head_in, count_of, zero_bits, settings_of, settings_in};

use record_words::{FLOATS, floats_at, put_floats, put_three, three_at};
use scene::{MaskConfig, MotionConfig};

// The small fields take this many bytes.
const FIELDS: usize = 3;

// The small fields as one number: each stands behind the ones before it, and three zero bits behind
// the last.
fn head_number(config: MaskConfig, count: usize) -> u32
    requires { FieldsFit config count }
    ensures { result ≡ head_number config count }
{
    let log = config.fft_size.trailing_zeros();
    let and_layer = log * 2 + u32::from(config.note_layer_enabled);
    let and_shape = and_layer * 8 + u32::from(config.motion.shape);
    let and_partials = and_shape * 32 + config.partials as u32;
    (and_partials * 256 + count as u32) * 8
}

fn settings_floats(config: MaskConfig) -> [f32; FLOATS]
    ensures { result ≡ settings_floats config }
{
    let motion = config.motion;
    [
        config.sample_rate,
        config.note_depth_db,
        config.width_cents,
        config.harmonic_rolloff_db_per_octave,
        motion.depth_db,
        motion.phase,
        motion.size_octaves,
    ]
}

// Writes the head of a scene with these settings and so many voices.
pub fn put_head(record: &mut [u8], config: MaskConfig, count: usize)
    requires in_bounds { record_head ≤ length «record».old }
    requires fields_fit { FieldsFit config count }
    ensures { «record».new
        ≡ stored «record».old 0 (head_bytes config count) }
{
    put_three(record, 0, head_number(config, count));
    put_floats(record, FIELDS, settings_floats(config));
}

// The small fields of a record, as one number.
pub fn head_at(record: &[u8]) -> u32
    requires { record_head ≤ length «record».now }
    ensures { (result ≡ head_in «record».now) × (result < 2 ^ 24) }
{
    three_at(record, 0)
}

// A field: the bits of a mask, so many places from a number's end.
fn field_at(number: u32, places: u8, mask: u32) -> u32
    requires { places < 32 }
    ensures { result ≡ bit_and (number / 2 ^ places) mask }
{
    (number >> places) & mask
}

pub fn count_of(number: u32) -> usize
    ensures { (result ≡ count_of number) × (result ≤ 255) }
{
    field_at(number, 3, 255) as usize
}

// Whether the three bits at the end are zero.
pub fn zero_bits(number: u32) -> bool
    ensures { result ≡ zero_bits number }
{
    field_at(number, 0, 7) == 0
}

fn motion_of(number: u32, floats: [f32; FLOATS]) -> MotionConfig
    ensures { result ≡ (settings_of number floats).motion }
{
    MotionConfig {
        shape: scene::shape_of(field_at(number, 16, 7)),
        depth_db: floats[4],
        phase: floats[5],
        size_octaves: floats[6],
    }
}

fn settings_of(number: u32, floats: [f32; FLOATS]) -> MaskConfig
    ensures { result ≡ settings_of number floats }
{
    let motion = motion_of(number, floats);
    MaskConfig {
        sample_rate: floats[0],
        fft_size: 1usize << field_at(number, 20, 15),
        note_depth_db: floats[1],
        note_layer_enabled: field_at(number, 19, 1) == 1,
        width_cents: floats[2],
        partials: field_at(number, 11, 31) as usize,
        harmonic_rolloff_db_per_octave: floats[3],
        motion,
    }
}

pub fn settings_at(record: &[u8]) -> MaskConfig
    requires { record_head ≤ length «record».now }
    ensures { result ≡ settings_in «record».now }
{
    settings_of(head_at(record), floats_at(record, FIELDS))
}
