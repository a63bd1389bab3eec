// Document 01's lengths and counts, each said once. A constant is used by name wherever a slice or
// an array has that length.
ghost use Rattle.std.specs.Prelude.{◌≡◌, ◌≤◌};
ghost use Rattle.limits.specs.Lengths.{most_size, bins, window_length, gains_length};
ghost use Rattle.limits.specs.Lengths.{record_length, block_length};

// A call takes at most this many voices.
pub const MOST_VOICES: usize = 128;

// The levels of an envelope bank, one for each note.
pub const MIDI_NOTES: usize = 128;

// The held notes, a bit for each.
pub const HELD_BYTES: usize = 16;

pub const MOST_NOTE: u8 = 127;

pub const MAX_PARTIALS: usize = 24;

pub const MOST_OVERLAP: usize = 16;

// The bins of the largest size are 0..8,192.
pub const MOST_BIN: usize = 8192;

// A drawn curve has one point for every bin of the largest size. Smaller sizes land on exact
// subsets of these points.
pub const MANUAL_MASK_POINTS: usize = 8193;

// The last point of a drawn curve.
pub const LAST_POINT: usize = 8192;

pub const MOST_GAINS: usize = 8193;

pub const MOST_WINDOW: usize = 16384;

// A scene record is a head and a part for each voice, of this many bytes.
pub const RECORD_HEAD: usize = 31;

pub const RECORD_VOICE: usize = 29;

// How many bins a mask has, and a table entries.
pub fn bins(size: usize) -> usize
    ensures { result ≡ bins size }
{
    size / 2 + 1
}

// Whether a window can be this long.
pub fn window_length(n: usize) -> bool
    ensures { result ≡ window_length n }
{
    1 <= n && n <= MOST_WINDOW
}

// Whether a list of gains can be this long.
pub fn gains_length(n: usize) -> bool
    ensures { result ≡ gains_length n }
{
    n <= MOST_GAINS
}

// The bytes of a record of so many voices; its head holds a count of at most 255.
pub fn record_length(count: usize) -> usize
    requires { count ≤ 255 }
    ensures { result ≡ record_length count }
{
    RECORD_HEAD + RECORD_VOICE * count
}

// The block of a prepared spectrum: four windows and a table.
pub fn block_length(size: usize) -> usize
    requires { size ≤ most_size }
    ensures { result ≡ block_length size }
{
    4 * size + size / 2 + 1
}
