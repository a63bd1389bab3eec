// How far the voices open each bin.
#![tactic(auto)]

ghost use Rattle.std.specs.Prelude.{◌≡◌, true, length, take};
ghost use Rattle.lists.specs.Maps.{tabulate};
ghost use Rattle.lobes.specs.Pan as side;
ghost use Rattle.lobes.specs.Distance.{lent, logs_of, IfLent};
ghost use Rattle.blocks.specs.Ends.{Ends};
ghost use Rattle.openness.specs.Openness.{openness};
ghost use Rattle.openness.specs.Raising.{EndsWhere, Open};

use block_walk::columns::block_walk_pays;
use blocks::block_ends;
use gaussian::GaussianTable;
use limits::lengths::MOST_VOICES;
use lobes::Grid;
use lobes::octaves::partial_octaves;
use power::table::PowerTable;
use scene::MaskVoice;
use sine::table::SineTable;
use voices::raise_voices;

pub mod raise;
pub mod voices;

// How the voices of a scene are raised: the same for all of them.
#[derive(Clone, Copy)]
pub struct Way {
    // the walk by blocks pays, where there is a table
    pub compact: bool,
    // more than CROWD voices
    pub crowded: bool,
    // a left and a right mask
    pub stereo: bool,
    pub grid: Grid,
}

// Bins computed at a time: enough for a vectorized loop, and few enough to stay in the cache.
const CHUNK: usize = 64;

// The blocks of the largest mask: 8,192 bins besides bin 0, 64 to a block.
const BLOCKS: usize = 128;

// With more voices than this, the later ones find most blocks raised above what they can open.
const CROWD: usize = 16;

// The least and the greatest logarithm of each block of the table, for the walk by blocks.
fn ends_where(
    compact: bool,
    lows: &mut [f32],
    highs: &mut [f32],
    row: &mut [f32],
    table: Option<&[f32]>,
)
    requires { EndsWhere compact lows.old highs.old row.old (logs_of table) }
    ensures { IfLent (logs_of table.entry)
        (λ entries. compact ≡ true → Ends entries lows.new highs.new) }
{
    match table {
        Some(table) if compact => block_ends(lows, highs, row, table),
        _ => (),
    }
}

// The openness of a mono mask.
pub fn open_one(
    out: &mut [f32],
    powers: &PowerTable,
    sines: &SineTable,
    gaussians: &GaussianTable,
    table: Option<&[f32]>,
    voices: [MaskVoice; MOST_VOICES],
    count: usize,
    grid: Grid,
)
    requires { Open (logs_of table) voices count grid }
    ensures { out.new ≡ tabulate (length out.old)
        (openness grid (logs_of table.entry) side.mono (take count voices)) }
{
    // Stands for the second side: it has bin 0 only, which no lobe reaches.
    let mut nothing = [0.0f32; 1];
    let mut chunk = [0.0f32; CHUNK];
    let mut indexes = [0u32; CHUNK];
    let mut lows = [0.0f32; BLOCKS];
    let mut highs = [0.0f32; BLOCKS];
    let octaves = partial_octaves();
    let compact = block_walk_pays(grid);
    out.fill(0.0);
    ends_where(compact, &mut lows, &mut highs, &mut chunk, table);
    let way = Way {
        compact,
        crowded: CROWD < count,
        stereo: false,
        grid,
    };
    raise_voices(
        out,
        &mut nothing,
        &mut chunk,
        &mut indexes,
        powers,
        &octaves,
        sines,
        gaussians,
        way,
        table,
        &lows,
        &highs,
        voices,
        count,
    );
}

// The openness of a left and a right mask, by a lent table.
pub fn open_two(
    left: &mut [f32],
    right: &mut [f32],
    powers: &PowerTable,
    sines: &SineTable,
    gaussians: &GaussianTable,
    table: &[f32],
    voices: [MaskVoice; MOST_VOICES],
    count: usize,
    grid: Grid,
)
    requires { Open (lent table.now) voices count grid }
    ensures { (left.new ≡ tabulate (length left.old)
        (openness grid (lent table.now) side.left (take count voices)))
        × (right.new ≡ tabulate (length right.old)
        (openness grid (lent table.now) side.right (take count voices))) }
{
    let mut chunk = [0.0f32; CHUNK];
    let mut indexes = [0u32; CHUNK];
    let mut lows = [0.0f32; BLOCKS];
    let mut highs = [0.0f32; BLOCKS];
    let octaves = partial_octaves();
    let compact = block_walk_pays(grid);
    left.fill(0.0);
    right.fill(0.0);
    ends_where(compact, &mut lows, &mut highs, &mut chunk, Some(table));
    let way = Way {
        compact,
        crowded: CROWD < count,
        stereo: true,
        grid,
    };
    raise_voices(
        left,
        right,
        &mut chunk,
        &mut indexes,
        powers,
        &octaves,
        sines,
        gaussians,
        way,
        Some(table),
        &lows,
        &highs,
        voices,
        count,
    );
}
