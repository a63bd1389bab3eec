// The partials' octaves above the fundamental, as constants: they are the same for every voice.
ghost use Rattle.std.specs.Prelude.{◌≡◌};
ghost use Rattle.lobes.specs.Tone.{partial_octaves};

// Entry 0 is not used: partials count from 1.
#[derive(Clone, Copy)]
pub struct PartialOctaves {
    pub entries: [f32; 25],
    ghost is_partial_octaves: { entries ≡ partial_octaves },
}

// The table, made once and lent to every function that reads it.
pub fn partial_octaves() -> PartialOctaves
    ensures { result.entries ≡ partial_octaves }
{
    PartialOctaves { entries: OCTAVES }
}

const OCTAVES: [f32; 25] = [
    0.0, 0.0, 1.0, 1.5849625, 2.0, 2.321928, 2.5849624, 2.807355, 3.0, 3.169925, 3.321928,
    3.4594316, 3.5849624, 3.7004397, 3.807355, 3.9068904, 4.0, 4.087463, 4.1699247, 4.2479277,
    4.321928, 4.3923173, 4.4594316, 4.523562, 4.5849624,
];
