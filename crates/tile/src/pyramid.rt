// The pyramid of zooms: how many tiles lie below each, and the zoom in which an id lies.
ghost use Rattle.std.specs.Prelude.{◌≡◌, ◌<◌, ◌≤◌};
ghost use Rattle.tile.specs.Tile.{base, zoom_of};
ghost use Rattle.tile.specs.Answers.{max_id};

// The number of tiles below each zoom.
pub const PYRAMID_SIZE_BY_ZOOM: [u64; 32] = [
    0,
    1,
    5,
    21,
    85,
    341,
    1365,
    5461,
    21845,
    87381,
    349525,
    1398101,
    5592405,
    22369621,
    89478485,
    357913941,
    1431655765,
    5726623061,
    22906492245,
    91625968981,
    366503875925,
    1466015503701,
    5864062014805,
    23456248059221,
    93824992236885,
    375299968947541,
    1501199875790165,
    6004799503160661,
    24019198012642645,
    96076792050570581,
    384307168202282325,
    1537228672809129301,
];

// The first id of a zoom, by arithmetic: a shift and a division by 3 need no memory.
pub(crate) fn base_of(z: u8) -> u64
    requires { z < 32 }
    ensures { result ≡ base z }
{
    ((1u64 << (2 * z)) - 1) / 3
}

// A zoom and its first id.
#[derive(Clone, Copy)]
pub(crate) struct Level {
    pub(crate) z: u8,
    pub(crate) base: u64,
}

// The zoom of an id, and the table's base of it. A zoom's first id is (4 ^ z - 1) / 3, so 4 ^ z is at most 3 * id + 1, and
// 4 ^ (z + 1) above it.
pub(crate) fn level_of(id: u64) -> Level
    requires { id ≤ max_id }
    ensures { (result.z ≡ zoom_of id) × (result.base ≡ base (zoom_of id)) }
{
    let z = ((3 * id + 1).ilog2() / 2) as usize;
    Level {
        z: z as u8,
        base: PYRAMID_SIZE_BY_ZOOM[z],
    }
}
