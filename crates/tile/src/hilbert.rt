// The Hilbert curve of a zoom: from coordinates to the place on it, and back, one pair of bits at a time.
ghost use Rattle.std.specs.Prelude.{◌≡◌, cond, suc, ◌+◌, ◌*◌, ◌^◌, ◌<◌, ◌≤◌};
ghost use Rattle.tile.specs.Tile.{index, place, placed};
ghost use Rattle.tile.specs.Answers.{is_coord_lem};

use crate::TileCoord;

fn power(n: u8) -> u32
    requires { n < 32 }
    ensures { result ≡ 2 ^ n }
{
    1u32 << n
}

pub(crate) fn is_coord(z: u8, x: u32, y: u32) -> bool
    ensures { result ≡ is_coord_lem z x y }
{
    z <= TileCoord::MAX_ZOOM && x < power(z) && y < power(z)
}

// One of two numbers that are both at hand: no branch on a tile's bits, which no processor foresees.
fn pick(test: bool, yes: u32, no: u32) -> u32
    ensures { result ≡ cond test yes no }
{
    if test { yes } else { no }
}

fn rank(right: bool, upper: bool) -> u64
    ensures { (result ≡ cond right (cond upper 2 3) (cond upper 1 0)) × (result < 4) }
{
    match (right, upper) {
        (false, false) => 0,
        (false, true) => 1,
        (true, true) => 2,
        (true, false) => 3,
    }
}

// The index of the bits passed, and what is left of x and y.
#[derive(Clone, Copy)]
struct Walk {
    h: u64,
    x: u32,
    y: u32,
}

impl Walk {
    // One pair of bits, those at i.
    fn step(self, i: u8) -> Walk
        requires bit { i < 31 }
        requires gathered { self.h < 4 ^ 31 }
        requires x { self.x < 2 ^ (i + 1) }
        requires y { self.y < 2 ^ (i + 1) }
        ensures x { result.x < 2 ^ i }
        ensures y { result.y < 2 ^ i }
        ensures same { result.h * 4 ^ i + index i result.x result.y ≡ self.h * 4 ^ suc i + index (suc i) self.x self.y }
    {
        let half = power(i);
        let right = half <= self.x;
        let upper = half <= self.y;
        let x = self.x - pick(right, half, 0);
        let y = self.y - pick(upper, half, 0);
        Walk {
            h: self.h * 4 + rank(right, upper),
            x: pick(upper, x, pick(right, half - 1 - y, y)),
            y: pick(upper, y, pick(right, half - 1 - x, x)),
        }
    }
}

pub(crate) fn index_of(z: u8, x: u32, y: u32) -> u64
    requires { (z ≤ 31) × (x < 2 ^ z) × (y < 2 ^ z) }
    ensures { result ≡ index z x y }
{
    let mut w = Walk { h: 0, x, y };
    for i in (0..z).rev() {
        w = w.step(i);
    }
    w.h
}

#[derive(Clone, Copy)]
pub(crate) struct Spot {
    pub(crate) x: u32,
    pub(crate) y: u32,
}

impl Spot {
    // The pair with one more bit, at i, whose rank is d.
    fn unstep(self, i: u8, d: u64) -> Spot
        requires bit { i < 31 }
        requires x { self.x < 2 ^ i }
        requires y { self.y < 2 ^ i }
        requires rank { d < 4 }
        ensures { (result.x, result.y) ≡ placed i d (self.x, self.y) }
    {
        let half = power(i);
        let straight = d % 3 != 0;
        let last = d == 3;
        let x = pick(last, half - 1 - self.x, self.x);
        let y = pick(last, half - 1 - self.y, self.y);
        Spot {
            x: pick(straight, x, y) + pick(2 <= d, half, 0),
            y: pick(straight, y, x) + pick(straight, half, 0),
        }
    }
}

#[tactic(auto, using(crate::proofs::Curve::place_up), unfolding(crate::specs::Tile::place))]
pub(crate) fn place_of(z: u8, h: u64) -> Spot
    requires { (z ≤ 31) × (h < 4 ^ z) }
    ensures { (result.x, result.y) ≡ place z h }
{
    let mut p = Spot { x: 0, y: 0 };
    for i in 0..z {
        p = p.unstep(i, (h >> (2 * i)) % 4);
    }
    p
}
