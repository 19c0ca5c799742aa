// Tile ids both ways.
ghost use Rattle.std.specs.Prelude.{◌≡◌, ◌∷◌, []};
ghost use Rattle.tile.specs.Answers.{to_coord_lem, to_id};
ghost use Rattle.pmtiles.specs.Exports.{Answered, within};

use crate::slots::{Values, tell};
use tile::{TileCoord, TileId};

impl Values<1> for TileId {
    ghost listed = { λ i. i.0 ∷ [] };

    fn values(self) -> [u64; 1] {
        [self.value()]
    }
}

impl Values<3> for TileCoord {
    ghost listed = { λ c. c.z ∷ c.x ∷ c.y ∷ [] };

    fn values(self) -> [u64; 3] {
        [
            u64::from(self.z()),
            u64::from(self.x()),
            u64::from(self.y()),
        ]
    }
}

// out: the id.
#[tactic(auto, unfolding(tile::specs::Answers::new_coord, tile::specs::Answers::to_id))]
pub fn pmt_tile_id(z: u8, x: u32, y: u32, out: &mut [u64]) -> u8
    ensures { Answered (within 1 out.old (to_id z x y)) (λ i. i ∷ []) out.old result out.new }
{
    tell(out, TileCoord::new(z, x, y).and_then(TileCoord::to_id))
}

// out: zoom, x, y.
#[tactic(auto, unfolding(tile::specs::Answers::new_id, tile::specs::Answers::to_coord_lem))]
pub fn pmt_tile_coord(id: u64, out: &mut [u64]) -> u8
    ensures { Answered (within 3 out.old (to_coord_lem id)) (λ (z, p). z ∷ p.0 ∷ p.1 ∷ []) out.old result out.new }
{
    tell(out, TileId::new(id).and_then(TileId::to_coord))
}
