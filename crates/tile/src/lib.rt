// Tile ids and coordinates: every tile of every zoom has one number, along the Hilbert curve of its zoom.
#![tactic(auto)]

ghost use Rattle.std.specs.Prelude.{◌≡◌};
ghost use Rattle.tile.specs.Answers.{new_coord, new_id, said_coord, said_id, said_zoom, to_id, to_coord_lem, to_zoom};

use pyramid::Level;
use refusal::Refusal;

mod hilbert;
mod pyramid;

pub use pyramid::PYRAMID_SIZE_BY_ZOOM;

// The fields are private, so that what `new` refused is not made elsewhere.
// Stays: no invariants: they narrow what public functions take, whose clauses `to_id`, `to_coord_lem` know any value.
#[derive(Clone, Copy, Debug, PartialEq, Eq)]
pub struct TileCoord {
    z: u8,
    x: u32,
    y: u32,
}

#[derive(Clone, Copy, Debug, PartialEq, Eq, PartialOrd, Ord)]
pub struct TileId(u64);

impl TileCoord {
    pub const MAX_ZOOM: u8 = 31;

    #[tactic(auto, unfolding(crate::specs::Answers::new_coord))]
    pub fn new(z: u8, x: u32, y: u32) -> Result<TileCoord, Refusal>
        ensures { said_coord result ≡ new_coord z x y }
    {
        if hilbert::is_coord(z, x, y) {
            Ok(TileCoord { z, x, y })
        } else {
            Err(Refusal::InvalidCoordinate)
        }
    }

    pub fn z(self) -> u8
        ensures { result ≡ self.z }
    {
        self.z
    }

    pub fn x(self) -> u32
        ensures { result ≡ self.x }
    {
        self.x
    }

    pub fn y(self) -> u32
        ensures { result ≡ self.y }
    {
        self.y
    }

    #[tactic(auto, using(crate::proofs::Ids::id_below), unfolding(crate::specs::Answers::new_coord, crate::specs::Answers::to_id, crate::specs::Tile::tile_id_lem))]
    pub fn to_id(self) -> Result<TileId, Refusal>
        ensures { said_id result ≡ to_id self.z self.x self.y }
    {
        let TileCoord { z, x, y } = TileCoord::new(self.z, self.x, self.y)?;
        Ok(TileId(pyramid::base_of(z) + hilbert::index_of(z, x, y)))
    }
}

impl TileId {
    pub const MAX_TILE_ID: u64 = 6148914691236517204;

    #[tactic(auto, unfolding(crate::specs::Answers::new_id))]
    pub fn new(id: u64) -> Result<TileId, Refusal>
        ensures { said_id result ≡ new_id id }
    {
        if id <= TileId::MAX_TILE_ID {
            Ok(TileId(id))
        } else {
            Err(Refusal::InvalidTileId)
        }
    }

    pub fn value(self) -> u64
        ensures { result ≡ self.0 }
    {
        self.0
    }

    #[tactic(auto, unfolding(crate::specs::Answers::new_id, crate::specs::Answers::to_zoom))]
    pub fn zoom(self) -> Result<u8, Refusal>
        ensures { said_zoom result ≡ to_zoom self.0 }
    {
        let TileId(id) = TileId::new(self.0)?;
        Ok(pyramid::level_of(id).z)
    }

    #[tactic(auto, using(crate::proofs::Zooms::in_zoom), unfolding(crate::specs::Answers::new_id, crate::specs::Answers::to_coord_lem, crate::specs::Tile::coord_of_lem))]
    pub fn to_coord(self) -> Result<TileCoord, Refusal>
        ensures { said_coord result ≡ to_coord_lem self.0 }
    {
        let TileId(id) = TileId::new(self.0)?;
        let Level { z, base } = pyramid::level_of(id);
        let p = hilbert::place_of(z, id - base);
        Ok(TileCoord { z, x: p.x, y: p.y })
    }
}
