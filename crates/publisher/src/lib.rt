// Publication: the byte stores that put an archive into a lent destination, done from a position on, as many as a budget allows.
#![tactic(auto)]

ghost use Rattle.std.specs.Prelude.{◌≡◌, length};

use header::Degrees;

mod head;
mod publishing;
mod sections;

pub use publishing::{publish, total};

// What the caller says of the tiles, for the header.
// Stays: the codes are numbers, because `publishing` (specs/Publish) answers 4 and 5 for those that are not known.
#[derive(Clone, Copy)]
pub struct Settings {
    pub tile_compression: u8,
    pub tile_type: u8,
    pub min_zoom: u8,
    pub max_zoom: u8,
    pub degrees: Degrees,
    pub center_zoom: u8,
}

// The bytes of an archive's sections.
#[derive(Clone, Copy)]
pub struct Parts<'a> {
    pub root: &'a [u8],
    pub metadata: &'a [u8],
    pub tiles: &'a [u8],
    pub leaves: &'a [u8],
}

// How many bytes an archive's sections have.
#[derive(Clone, Copy)]
pub struct Lengths {
    pub root: u64,
    pub metadata: u64,
    pub tiles: u64,
    pub leaves: u64,
}

impl Parts<'_> {
    pub(crate) fn lengths(&self) -> Lengths
        ensures { result ≡ record {
          root = length self.now.root.now;
          metadata = length self.now.metadata.now;
          tiles = length self.now.tiles.now;
          leaves = length self.now.leaves.now;
        } }
    {
        Lengths {
            root: self.root.len() as u64,
            metadata: self.metadata.len() as u64,
            tiles: self.tiles.len() as u64,
            leaves: self.leaves.len() as u64,
        }
    }
}
