// A directory: entries that say where the contents of tiles lie, and pointers to further directories.
#![tactic(auto)]

use tile::TileId;

mod checking;
mod columns;
mod entries;
mod reading;

pub use checking::{check_count, check_stores};
pub use entries::{check_entry, offset_of, wide};
pub use reading::read;

// No directory has more.
pub const MAX_ENTRIES: usize = 16777216;

// A place in the tile data, in the section of leaves, or, in reader, in the archive.
#[derive(Clone, Copy, Debug, PartialEq, Eq)]
pub struct Offset(pub u64);

// Where contents lie.
#[derive(Clone, Copy, Debug, PartialEq, Eq)]
pub struct Extent {
    pub offset: Offset,
    pub length: u32,
}

// A run of tiles that share their contents; a run of 0 is a pointer to a leaf.
#[derive(Clone, Copy, Debug, PartialEq, Eq)]
pub struct DirEntry {
    pub tile_id: TileId,
    pub run_length: u32,
    pub length: u32,
    pub offset: Offset,
}

// An entry whose checks are still to come: a DirEntry but for its id, which may lie above the largest that is a tile's.
#[derive(Clone, Copy, Debug, PartialEq, Eq)]
pub struct Row {
    pub id: u64,
    pub run_length: u32,
    pub length: u32,
    pub offset: Offset,
}

// Four stores, always in this order, of which the first `count` slots count.
// Stays: `count` and four slices side by side, and not one of rows, because C lends them so (include/pmtiles.h).
#[derive(Clone, Copy)]
pub struct Stores<'a> {
    pub count: usize,
    pub ids: &'a [u64],
    pub runs: &'a [u32],
    pub lengths: &'a [u32],
    pub offsets: &'a [u64],
}

// What a search finds.
#[derive(Clone, Copy, Debug, PartialEq, Eq)]
pub enum Found {
    Tile(DirEntry),
    Leaf(DirEntry),
    Absent,
}
