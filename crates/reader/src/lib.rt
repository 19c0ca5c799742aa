// Lookup of a tile in an archive that is held in a slice.
#![tactic(auto)]

use directory::Offset;

mod descent;
mod ranges;

pub use descent::{lookup, lookup_coord};
pub use ranges::{leaf_range, open, tile_range};

// So many bytes from a place of the archive on.
// Stays: Extent with `start` for `offset`, since it is public and `range_of` (specs/Answers) names its fields.
#[derive(Clone, Copy)]
pub struct Located {
    pub start: Offset,
    pub length: u32,
}

// A part of the archive, as the header gives it; it may lie outside.
#[derive(Clone, Copy)]
pub struct Section {
    pub offset: Offset,
    pub length: u64,
}

#[derive(Clone, Copy)]
pub struct Sections {
    pub root: Section,
    pub leaves: Section,
    pub tiles: Section,
}
