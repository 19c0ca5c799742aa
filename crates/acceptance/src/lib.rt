// Which entries a builder takes, and what it counts in them.
#![tactic(auto)]

mod accepting;

pub use accepting::accept;

// What the builder counts, for the header.
#[derive(Clone, Copy)]
pub struct Counts {
    pub n_tile_entries: u64,
    pub n_addressed_tiles: u64,
}
