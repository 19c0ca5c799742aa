// Directories written, and root and leaves made from sorted entries.
#![tactic(auto)]

mod building;
mod columns;
mod leaves;
mod sizing;
mod writing;

pub use building::{build, build_sizes};
pub use writing::{encoded_len, write};

// How many bytes the root and the leaves have.
#[derive(Clone, Copy)]
pub struct Sizes {
    pub root: usize,
    pub leaves: usize,
}
