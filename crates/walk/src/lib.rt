// A directory's bytes walked row by row, and searched so, with no store.
#![tactic(auto)]

mod cursors;
mod sweep;

pub use cursors::Columns;
pub use directory::Row;
pub use sweep::find;
