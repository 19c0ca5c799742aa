// Search in a directory's stores, and what the entry that it finds answers.
#![tactic(auto)]

mod answers;
mod stores;

pub use answers::answer;
pub use stores::find_tile_id;
