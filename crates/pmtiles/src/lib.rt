// The core by lent slots: each function answers a status, 0 for done or found, 255 for absent, else a refusal's number,
// and puts its values into lent slots. Crate pmtiles_c exports the same functions to C.
// Stays: statuses as numbers, lent slices one by one: pmtiles_c exports each pmt_* to C so (include/pmtiles.h).
#![tactic(auto)]

mod builds;
mod directories;
mod headers;
mod ids;
mod lookups;
mod publishes;
mod slots;
mod writes;

pub use builds::{pmt_build, pmt_build_sizes};
pub use directories::pmt_directory_read;
pub use headers::{pmt_header_read, pmt_header_write};
pub use ids::{pmt_tile_coord, pmt_tile_id};
pub use lookups::{pmt_directory_find, pmt_lookup, pmt_lookup_coord};
pub use publishes::{pmt_publish, pmt_total};
pub use writes::{pmt_directory_write, pmt_encoded_len};
