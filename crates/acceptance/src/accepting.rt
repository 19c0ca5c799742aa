// What the builder takes: the checks, and the counts of what passes them.
ghost use Rattle.std.specs.Prelude.{◌≡◌, ◌+◌, leb};
ghost use Rattle.directory.specs.Answers.{over, row_entry, said_checked};
ghost use Rattle.acceptance.specs.Accept.{accepting, tile_one};
ghost use Rattle.acceptance.specs.Answers.{counts_in_lem, said_accepted};

use crate::Counts;
use directory::{Offset, Row, Stores, check_count, check_entry};
use refusal::Refusal;

// Whether contents lie in the tile data.
// Stays: `checked_add(..).is_some_and(..)` was tried, and `accept` took a tenth longer.
fn fits(data_length: u64, row: Row) -> bool
    ensures { result ≡ leb (row.offset.0 + row.length) data_length }
{
    row.offset.0 <= data_length && u64::from(row.length) <= data_length - row.offset.0
}

// An entry against the least id that may come and the length of the tile data.
#[tactic(auto, using(crate::proofs::Tiles::tile_steps))]
fn check_tile(data_length: u64, lo: u64, row: Row) -> Result<u64, Refusal>
    ensures { said_checked result ≡ tile_one data_length lo (row_entry row) }
{
    if row.run_length == 0 {
        return Err(Refusal::EmptyEntry);
    }
    let next = check_entry(lo, row)?;
    if !fits(data_length, row) {
        return Err(Refusal::RangeOutside);
    }
    Ok(next)
}

// Whether the builder takes the first `count` entries of the stores, and what it counts in them: one pass.
#[tactic(auto, using(crate::proofs::Accepts::one_pass))]
pub fn accept(stores: &Stores, data_length: u64) -> Result<Counts, Refusal>
    ensures { said_accepted result ≡ counts_in_lem (over stores.now accepting data_length) }
{
    check_count(stores)?;
    let mut sum: u64 = 0;
    let mut lo: u64 = 0;
    // Stays: rows by index, as in directory/src/checking.rt: over zipped slices the proof did not close.
    for i in 0..stores.count {
        let row = Row {
            id: stores.ids[i],
            run_length: stores.runs[i],
            length: stores.lengths[i],
            offset: Offset(stores.offsets[i]),
        };
        lo = check_tile(data_length, lo, row)?;
        sum += u64::from(row.run_length);
    }
    Ok(Counts {
        n_tile_entries: stores.count as u64,
        n_addressed_tiles: sum,
    })
}
