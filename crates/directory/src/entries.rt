// The checks that an entry must pass, and what an offset's code stands for.
ghost use Rattle.std.specs.Prelude.{◌≡◌};
ghost use Rattle.directory.specs.Columns.{offset_of};
ghost use Rattle.directory.specs.Answers.{checked, end_after, new_entry, said_checked, said_entry, said_offset};

use crate::{DirEntry, Extent, Offset, Row};
use refusal::Refusal;
use tile::TileId;

// A number of 32 bits as one of 64.
// Stays: wide is a public function (docs/PROMISES.md), which may not go; it is `u64::from`.
pub fn wide(x: u32) -> u64
    ensures { result ≡ x }
{
    u64::from(x)
}

impl DirEntry {
    // An entry whose id was a plain number until now.
    // Stays: four parameters and not a Row: public, no crate calls it, and a caller would make a Row first.
    #[tactic(auto, unfolding(crate::specs::Answers::new_entry, tile::specs::Answers::new_id))]
    pub fn new(id: u64, run_length: u32, length: u32, offset: Offset) -> Result<DirEntry, Refusal>
        ensures { said_entry result ≡ new_entry id run_length length offset.0 }
    {
        let tile_id = TileId::new(id).map_err(|_| Refusal::EntryIdTooLarge)?;
        Ok(DirEntry {
            tile_id,
            run_length,
            length,
            offset,
        })
    }
}

// An entry against the least id that may come; then the least that may follow it.
#[tactic(auto, unfolding(crate::specs::Answers::checked))]
pub fn check_entry(lo: u64, row: Row) -> Result<u64, Refusal>
    ensures { said_checked result ≡ checked lo row.id row.run_length row.length }
{
    if row.length == 0 {
        return Err(Refusal::EmptyEntry);
    }
    if TileId::MAX_TILE_ID < row.id {
        return Err(Refusal::EntryIdTooLarge);
    }
    let end = row.id + u64::from(row.run_length);
    if TileId::MAX_TILE_ID + 1 < end {
        return Err(Refusal::EntryIdTooLarge);
    }
    if row.id < lo {
        return Err(Refusal::EntriesOutOfOrder);
    }
    Ok(end.max(row.id + 1))
}

// Code 0 is where the entry before ends; any other is the offset plus 1.
pub fn offset_of(before: Option<Extent>, code: u64) -> Result<Offset, Refusal>
    ensures { said_offset result ≡ offset_of (end_after before) code }
{
    if 0 < code {
        return Ok(Offset(code - 1));
    }
    let last = before.ok_or(Refusal::InvalidEntry)?;
    let end = last
        .offset
        .0
        .checked_add(u64::from(last.length))
        .ok_or(Refusal::SumTooLarge)?;
    Ok(Offset(end))
}
