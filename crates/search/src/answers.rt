// An entry, as it answers a target.
ghost use Rattle.std.specs.Prelude.{◌≡◌};
ghost use Rattle.directory.specs.Answers.{said_found};
ghost use Rattle.search.specs.Answers.{answering};

use directory::{DirEntry, Found, Row};
use refusal::Refusal;
use tile::TileId;

// The row is the last whose id is at most the target: a search sees to that, so it is not tested here.
#[tactic(auto, using(crate::proofs::Hits::hits))]
pub fn answer(row: Row, target: u64) -> Result<Found, Refusal>
    ensures { said_found result ≡ answering row.id row.run_length row.length row.offset.0 target }
{
    let e = DirEntry {
        tile_id: TileId::new(row.id)?,
        run_length: row.run_length,
        length: row.length,
        offset: row.offset,
    };
    if row.run_length == 0 {
        return Ok(Found::Leaf(e));
    }
    if target.saturating_sub(row.id) < u64::from(row.run_length) {
        return Ok(Found::Tile(e));
    }
    Ok(Found::Absent)
}
