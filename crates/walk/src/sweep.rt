// The search in a directory's bytes: every entry is checked, none is kept but the last that may hold the target.
ghost use Rattle.std.specs.Prelude.{◌≡◌, ◌≤◌};
ghost use Rattle.tile.specs.Answers.{max_id};
ghost use Rattle.directory.specs.Answers.{said_found};
ghost use Rattle.directory.specs.Search.{find_in};
ghost use Rattle.walk.specs.Walk.{sweep_in};

use crate::cursors::Columns;
use directory::{Found, Row, check_entry};
use refusal::Refusal;
use search::answer;
use tile::TileId;

// One pass over the rows. After an entry's fault the rows are still read to the end, since the faults of the offset
// codes come first.
#[tactic(auto, using(crate::proofs::Sweeps::sweeping))]
fn sweep(bytes: &[u8], from: Columns, target: TileId) -> Result<Found, Refusal>
    requires { target.0 ≤ max_id }
    ensures { said_found result ≡ sweep_in bytes.now from target.0 }
{
    let top = target.value();
    let mut k = from;
    let mut least: Result<u64, Refusal> = Ok(0);
    let mut kept: Option<Row> = None;
    while let Some((row, rest)) = k.next(bytes)? {
        k = rest;
        if let Ok(lo) = least {
            least = check_entry(lo, row);
            if row.id <= top {
                kept = Some(row);
            }
        }
    }
    least?;
    match kept {
        Some(row) => answer(row, top),
        None => Ok(Found::Absent),
    }
}

#[tactic(auto, using(crate::proofs::Sweeps::find_rows), unfolding(tile::specs::Answers::new_id))]
pub fn find(bytes: &[u8], target: TileId) -> Result<Found, Refusal>
    ensures { said_found result ≡ find_in bytes.now target.0 }
{
    TileId::new(target.value())?;
    sweep(bytes, Columns::open(bytes)?, target)
}
