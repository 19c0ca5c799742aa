// Search in four stores.
ghost use Rattle.std.specs.Prelude.{◌≡◌};
ghost use Rattle.directory.specs.Search.{find_stored};
ghost use Rattle.directory.specs.Answers.{over, said_found};

use crate::answers::answer;
use directory::{Found, Offset, Row, Stores, check_stores};
use refusal::Refusal;
use tile::TileId;

// The first count slots of the stores, checked whole and then searched by halving.
#[tactic(auto, using(crate::proofs::Finding::find_steps), unfolding(tile::specs::Answers::new_id))]
pub fn find_tile_id(stores: &Stores, target: TileId) -> Result<Found, Refusal>
    ensures { said_found result ≡ over stores.now find_stored target.0 }
{
    let t = TileId::new(target.value())?.value();
    check_stores(stores)?;
    let above = stores.ids[..stores.count].partition_point(|id| *id <= t);
    let Some(i) = above.checked_sub(1) else {
        return Ok(Found::Absent);
    };
    // Stays: the row is made here, since a public function could not ask that the slot is there.
    let row = Row {
        id: stores.ids[i],
        run_length: stores.runs[i],
        length: stores.lengths[i],
        offset: Offset(stores.offsets[i]),
    };
    answer(row, t)
}
