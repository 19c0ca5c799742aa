// Four stores and their checks.
ghost use Rattle.std.specs.Prelude.{◌≡◌, ◌≤◌, ◌<◌};
ghost use Rattle.refusal.specs.Out.{ok};
ghost use Rattle.directory.specs.Search.{counting, shortest, stored};
ghost use Rattle.directory.specs.Answers.{over, said_checked};
ghost use Rattle.directory.specs.Stores.{checked_all};

use crate::entries::check_entry;
use crate::{MAX_ENTRIES, Offset, Row, Stores};
use refusal::Refusal;

// A count that a directory may have, in stores that are long enough: any id may come first.
// Stays: `Ok` has always 0, because the public clause of `check_count` says `ok 0`, which may not change.
pub fn check_count(stores: &Stores) -> Result<u64, Refusal>
    ensures { said_checked result ≡ over stores.now counting (ok 0) }
{
    if MAX_ENTRIES < stores.count {
        return Err(Refusal::TooManyEntries);
    }
    let ids = stores.ids.len();
    let runs = stores.runs.len();
    let lengths = stores.lengths.len();
    let offsets = stores.offsets.len();
    if ids.min(runs).min(lengths).min(offsets) < stores.count {
        return Err(Refusal::RoomTooShort);
    }
    Ok(0)
}

// The entries in the slots that count.
#[tactic(auto, using(crate::proofs::Slots::passing))]
pub(crate) fn check_entries(stores: &Stores) -> Result<u64, Refusal>
    requires { stores.now.count ≤ over stores.now (λ n. shortest) }
    ensures { said_checked result ≡ checked_all 0 (over stores.now stored) }
{
    let mut lo: u64 = 0;
    // Stays: rows by index: over zipped slices the proof did not close; a public function could not ask for a slot.
    for i in 0..stores.count {
        let row = Row {
            id: stores.ids[i],
            run_length: stores.runs[i],
            length: stores.lengths[i],
            offset: Offset(stores.offsets[i]),
        };
        lo = check_entry(lo, row)?;
    }
    Ok(lo)
}

// The slots that count, checked whole.
pub fn check_stores(stores: &Stores) -> Result<u64, Refusal>
    ensures { said_checked result ≡ over stores.now counting (checked_all 0 (over stores.now stored)) }
{
    check_count(stores)?;
    check_entries(stores)
}
