// A directory's bytes, read into four stores.
ghost use Rattle.std.specs.Prelude.{◌≡◌, length};
ghost use Rattle.directory.specs.Columns.{entries};
ghost use Rattle.refusal.specs.Said.{said};
ghost use Rattle.directory.specs.Stores.{Filling, ReadInto, entries_at, reading};

use crate::Stores;
use crate::checking::{check_count, check_entries};
use crate::columns::{read_ids, read_offsets, read_plain};
use refusal::Refusal;
use varint::Cursor;

// The four stores as one, for the checks.
// Stays: a function, since the literal over what is lent mutably is refused where it stands.
fn lent<'a>(
    count: usize,
    ids: &'a [u64],
    runs: &'a [u32],
    lengths: &'a [u32],
    offsets: &'a [u64],
) -> Stores<'a>
    ensures { (result.count ≡ count)
        × (result.ids.now ≡ ids.now)
        × (result.runs.now ≡ runs.now)
        × (result.lengths.now ≡ lengths.now)
        × (result.offsets.now ≡ offsets.now) }
{
    Stores {
        count,
        ids,
        runs,
        lengths,
        offsets,
    }
}

// The columns of a directory, and then the checks, where each store has a slot for every entry and no other.
#[tactic(auto, using(crate::proofs::Places::entered), unfolding(crate::specs::Stores::entries_at))]
fn read_entries(
    bytes: &[u8],
    from: Cursor,
    ids: &mut [u64],
    runs: &mut [u32],
    lengths: &mut [u32],
    offsets: &mut [u64],
) -> Result<Cursor, Refusal>
    requires { (length runs.old ≡ length ids.old) × (length lengths.old ≡ length ids.old) × (length offsets.old ≡ length ids.old) }
    ensures { said (λ c. (entries ids.new runs.new lengths.new offsets.new, c.at)) result ≡ entries_at (length ids.old) bytes.now from.at }
{
    let runs_at = read_ids(bytes, from, ids)?;
    let lengths_at = read_plain(bytes, runs_at, runs)?;
    let offsets_at = read_plain(bytes, lengths_at, lengths)?;
    let end = read_offsets(bytes, offsets_at, lengths, offsets)?;
    check_entries(&lent(ids.len(), ids, runs, lengths, offsets))?;
    Ok(end)
}

// The stores are filled, or a refusal is told; then they are still to be cleared.
#[tactic(auto, using(crate::proofs::Places::decoded))]
fn fill(
    bytes: &[u8],
    ids: &mut [u64],
    runs: &mut [u32],
    lengths: &mut [u32],
    offsets: &mut [u64],
) -> Result<(usize, usize), Refusal>
    ensures { Filling result
        (reading bytes.now ids.old runs.old lengths.old offsets.old)
        ids.old ids.new runs.old runs.new
        lengths.old lengths.new offsets.old offsets.new }
{
    let start = Cursor { at: 0 };
    let (n, from) = start.read_u64(bytes)?;
    let count = n as usize;
    check_count(&lent(count, ids, runs, lengths, offsets))?;
    let end = read_entries(
        bytes,
        from,
        &mut ids[..count],
        &mut runs[..count],
        &mut lengths[..count],
        &mut offsets[..count],
    )?;
    Ok((count, end.at))
}

// A refusal leaves every slot of all four stores zero.
// Stays: four slices here, in fill and in read_entries: in a struct, clauses would reach what they hold by references.
#[tactic(auto, using(crate::proofs::Kept::as_read))]
pub fn read(
    bytes: &[u8],
    ids: &mut [u64],
    runs: &mut [u32],
    lengths: &mut [u32],
    offsets: &mut [u64],
) -> Result<(usize, usize), Refusal>
    ensures { ReadInto
        (reading bytes.now ids.old runs.old lengths.old offsets.old) result
        ids.old ids.new runs.old runs.new
        lengths.old lengths.new offsets.old offsets.new }
{
    let filled = fill(bytes, ids, runs, lengths, offsets);
    if filled.is_err() {
        ids.fill(0);
        runs.fill(0);
        lengths.fill(0);
        offsets.fill(0);
    }
    filled
}
