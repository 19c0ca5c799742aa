// The columns of a directory, each read into a store that is as long as the directory.
ghost use Rattle.std.specs.Prelude.{◌≡◌, length};
ghost use Rattle.std.proofs.Math.Option.{none};
ghost use Rattle.varint.specs.Varint.{wide, narrow};
ghost use Rattle.directory.specs.Columns.{column_at, id_step, offset_step, plain_step};
ghost use Rattle.directory.specs.Answers.{said_column};

use crate::Extent;
use crate::entries::offset_of;
use refusal::Refusal;
use varint::Cursor;

// Ids: differences, summed from 0.
// Stays: three loops that are alike: over a closure, one needs a contract on the closure's answers, which is longer.
#[tactic(auto, using(crate::proofs::Turns::turn))]
pub(crate) fn read_ids(bytes: &[u8], from: Cursor, ids: &mut [u64]) -> Result<Cursor, Refusal>
    ensures { said_column result ids.new ≡ column_at wide id_step (length ids.old) 0 bytes.now from.at }
{
    let mut at = from;
    let mut id: u64 = 0;
    for slot in ids.iter_mut() {
        let (d, next) = at.read_u64(bytes)?;
        id = id.checked_add(d).ok_or(Refusal::SumTooLarge)?;
        *slot = id;
        at = next;
    }
    Ok(at)
}

// Runs, or lengths: numbers as they stand.
#[tactic(auto, using(crate::proofs::Turns::turn))]
pub(crate) fn read_plain(bytes: &[u8], from: Cursor, out: &mut [u32]) -> Result<Cursor, Refusal>
    ensures { said_column result out.new ≡ column_at narrow plain_step (length out.old) tt bytes.now from.at }
{
    let mut at = from;
    for slot in out.iter_mut() {
        let (x, next) = at.read_u32(bytes)?;
        *slot = x;
        at = next;
    }
    Ok(at)
}

// Offsets: codes, beside the lengths that stand in their store already.
#[tactic(auto, using(crate::proofs::Turns::offset_turn))]
pub(crate) fn read_offsets(
    bytes: &[u8],
    from: Cursor,
    lengths: &[u32],
    offsets: &mut [u64],
) -> Result<Cursor, Refusal>
    requires { length lengths.now ≡ length offsets.old }
    ensures { said_column result offsets.new ≡ column_at wide offset_step (length offsets.old) (none, lengths.now) bytes.now from.at }
{
    let mut at = from;
    let mut before: Option<Extent> = None;
    // Stays: zipped with the lengths, the invariant cannot name the store that it fills: the proof did not close.
    for (i, slot) in offsets.iter_mut().enumerate() {
        let (code, next) = at.read_u64(bytes)?;
        let offset = offset_of(before, code)?;
        *slot = offset.0;
        let length = lengths[i];
        before = Some(Extent { offset, length });
        at = next;
    }
    Ok(at)
}
