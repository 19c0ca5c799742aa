// The columns of a directory walked side by side, row after row, with no store.
ghost use Rattle.std.specs.Prelude.{◌≡◌};
ghost use Rattle.varint.specs.Varint.{wide, narrow};
ghost use Rattle.varint.specs.Answers.{said_u64};
ghost use Rattle.directory.specs.Columns.{id_step, plain_step};
ghost use Rattle.walk.specs.Walk.{next_in, open_in, past, said_next, said_opened, said_past, step_at};

use directory::{Extent, MAX_ENTRIES, Row, offset_of};
use refusal::Refusal;
use varint::Cursor;

// Where a walk stands: a cursor in each column, the rows left, and what the next row needs of the last one: its id, 0
// if there is none, and where its contents lie.
#[derive(Clone, Copy)]
pub struct Columns {
    ids: Cursor,
    runs: Cursor,
    lengths: Cursor,
    offsets: Cursor,
    left: u64,
    last_id: u64,
    before: Option<Extent>,
}

// An id is the one before and a difference.
#[tactic(auto, unfolding(crate::specs::Walk::step_at))]
fn id_at(bytes: &[u8], at: Cursor, before: u64) -> Result<(u64, Cursor), Refusal>
    ensures { said_u64 result ≡ step_at wide id_step before bytes.now at.at }
{
    let (d, next) = at.read_u64(bytes)?;
    let id = before.checked_add(d).ok_or(Refusal::SumTooLarge)?;
    Ok((id, next))
}

#[tactic(auto, using(crate::proofs::Past::turn, crate::proofs::Past::done))]
fn past_ids(bytes: &[u8], from: Cursor, n: u64) -> Result<Cursor, Refusal>
    ensures { said_past result ≡ past wide id_step n 0 bytes.now from.at }
{
    let mut at = from;
    let mut before = 0;
    for _ in 0..n {
        (before, at) = id_at(bytes, at, before)?;
    }
    Ok(at)
}

// Past the runs, or the lengths.
// Stays: two loops of a line each; one over a closure would need a contract on what its calls answer, longer than both.
#[tactic(auto, using(crate::proofs::Past::turn, crate::proofs::Past::done), unfolding(crate::specs::Walk::step_at))]
fn past_numbers(bytes: &[u8], from: Cursor, n: u64) -> Result<Cursor, Refusal>
    ensures { said_past result ≡ past narrow plain_step n tt bytes.now from.at }
{
    let mut at = from;
    for _ in 0..n {
        (_, at) = at.read_u32(bytes)?;
    }
    Ok(at)
}

impl Columns {
    // The faults of the ids, runs and lengths are met here, those of the offsets row by row.
    #[tactic(auto, unfolding(crate::specs::Walk::open_in))]
    pub fn open(bytes: &[u8]) -> Result<Columns, Refusal>
        ensures { said_opened result ≡ open_in bytes.now }
    {
        let start = Cursor { at: 0 };
        let (n, ids) = start.read_u64(bytes)?;
        if (MAX_ENTRIES as u64) < n {
            return Err(Refusal::TooManyEntries);
        }
        let runs = past_ids(bytes, ids, n)?;
        let lengths = past_numbers(bytes, runs, n)?;
        let offsets = past_numbers(bytes, lengths, n)?;
        Ok(Columns {
            ids,
            runs,
            lengths,
            offsets,
            left: n,
            last_id: 0,
            before: None,
        })
    }

    // After the last row stands the rule of the end, so that every walk keeps it: what follows is ignored.
    #[tactic(auto, unfolding(crate::specs::Walk::next_in, crate::specs::Walk::row_at, directory::specs::Decode::ended))]
    pub fn next(self, bytes: &[u8]) -> Result<Option<(Row, Columns)>, Refusal>
        ensures { said_next result ≡ next_in bytes.now self }
    {
        if self.left == 0 {
            return Ok(None);
        }
        let (id, ids) = id_at(bytes, self.ids, self.last_id)?;
        let (run_length, runs) = self.runs.read_u32(bytes)?;
        let (length, lengths) = self.lengths.read_u32(bytes)?;
        let (code, offsets) = self.offsets.read_u64(bytes)?;
        let offset = offset_of(self.before, code)?;
        let row = Row {
            id,
            run_length,
            length,
            offset,
        };
        let rest = Columns {
            ids,
            runs,
            lengths,
            offsets,
            left: self.left - 1,
            last_id: id,
            before: Some(Extent { offset, length }),
        };
        Ok(Some((row, rest)))
    }
}
