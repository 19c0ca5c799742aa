// Directories written from stores.
ghost use Rattle.std.specs.Prelude.{◌≡◌, ◌≤◌, length};
ghost use Rattle.std.proofs.Math.Option.{none};
ghost use Rattle.refusal.specs.Out.{afterwards, ok};
ghost use Rattle.directory.specs.Answers.{end_after, over, row_entry, said_checked};
ghost use Rattle.directory.specs.Entries.{max_count};
ghost use Rattle.directory.specs.Encode.{encode};
ghost use Rattle.writer.specs.Write.{check_all, encoding};
ghost use Rattle.writer.specs.Answers.{laid, length_of, said_length, writing};
ghost use Rattle.writer.specs.Cells.{coded_one, in_use, slots};

use crate::columns::put_entries;
use crate::sizing::{code, entry_size, extent_of, row_at};
use directory::{Extent, Row, Stores, check_count, check_entry};
use refusal::Refusal;

// An entry against the least id that may come and the end of the entry before.
#[tactic(auto, using(crate::proofs::Coded::coded_steps))]
fn check_coded(lo: u64, before: Option<Extent>, row: Row) -> Result<u64, Refusal>
    ensures { said_checked result ≡ coded_one lo (end_after before) (row_entry row) }
{
    let next = check_entry(lo, row)?;
    code(before, row.offset).ok_or(Refusal::SumTooLarge)?;
    Ok(next)
}

// The checks, and how many bytes the entries take: one pass.
// Stays: `sized` is this pass with no checks: with a closure for them it would answer a Result that is never an Err.
fn encoded(stores: &Stores) -> Result<usize, Refusal>
    requires { (stores.now.count ≤ max_count) × (stores.now.count ≤ length (slots stores.now)) }
    ensures { said_length result ≡ check_all 0 none (in_use stores.now)
        (ok (length (encode (in_use stores.now)))) }
{
    let mut sum = varint::size(stores.count as u64);
    let mut lo: u64 = 0;
    let mut prev: u64 = 0;
    let mut before = None;
    // Stays: by index, as in `sized`.
    for i in 0..stores.count {
        let row = row_at(stores, i);
        lo = check_coded(lo, before, row)?;
        sum += entry_size(prev, before, row);
        prev = row.id;
        before = Some(extent_of(row));
    }
    Ok(sum)
}

// How many bytes `write` writes.
#[tactic(auto, using(crate::proofs::Written::measuring))]
pub fn encoded_len(stores: &Stores) -> Result<usize, Refusal>
    ensures { said_length result ≡ length_of (over stores.now encoding) }
{
    check_count(stores)?;
    encoded(stores)
}

// A directory of the entries that count, at the start of the output.
pub fn write(stores: &Stores, out: &mut [u8]) -> Result<usize, Refusal>
    ensures { (said_length result ≡ length_of (over stores.now writing (length out.old)))
        × (out.new ≡ afterwards (over stores.now writing (length out.old)) out.old (λ b. laid b out.old)) }
{
    let n = encoded_len(stores)?;
    if out.len() < n {
        return Err(Refusal::RoomTooShort);
    }
    put_entries(stores, 0, stores.count, out);
    Ok(n)
}
