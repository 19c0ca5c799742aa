// How many bytes entries take as a directory.
ghost use Rattle.std.specs.Prelude.{SomeIff, ◌≡◌, [], ◌∷◌, ◌^◌, ◌≤◌, ◌<◌, length};
ghost use Rattle.directory.specs.Answers.{end_after, row_entry};
ghost use Rattle.directory.specs.Encode.{code_of, encode};
ghost use Rattle.writer.specs.Cells.{Ready, cell_at, part, size_from, slots};

use directory::{Extent, Offset, Row, Stores};

// An offset's code, if it fits: 0 where the entry before ends there, else one more than the offset.
pub(crate) fn code(before: Option<Extent>, offset: Offset) -> Option<u64>
    ensures { SomeIff result (code_of (end_after before) offset.0 < 2 ^ 64) (code_of (end_after before) offset.0) }
{
    match before {
        Some(e) if offset.0.checked_sub(e.offset.0) == Some(u64::from(e.length)) => Some(0),
        _ => offset.0.checked_add(1),
    }
}

// The entry in a slot of the stores.
// Stays: the row is made here, since a public function could not ask that the slot is there.
#[tactic(auto, using(crate::proofs::Parts::lengths))]
pub(crate) fn row_at(stores: &Stores, i: usize) -> Row
    requires { i < length (slots stores.now) }
    ensures { row_entry result ≡ cell_at stores.now.ids.now stores.now.runs.now stores.now.lengths.now stores.now.offsets.now i }
{
    Row {
        id: stores.ids[i],
        run_length: stores.runs[i],
        length: stores.lengths[i],
        offset: Offset(stores.offsets[i]),
    }
}

// Where an entry's contents lie.
pub(crate) fn extent_of(row: Row) -> Extent
    ensures { (result.offset ≡ row.offset) × (result.length ≡ row.length) }
{
    Extent {
        offset: row.offset,
        length: row.length,
    }
}

// How many bytes an entry takes in the four columns.
pub(crate) fn entry_size(prev: u64, before: Option<Extent>, row: Row) -> usize
    requires { (prev ≤ row.id) × (code_of (end_after before) row.offset.0 < 2 ^ 64) }
    ensures { result ≡ size_from prev (end_after before) (row_entry row ∷ []) }
{
    varint::size(row.id - prev)
        + varint::size(u64::from(row.run_length))
        + varint::size(u64::from(row.length))
        + varint::size(code(before, row.offset).unwrap())
}

// How many bytes a range of the entries takes as a directory: one pass.
// Stays: from and to apart: a Range is not Copy, and `put_entries` cuts four stores by its ends.
pub(crate) fn sized(stores: &Stores, from: usize, to: usize) -> usize
    requires { Ready from to (slots stores.now) }
    ensures { result ≡ length (encode (part from to (slots stores.now))) }
{
    let mut sum = varint::size((to - from) as u64);
    let mut prev: u64 = 0;
    let mut before = None;
    // Stays: by index: four slices zipped give `(((id, run), length), offset)`, and the row is made of that again.
    for i in from..to {
        let row = row_at(stores, i);
        sum += entry_size(prev, before, row);
        prev = row.id;
        before = Some(extent_of(row));
    }
    sum
}
