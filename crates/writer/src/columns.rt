// A directory's bytes, column by column, in a buffer that has room for them.
ghost use Rattle.std.proofs.Math.Option.{none};
ghost use Rattle.std.specs.Prelude.{◌≡◌, ◌+◌, ◌^◌, ◌≤◌, length};
ghost use Rattle.varint.specs.Varint.{narrow, put, wide};
ghost use Rattle.directory.specs.Encode.{encode, put_all};
ghost use Rattle.writer.specs.Cells.{Below, Ready, Rising, Wrote, deltas, offset_codes, part, slots};

use crate::sizing::code;
use directory::{Extent, Offset, Stores};
use varint::Cursor;

// The shortest form of a number. There is room for it, so it is not refused.
// Stays: buffer and place apart, here and below: a struct that holds the buffer would say each fact by a reference.
pub(crate) fn put_number(out: &mut [u8], at: usize, x: u64) -> usize
    requires { at + length (put wide x) ≤ length out.old }
    ensures { Wrote out.old at (put wide x) out.new result }
{
    Cursor { at }.write(out, x).unwrap().at
}

fn put_ids(out: &mut [u8], start: usize, ids: &[u64]) -> usize
    requires { Rising 0 ids.now × (start + length (put_all wide (deltas 0 ids.now)) ≤ length out.old) }
    ensures { Wrote out.old start (put_all wide (deltas 0 ids.now)) out.new result }
{
    let mut at = start;
    let mut prev: u64 = 0;
    for id in ids {
        at = put_number(out, at, *id - prev);
        prev = *id;
    }
    at
}

fn put_numbers(out: &mut [u8], start: usize, xs: &[u32]) -> usize
    requires { start + length (put_all narrow xs.now) ≤ length out.old }
    ensures { Wrote out.old start (put_all narrow xs.now) out.new result }
{
    let mut at = start;
    for x in xs {
        at = put_number(out, at, u64::from(*x));
    }
    at
}

// Offsets beside as many lengths.
fn put_offsets(out: &mut [u8], start: usize, lengths: &[u32], offsets: &[u64]) -> usize
    requires { (length lengths.now ≡ length offsets.now)
        × Below (2 ^ 64) (offset_codes none lengths.now offsets.now)
        × (start + length (put_all wide (offset_codes none lengths.now offsets.now)) ≤ length out.old) }
    ensures { Wrote out.old start (put_all wide (offset_codes none lengths.now offsets.now)) out.new result }
{
    let mut at = start;
    let mut before = None;
    // Stays: an index beside the offset, since with the two zipped `write` took 7% longer.
    for (i, x) in offsets.iter().enumerate() {
        let offset = Offset(*x);
        at = put_number(out, at, code(before, offset).unwrap());
        before = Some(Extent {
            offset,
            length: lengths[i],
        });
    }
    at
}

// A range of the entries as a directory, at the start of the buffer.
#[tactic(auto, using(crate::proofs::Parts::lengths))]
pub(crate) fn put_entries(stores: &Stores, from: usize, to: usize, out: &mut [u8]) -> usize
    requires { Ready from to (slots stores.now) × (length (encode (part from to (slots stores.now))) ≤ length out.old) }
    ensures { Wrote out.old 0 (encode (part from to (slots stores.now))) out.new result }
{
    let lengths = &stores.lengths[from..to];
    let a = put_number(out, 0, (to - from) as u64);
    let b = put_ids(out, a, &stores.ids[from..to]);
    let c = put_numbers(out, b, &stores.runs[from..to]);
    let d = put_numbers(out, c, lengths);
    put_offsets(out, d, lengths, &stores.offsets[from..to])
}
