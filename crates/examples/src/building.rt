// Root and leaves built from the tiles 0, 1, 2 and so on, of 5 bytes each, end to end.
use crate::print::{hex, told, word};
use crate::writing::counts;
use directory::Stores;
use std::io;

const ROWS: usize = 4064;

// The ids and the offsets of the rows; their runs are 1 and their lengths 5.
// Stays: laid where they are used: made by a function that returns them, they would lie on the stack four times.
fn lay(ids: &mut [u64; ROWS], offsets: &mut [u64; ROWS]) {
    for i in 0..ROWS {
        ids[i] = i as u64;
        offsets[i] = 5 * i as u64;
    }
}

// `S COUNT DATA`: how long root and leaves of so many rows are, over so much data.
pub(crate) fn measure(rt: &impl Print, p: &[u8]) -> io::Result<()> {
    let mut ids = [0; ROWS];
    let mut offsets = [0; ROWS];
    lay(&mut ids, &mut offsets);
    let stores = Stores {
        count: word(p, 0) as usize,
        ids: &ids,
        runs: &[1; ROWS],
        lengths: &[5; ROWS],
        offsets: &offsets,
    };
    told(
        rt,
        writer::build_sizes(&stores, word(p, 10)),
        |s| print!(rt; " {} {}", s.root, s.leaves),
    )
}

// `B ROOT LEAVES`: all rows built into so many bytes that hold 9s: how long root and leaves are, how many entries and
// tiles; the root's eight bytes; four of the leaves' at 0, four at 16256.
pub(crate) fn build(rt: &impl Print, p: &[u8]) -> io::Result<()> {
    let mut ids = [0; ROWS];
    let mut offsets = [0; ROWS];
    lay(&mut ids, &mut offsets);
    let stores = Stores {
        count: ROWS,
        ids: &ids,
        runs: &[1; ROWS],
        lengths: &[5; ROWS],
        offsets: &offsets,
    };
    let mut root = [9u8; 8];
    let mut leaves = [9u8; 16384];
    let a = root.get_mut(..word(p, 0) as usize);
    let b = leaves.get_mut(..word(p, 10) as usize);
    if let (Some(a), Some(b)) = (a, b) {
        told(rt, writer::build(&stores, 20320, a, b), |(s, c)| {
            print!(rt; " {} {}", s.root, s.leaves)?;
            counts(rt, c)
        })?;
    }
    hex(rt, &root)?;
    hex(rt, &leaves[0..4])?;
    hex(rt, &leaves[16256..16260])
}
