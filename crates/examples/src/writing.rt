// Directories measured, written from stores of two slots, and accepted.
use crate::print::{half, hex, told, word};
use acceptance::Counts;
use directory::Stores;
use std::io;

// `W COUNT ROOM ID ID RUN RUN LENGTH LENGTH OFFSET OFFSET`: how long the directory is; how much is written into so many
// bytes that hold 9s; the bytes. A count of more than two is short of room.
pub(crate) fn write(rt: &impl Print, p: &[u8]) -> io::Result<()> {
    let stores = Stores {
        count: word(p, 0) as usize,
        ids: &[word(p, 20), word(p, 30)],
        runs: &[half(p, 40), half(p, 50)],
        lengths: &[half(p, 60), half(p, 70)],
        offsets: &[word(p, 80), word(p, 90)],
    };
    let mut room = [9u8; 18];
    if let Some(out) = room.get_mut(..word(p, 10) as usize) {
        told(rt, writer::encoded_len(&stores), |n| print!(rt; " {n}"))?;
        let written = writer::write(&stores, out);
        told(rt, written, |n| print!(rt; " {n}"))?;
        hex(rt, out)?;
    }
    Ok(())
}

pub(crate) fn counts(rt: &impl Print, c: Counts) -> io::Result<()> {
    print!(rt; " {} {}", c.n_tile_entries, c.n_addressed_tiles)
}

// `a RUN RUN DATA`: the counts of entries and of tiles, for tiles of 5 and 7 bytes and so much data.
pub(crate) fn accept(rt: &impl Print, p: &[u8]) -> io::Result<()> {
    let stores = Stores {
        count: 2,
        ids: &[0, 1],
        runs: &[half(p, 0), half(p, 10)],
        lengths: &[5, 7],
        offsets: &[0, 5],
    };
    told(
        rt,
        acceptance::accept(&stores, word(p, 20)),
        |c| counts(rt, c),
    )
}
