// A small archive published over an older one, cut at every store: one entry, metadata {}, 5 bytes of tile data.
use crate::print::{hex, small, told, word};
use crate::tiles::lookup;
use acceptance::Counts;
use header::Header;
use publisher::{Lengths, Parts, Settings};
use reader::Located;
use refusal::Refusal;
use std::io;
use tile::{TileCoord, TileId};

// Where the last store begins: it is header byte 0.
const LAST: u64 = 16522;

fn settings(tile_compression: u8, tile_type: u8) -> Settings {
    Settings {
        tile_compression,
        tile_type,
        min_zoom: 0,
        max_zoom: 0,
        degrees: Header::new(1, 1).degrees,
        center_zoom: 0,
    }
}

fn publish(
    settings: Settings,
    root: &[u8],
    tiles: &[u8],
    dest: &mut [u8],
    position: u64,
    budget: u64,
) -> Result<u64, Refusal> {
    let counts = Counts {
        n_tile_entries: 1,
        n_addressed_tiles: 1,
    };
    let parts = Parts {
        root,
        metadata: b"{}",
        tiles,
        leaves: b"",
    };
    publisher::publish(settings, counts, &parts, dest, position, budget)
}

fn publish_tiles(
    tiles: &[u8],
    dest: &mut [u8],
    position: u64,
    budget: u64,
) -> Result<u64, Refusal> {
    publish(
        settings(1, 1),
        b"\x01\x00\x01\x05\x01",
        tiles,
        dest,
        position,
        budget,
    )
}

fn publish_older(dest: &mut [u8]) -> Result<u64, Refusal> {
    publish_tiles(b"older", dest, 0, 16523)
}

fn publish_newer(dest: &mut [u8], position: u64, budget: u64) -> Result<u64, Refusal> {
    publish_tiles(b"newer", dest, position, budget)
}

fn is_bad_magic(found: Result<Option<Located>, Refusal>) -> bool {
    matches!(found, Err(Refusal::InvalidMagicNumber))
}

// Tiles that the archives have, that they lack, and the last of all: whether each is refused as bad magic.
fn all_refused(dest: &[u8]) -> bool {
    let by_id = |id| TileId::new(id).and_then(|t| reader::lookup(dest, t));
    let by_coord = |z, x, y| TileCoord::new(z, x, y).and_then(|c| reader::lookup_coord(dest, c));
    is_bad_magic(by_id(0))
        && is_bad_magic(by_id(1))
        && is_bad_magic(by_id(TileId::MAX_TILE_ID))
        && is_bad_magic(by_coord(0, 0, 0))
        && is_bad_magic(by_coord(31, 5, 7))
}

// All stores but the last, one in a call; after how many of them every tile was refused, up to the first where one was
// not.
fn count_refused(dest: &mut [u8]) -> u64 {
    for i in 0..LAST {
        let _ = publish_newer(dest, i, 1);
        if !all_refused(dest) {
            return i;
        }
    }
    LAST
}

// Tiles 0 and 1, and the tile data.
fn contents(rt: &impl Print, dest: &[u8]) -> io::Result<()> {
    lookup(rt, 0, dest)?;
    lookup(rt, 1, dest)?;
    dest.get(16386..16391)
        .map_or(Ok(()), |tiles| hex(rt, tiles))
}

fn told_number(rt: &impl Print, answer: Result<u64, Refusal>) -> io::Result<()> {
    told(rt, answer, |n| print!(rt; " {n}"))
}

// `P`: the older archive; the newer over it, one store a call; the newer over the older in three calls.
pub(crate) fn cut(rt: &impl Print) -> io::Result<()> {
    let mut dest = [7u8; 16391];
    told_number(rt, publish_older(&mut dest))?;
    contents(rt, &dest)?;
    let mut other = dest;
    print!(rt; "\ncuts 1 to 16522, every tile refused 2 ->")?;
    print!(rt; " {}", count_refused(&mut dest))?;
    print!(rt; "\nthe last store ->")?;
    told_number(rt, publish_newer(&mut dest, LAST, 1))?;
    contents(rt, &dest)?;
    print!(rt; "\nthree calls, and the same bytes ->")?;
    told_number(rt, publish_newer(&mut other, 0, 16390))?;
    told_number(rt, publish_newer(&mut other, 16390, 7))?;
    told_number(rt, publish_newer(&mut other, 16397, u64::MAX))?;
    print!(rt; " {}", u8::from(dest == other))
}

// `p COMPRESSION TYPE POSITION BUDGET ROOT`, the bytes being the root, so long, and the tile data: one call over the
// older archive; whether the archive is the same bytes after it.
pub(crate) fn once(rt: &impl Print, p: &[u8], s: &[u8]) -> io::Result<()> {
    let Some((root, tiles)) = s.split_at_checked(word(p, 40) as usize) else {
        return Ok(());
    };
    let mut dest = [7u8; 16391];
    let _ = publish_older(&mut dest);
    let before = dest;
    let settings = settings(small(p, 0), small(p, 10));
    told_number(
        rt,
        publish(settings, root, tiles, &mut dest, word(p, 20), word(p, 30)),
    )?;
    print!(rt; " {}", u8::from(dest == before))
}

// `T ROOT METADATA TILES LEAVES`: how many stores.
pub(crate) fn total(rt: &impl Print, p: &[u8]) -> io::Result<()> {
    let lengths = Lengths {
        root: word(p, 0),
        metadata: word(p, 10),
        tiles: word(p, 20),
        leaves: word(p, 30),
    };
    told_number(rt, publisher::total(lengths))
}
