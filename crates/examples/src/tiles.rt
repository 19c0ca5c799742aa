// Tile ids both ways, and tiles looked for in directories and archives.
use crate::print::{half, small, told, word};
use directory::{DirEntry, Found, Row, Stores};
use reader::Located;
use refusal::Refusal;
use std::io;
use tile::{TileCoord, TileId};

// Id, run, length and offset.
pub(crate) fn row(rt: &impl Print, r: Row) -> io::Result<()> {
    print!(rt; ", {} {} {} {}", r.id, r.run_length, r.length, r.offset.0)
}

fn row_of(e: DirEntry) -> Row {
    Row {
        id: e.tile_id.value(),
        run_length: e.run_length,
        length: e.length,
        offset: e.offset,
    }
}

fn entry(rt: &impl Print, kind: &str, e: DirEntry) -> io::Result<()> {
    print!(rt; " {kind}")?;
    row(rt, row_of(e))
}

fn found(rt: &impl Print, f: Found) -> io::Result<()> {
    match f {
        Found::Tile(e) => entry(rt, "tile", e),
        Found::Leaf(e) => entry(rt, "leaf", e),
        Found::Absent => print!(rt; " absent"),
    }
}

fn located(rt: &impl Print, l: Option<Located>) -> io::Result<()> {
    match l {
        Some(l) => print!(rt; " {} {}", l.start.0, l.length),
        None => print!(rt; " absent"),
    }
}

fn id_of(p: &[u8]) -> Result<TileId, Refusal> {
    TileId::new(word(p, 0))
}

fn coord_of(p: &[u8]) -> Result<TileCoord, Refusal> {
    TileCoord::new(small(p, 0), half(p, 10), half(p, 20))
}

// `i Z X Y`: the id.
pub(crate) fn id(rt: &impl Print, p: &[u8]) -> io::Result<()> {
    told(
        rt,
        coord_of(p).and_then(|c| c.to_id()),
        |i| print!(rt; " {}", i.value()),
    )
}

// `c ID`: z, x, y.
pub(crate) fn coord(rt: &impl Print, p: &[u8]) -> io::Result<()> {
    told(
        rt,
        id_of(p).and_then(|t| t.to_coord()),
        |c| print!(rt; " {} {} {}", c.z(), c.x(), c.y()),
    )
}

// `z ID`: the zoom.
pub(crate) fn zoom(rt: &impl Print, p: &[u8]) -> io::Result<()> {
    told(rt, id_of(p).and_then(|t| t.zoom()), |z| print!(rt; " {z}"))
}

// `f ID`: the entry in a directory.
pub(crate) fn find(rt: &impl Print, p: &[u8], s: &[u8]) -> io::Result<()> {
    told(
        rt,
        id_of(p).and_then(|t| walk::find(s, t)),
        |f| found(rt, f),
    )
}

// `t ID COUNT LAST`: the entry in stores with a tile of run 2 at 5, a pointer at 9, and a last tile; so many of the
// slots count.
pub(crate) fn find_stored(rt: &impl Print, p: &[u8]) -> io::Result<()> {
    let stores = Stores {
        count: word(p, 10) as usize,
        ids: &[5, 9, word(p, 20)],
        runs: &[2, 0, 1],
        lengths: &[5, 6, 7],
        offsets: &[0, 0, 6],
    };
    told(
        rt,
        id_of(p).and_then(|t| search::find_tile_id(&stores, t)),
        |f| found(rt, f),
    )
}

// `l ID`: start and length in an archive.
pub(crate) fn lookup(rt: &impl Print, id: u64, s: &[u8]) -> io::Result<()> {
    told(
        rt,
        TileId::new(id).and_then(|t| reader::lookup(s, t)),
        |l| located(rt, l),
    )
}

// `L Z X Y`: start and length in an archive.
pub(crate) fn lookup_coord(rt: &impl Print, p: &[u8], s: &[u8]) -> io::Result<()> {
    told(
        rt,
        coord_of(p).and_then(|c| reader::lookup_coord(s, c)),
        |l| located(rt, l),
    )
}
