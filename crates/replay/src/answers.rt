// The kinds of input, and the line that each makes.
use directory::{DirEntry, Found, Offset, Row, Stores};
use header::{HEADER_SIZE, Header};
use reader::Located;
use refusal::Refusal;
use std::io;
use tile::{TileCoord, TileId};
use varint::Cursor;

// Stays: the kind is a byte of the list; an enum would name each kind twice, here and where the byte is read.
pub(crate) fn answer(rt: &impl Print, kind: u8, s: &[u8]) -> io::Result<()> {
    match kind {
        b'i' => id(rt, s),
        b'c' => coord(rt, s),
        b'h' => header(rt, s),
        b'd' => directory(rt, s),
        b'f' => sought(rt, s, |bytes, id| walk::find(bytes, id)),
        b'l' => sought(rt, s, |bytes, id| reader::lookup(bytes, id)),
        _ => print!(rt; "no such kind"),
    }?;
    print!(rt; "\n")
}

// What an answer prints.
// Stays: beside std's `Display`, which cannot be written here for types of the crates below and for Option and Result.
trait Tell {
    fn tell(self, rt: &impl Print) -> io::Result<()>;
}

impl Tell for TileId {
    fn tell(self, rt: &impl Print) -> io::Result<()> {
        print!(rt; " {}", self.value())
    }
}

impl Tell for TileCoord {
    fn tell(self, rt: &impl Print) -> io::Result<()> {
        print!(rt; " {} {} {}", self.z(), self.x(), self.y())
    }
}

impl Tell for DirEntry {
    fn tell(self, rt: &impl Print) -> io::Result<()> {
        entry(
            rt,
            Row {
                id: self.tile_id.value(),
                run_length: self.run_length,
                length: self.length,
                offset: self.offset,
            },
        )
    }
}

impl Tell for Found {
    fn tell(self, rt: &impl Print) -> io::Result<()> {
        match self {
            Found::Tile(e) | Found::Leaf(e) => e.tell(rt),
            Found::Absent => print!(rt; "absent"),
        }
    }
}

impl Tell for Option<Located> {
    fn tell(self, rt: &impl Print) -> io::Result<()> {
        match self {
            Some(l) => print!(rt; " {} {}", l.start.0, l.length),
            None => print!(rt; "absent"),
        }
    }
}

impl<T: Tell + Copy> Tell for Result<T, Refusal> {
    fn tell(self, rt: &impl Print) -> io::Result<()> {
        match self {
            Ok(x) => x.tell(rt),
            Err(r) => refused(rt, r),
        }
    }
}

fn refused(rt: &impl Print, r: Refusal) -> io::Result<()> {
    print!(rt; "refused {}", r.number())
}

// Stays: also in examples/src/print.rt, with a space; a crate for these few lines would be longer than they are.
fn hex(rt: &impl Print, s: &[u8]) -> io::Result<()> {
    for b in s {
        print!(rt; "{b:02x}")?;
    }
    Ok(())
}

// Id, run, length and offset.
fn entry(rt: &impl Print, r: Row) -> io::Result<()> {
    print!(rt; " {} {} {} {},", r.id, r.run_length, r.length, r.offset.0)
}

// The zoom is a byte, x and y are varints behind it.
fn id(rt: &impl Print, s: &[u8]) -> io::Result<()> {
    let Some(z) = s.first() else {
        return Ok(());
    };
    let Ok((x, next)) = (Cursor { at: 1 }).read_u32(s) else {
        return Ok(());
    };
    let Ok((y, _)) = next.read_u32(s) else {
        return Ok(());
    };
    TileCoord::new(*z, x, y).and_then(|c| c.to_id()).tell(rt)
}

fn coord(rt: &impl Print, s: &[u8]) -> io::Result<()> {
    let Ok((n, _)) = (Cursor { at: 0 }).read_u64(s) else {
        return Ok(());
    };
    TileId::new(n).and_then(|i| i.to_coord()).tell(rt)
}

fn copied(s: &[u8], out: &mut [u8]) -> Result<(), Refusal> {
    Header::try_from_bytes(s)?.write_to(out)
}

// A header that is read is written again.
fn header(rt: &impl Print, s: &[u8]) -> io::Result<()> {
    let mut out = [0; HEADER_SIZE];
    match copied(s, &mut out) {
        Ok(()) => hex(rt, &out),
        Err(r) => refused(rt, r),
    }
}

// A directory that is read is written again.
fn directory(rt: &impl Print, s: &[u8]) -> io::Result<()> {
    let mut ids = [0; 64];
    let mut runs = [0; 64];
    let mut lengths = [0; 64];
    let mut offsets = [0; 64];
    let mut out = [0; 2048];
    let count = match directory::read(s, &mut ids, &mut runs, &mut lengths, &mut offsets) {
        Ok((count, _)) => count,
        Err(r) => return refused(rt, r),
    };
    let entries = ids.iter().zip(&runs).zip(&lengths).zip(&offsets);
    for (((id, run), length), offset) in entries.take(count) {
        entry(
            rt,
            Row {
                id: *id,
                run_length: *run,
                length: *length,
                offset: Offset(*offset),
            },
        )?;
    }
    print!(rt; " ")?;
    let stores = Stores {
        count,
        ids: &ids,
        runs: &runs,
        lengths: &lengths,
        offsets: &offsets,
    };
    match writer::write(&stores, &mut out) {
        Ok(n) => hex(rt, &out[..n.min(out.len())]),
        Err(r) => refused(rt, r),
    }
}

// An id in ten bytes, as a varint and zeros, and behind them the directory or the archive in which it is sought.
fn sought<T: Tell + Copy, F: Fn(&[u8], TileId) -> Result<T, Refusal>>(
    rt: &impl Print,
    s: &[u8],
    find: F,
) -> io::Result<()>
    requires { F.IsAlwaysCallable find }
{
    let Some(bytes) = s.get(10..) else {
        return Ok(());
    };
    let Ok((n, _)) = (Cursor { at: 0 }).read_u64(s) else {
        return Ok(());
    };
    TileId::new(n).and_then(|i| find(bytes, i)).tell(rt)
}
