// The kinds of example. A heading has no answer.
use crate::print::word;
use crate::{building, directories, headers, publishing, tiles, varints, writing};
use std::io;

// Stays: the kind is a byte of the list; an enum would name each kind twice, here and where the byte is read.
pub(crate) fn answer(rt: &impl Print, kind: u8, p: &[u8], s: &[u8]) -> io::Result<()> {
    match kind {
        b'v' => varints::wide(rt, p, s),
        b'n' => varints::narrow(rt, s),
        b'w' => varints::write(rt, p),
        b'i' => tiles::id(rt, p),
        b'c' => tiles::coord(rt, p),
        b'z' => tiles::zoom(rt, p),
        b'f' => tiles::find(rt, p, s),
        b't' => tiles::find_stored(rt, p),
        b'l' => tiles::lookup(rt, word(p, 0), s),
        b'L' => tiles::lookup_coord(rt, p, s),
        b'h' => headers::read(rt, s),
        b'H' => headers::write(rt, p),
        b's' => headers::all_stored(rt),
        b'd' => directories::read::<3>(rt, s),
        b'u' => directories::read::<1>(rt, s),
        b'W' => writing::write(rt, p),
        b'a' => writing::accept(rt, p),
        b'S' => building::measure(rt, p),
        b'B' => building::build(rt, p),
        b'T' => publishing::total(rt, p),
        b'p' => publishing::once(rt, p, s),
        b'P' => publishing::cut(rt),
        _ => Ok(()),
    }?;
    print!(rt; "\n")
}
