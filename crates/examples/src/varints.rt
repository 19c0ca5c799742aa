// Varints at both widths: read, measured, written.
use crate::print::{hex, told, word};
use std::io;
use varint::Cursor;

// `v PLACE`: the number read there, and the place behind it.
pub(crate) fn wide(rt: &impl Print, p: &[u8], s: &[u8]) -> io::Result<()> {
    let at = word(p, 0) as usize;
    told(
        rt,
        Cursor { at }.read_u64(s),
        |(n, next)| print!(rt; " {n} {}", next.at),
    )
}

// `n`: the same at 32 bits, from place 0.
pub(crate) fn narrow(rt: &impl Print, s: &[u8]) -> io::Result<()> {
    told(
        rt,
        Cursor { at: 0 }.read_u32(s),
        |(n, next)| print!(rt; " {n} {}", next.at),
    )
}

// `w NUMBER ROOM`: the number's size; the place behind it when it is written at 1 into so many bytes of 0xEE; the
// bytes.
pub(crate) fn write(rt: &impl Print, p: &[u8]) -> io::Result<()> {
    let x = word(p, 0);
    let mut room = [0xeeu8; 12];
    print!(rt; " {}", varint::size(x))?;
    if let Some(out) = room.get_mut(..word(p, 10) as usize) {
        let next = Cursor { at: 1 }.write(out, x);
        told(rt, next, |c| print!(rt; " {}", c.at))?;
        hex(rt, out)?;
    }
    Ok(())
}
