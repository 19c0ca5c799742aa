// What the examples take their numbers with, and print with.
use refusal::Refusal;
use std::io;
use varint::Cursor;

// A number of the example's, a varint in ten bytes; 0 where none is.
pub(crate) fn word(p: &[u8], at: usize) -> u64 {
    Cursor { at }.read_u64(p).map_or(0, |(n, _)| n)
}

pub(crate) fn half(p: &[u8], at: usize) -> u32 {
    Cursor { at }.read_u32(p).map_or(0, |(n, _)| n)
}

pub(crate) fn small(p: &[u8], at: usize) -> u8 {
    (word(p, at) % 256) as u8
}

// Stays: also in replay/src/answers.rt, without the space; a crate for these few lines would be longer than they are.
pub(crate) fn hex(rt: &impl Print, s: &[u8]) -> io::Result<()> {
    for b in s {
        print!(rt; " {b:02x}")?;
    }
    Ok(())
}

// What an answer says: its value, as `show` prints it, or the refusal's number.
pub(crate) fn told<T, F: FnOnce(T) -> io::Result<()>>(
    rt: &impl Print,
    answer: Result<T, Refusal>,
    show: F,
) -> io::Result<()>
    requires { F.IsAlwaysCallable show }
{
    match answer {
        Ok(x) => show(x),
        Err(r) => {
            let n = r.number();
            print!(rt; " refused {n}")
        }
    }
}
