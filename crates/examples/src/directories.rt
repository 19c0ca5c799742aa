// Directories read into stores of three slots that hold 9s. A directory of more entries is short of room.
ghost use Rattle.std.specs.Prelude.{◌≤◌};

use crate::print::told;
use crate::tiles::row;
use directory::{Offset, Row};
use std::{io, iter};

// `d`, with a slot for three lengths: how many entries, how many bytes, and the slots after it. `u`: the same into
// stores of unequal lengths, where one length's slot is to be had: all are cleared, whole. A length with no slot is
// printed as 0.
pub(crate) fn read<const LENGTHS: usize>(rt: &impl Print, s: &[u8]) -> io::Result<()>
    requires { LENGTHS ≤ 3 }
{
    let mut ids = [9u64; 3];
    let mut runs = [9u32; 3];
    let mut lengths = [9u32; LENGTHS];
    let mut offsets = [9u64; 3];
    let answer = directory::read(s, &mut ids, &mut runs, &mut lengths, &mut offsets);
    told(rt, answer, |(n, used)| print!(rt; " {n} {used}"))?;
    let lengths = lengths.iter().chain(iter::repeat(&0));
    for (((id, run), length), offset) in ids.iter().zip(&runs).zip(lengths).zip(&offsets) {
        row(
            rt,
            Row {
                id: *id,
                run_length: *run,
                length: *length,
                offset: Offset(*offset),
            },
        )?;
    }
    Ok(())
}
