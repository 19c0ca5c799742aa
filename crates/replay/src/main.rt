// Replays a list: stdin has the inputs, and the file stdout what the Rust answered to each, a line for each input.
// README.md says how both were made.
#![tactic(auto)]

ghost use Rattle.std.specs.Prelude.{◌≤◌, ◌<◌, length, IfOk, IfSome};

use std::io::{self, Read};

mod answers;

// How much of a list is read.
const MOST: usize = 262144;

// The first input of a list, and the list behind it. An input is its kind, its length in two bytes, lowest first, and
// so many bytes.
fn split_input(list: &[u8]) -> Option<(u8, &[u8], &[u8])>
    ensures { IfSome result (λ (kind, input, behind). length behind.now < length list.now) }
{
    let (&[kind, low, high], rest) = list.split_first_chunk::<3>()?;
    let (input, behind) = rest.split_at_checked(usize::from(u16::from_le_bytes([low, high])))?;
    Some((kind, input, behind))
}

// Stays: also `run` of examples/src/main.rt; a crate for these few lines would be longer than they are.
fn replay(rt: &impl Print, list: &[u8]) -> io::Result<()> {
    let mut rest = list;
    while let Some((kind, input, behind)) = split_input(rest) {
        answers::answer(rt, kind, input)?;
        rest = behind;
    }
    Ok(())
}

// Reads until the buffer is full or the input ends, and answers how many bytes of it are read.
// Stays: a buffer of a size that is fixed: `read_to_end` needs the heap, where this needs no memory that may be refused.
// Stays: also in examples/src/main.rt; a crate for these few lines would be longer than they are.
fn read_full(rt: &impl Input, buffer: &mut [u8]) -> io::Result<usize>
    ensures { IfOk result (λ n. n ≤ length buffer.new) }
{
    let mut input = rt.reader();
    let mut done: usize = 0;
    while done < buffer.len() {
        let n = input.read(&mut buffer[done..])?;
        if n == 0 {
            break;
        }
        done += n;
    }
    Ok(done)
}

fn main(rt: HostRuntime) -> io::Result<()> {
    let mut list = [0; MOST];
    let n = read_full(&rt, &mut list)?;
    replay(&rt, &list[..n])
}
