// The worked examples of the format, run. stdin holds them, made from records.txt by make-stdin: one input after
// another, each with its name. A line is printed for each, the name and what the core says; what must be printed stands
// in the file stdout, written by hand from the format's rules.
#![tactic(auto)]

ghost use Rattle.std.specs.Prelude.{◌≤◌, ◌<◌, length, IfOk, IfSome};

use std::io::{self, Read};

mod answers;
mod building;
mod directories;
mod headers;
mod print;
mod publishing;
mod tiles;
mod varints;
mod writing;

// The examples are at most so many bytes.
const MOST: usize = 65536;

// An example: its kind, its name, its numbers and its bytes.
#[derive(Clone, Copy)]
struct Example<'a> {
    kind: u8,
    name: &'a [u8],
    numbers: &'a [u8],
    bytes: &'a [u8],
}

// The example that a list begins with, and the list behind it: its kind; the sizes of its name, numbers and bytes,
// lowest byte first; and these three.
fn first(list: &[u8]) -> Option<(Example<'_>, &[u8])>
    ensures { IfSome result (λ r. length r.1.now < length list.now) }
{
    let (head, rest) = list.split_first_chunk::<7>()?;
    let [kind, a, b, c, d, e, f] = *head;
    let (name, rest) = rest.split_at_checked(usize::from(u16::from_le_bytes([a, b])))?;
    let (numbers, rest) = rest.split_at_checked(usize::from(u16::from_le_bytes([c, d])))?;
    let (bytes, rest) = rest.split_at_checked(usize::from(u16::from_le_bytes([e, f])))?;
    let example = Example {
        kind,
        name,
        numbers,
        bytes,
    };
    Some((example, rest))
}

// Stays: also `replay` of replay/src/main.rt; a crate for these few lines would be longer than they are.
fn run(rt: &impl Print, list: &[u8]) -> io::Result<()> {
    let mut list = list;
    while let Some((example, rest)) = first(list) {
        rt.write_all(example.name)?;
        answers::answer(rt, example.kind, example.numbers, example.bytes)?;
        list = rest;
    }
    Ok(())
}

// Reads until the buffer is full or the input ends, and answers how many bytes of it are read.
// Stays: a buffer of a size that is fixed: `read_to_end` needs the heap, where this needs no memory that may be refused.
// Stays: also in replay/src/main.rt; a crate for these few lines would be longer than they are.
fn read_full(rt: &impl Input, buffer: &mut [u8]) -> io::Result<usize>
    ensures { IfOk result (λ n. n ≤ length buffer.new) }
{
    let mut input = rt.reader();
    let mut done: usize = 0;
    while done < buffer.len() {
        let n = input.read(&mut buffer[done..])?;
        if n == 0 {
            break;
        }
        done += n;
    }
    Ok(done)
}

fn main(rt: HostRuntime) -> io::Result<()> {
    let mut list = [0; MOST];
    let n = read_full(&rt, &mut list)?;
    run(&rt, &list[..n])
}
