// The stores of one call, by sections: each is one fill or copy of the part of it that the call covers.
ghost use Rattle.std.specs.Prelude.{◌≡◌, ◌+◌, ◌-◌, ◌≤◌, min, length};
ghost use Rattle.publisher.specs.Plan.{upward, zeros, behind, front};
ghost use Rattle.publisher.specs.Cuts.{Done, past};

use crate::Parts;
use header::{HEADER_SIZE, MAX_INITIAL_BYTES};
use std::ops::Range;

// Where a call stands before a section: how many of the stores ahead it skips, and how many it may still do.
#[derive(Clone, Copy)]
pub(crate) struct Cut {
    pub(crate) skip: usize,
    pub(crate) left: usize,
}

impl Cut {
    // The stores that the call does of a section of n, which then lies behind it.
    #[tactic(auto, unfolding(crate::specs::Cuts::past))]
    fn pass(&mut self, n: usize) -> Range<usize>
        ensures start { result.start ≡ min self.old.skip n }
        ensures end { result.end ≡ min self.old.skip n + min self.old.left (n - self.old.skip) }
        ensures behind { self.new ≡ past n self.old }
    {
        let start = self.skip.min(n);
        let count = self.left.min(n - start);
        self.skip -= start;
        self.left -= count;
        start..start + count
    }
}

// The section that puts src's bytes upward from a place.
// Stays: dest and cut side by side, here and below: in a struct, `Done` would reach dest through a loan within a loan.
fn section(src: &[u8], dest: &mut [u8], place: usize, cut: &mut Cut)
    requires { place + length src.now ≤ length dest.old }
    ensures { Done (upward place src.now) cut.old dest.old cut.new dest.new }
{
    let part = cut.pass(src.len());
    copy_up(
        &src[part.start..part.end],
        &mut dest[place + part.start..place + part.end],
    );
}

// Each byte of src into its slot, upward, as the plan stores them.
// Stays: a loop, since `copy_from_slice` is a memmove, which stores in an order of its own.
fn copy_up(src: &[u8], dest: &mut [u8])
    requires { length src.now ≡ length dest.old }
    ensures { dest.new ≡ src.now }
{
    for (i, slot) in dest.iter_mut().enumerate() {
        *slot = src[i];
    }
}

// The zeros, metadata, data and leaves.
pub(crate) fn fill_behind(parts: &Parts, dest: &mut [u8], cut: &mut Cut)
    requires { 16384 + length parts.now.metadata.now + length parts.now.tiles.now + length parts.now.leaves.now ≤ length dest.old }
    ensures { Done (behind parts.now.metadata.now parts.now.tiles.now parts.now.leaves.now) cut.old dest.old cut.new dest.new }
{
    let at_tiles = MAX_INITIAL_BYTES + parts.metadata.len();
    let at_leaves = at_tiles + parts.tiles.len();
    dest[cut.pass(MAX_INITIAL_BYTES)].fill(0);
    section(parts.metadata, dest, MAX_INITIAL_BYTES, cut);
    section(parts.tiles, dest, at_tiles, cut);
    section(parts.leaves, dest, at_leaves, cut);
}

// The root, then header bytes 1 to 126, then header byte 0, which makes the archive one.
pub(crate) fn fill_front(header: &[u8; HEADER_SIZE], root: &[u8], dest: &mut [u8], cut: &mut Cut)
    requires root_len_bound { length root.now ≤ 16257 }
    requires in_bounds { 16384 ≤ length dest.old }
    ensures { Done (front header.now root.now) cut.old dest.old cut.new dest.new }
{
    let (first, rest) = header.split_at(1);
    section(root, dest, HEADER_SIZE, cut);
    section(rest, dest, 1, cut);
    section(first, dest, 0, cut);
}
