// Entries cut into leaves: how large a leaf is, how large the root and the leaves are then, and their bytes.
ghost use Rattle.std.specs.Prelude.{◌≡◌, ◌+◌, ◌≤◌, ◌<◌, length, replicate};
ghost use Rattle.std.proofs.lemmas.List.Edits.{sets};
ghost use Rattle.varint.specs.Varint.{narrow, wide};
ghost use Rattle.directory.specs.Encode.{encode, put_all};
ghost use Rattle.writer.specs.Stock.{Stocked};
ghost use Rattle.writer.specs.Build.{leaf_size, leaves_of, pointers};
ghost use Rattle.writer.specs.Cells.{Rising, Wrote, deltas, in_use, slots};
ghost use Rattle.writer.specs.Cuts.{Measured, cuts, every, first_size_lem, leaf_codes, leaf_end_lem, leaf_lengths};

use crate::Sizes;
use crate::columns::{put_entries, put_number};
use crate::sizing::sized;
use directory::Stores;

// How many bytes a root may have, so that it lies in the first 16 KiB of an archive, behind the header's 127.
pub(crate) const MAX_ROOT: usize = 16257;

// Leaves of so many entries: how many pointers to them the root has, and how large root and leaves are.
#[derive(Clone, Copy)]
pub(crate) struct Split {
    pub(crate) leaf: usize,
    pub(crate) pointers: usize,
    pub(crate) sizes: Sizes,
}

#[tactic(auto, unfolding(crate::specs::Cuts::leaf_end_lem))]
fn leaf_end(from: usize, k: usize, count: usize) -> usize
    requires { from < count }
    ensures { result ≡ leaf_end_lem from k count }
{
    from + k.min(count - from)
}

// Leaves of k entries, measured in one pass. In the root a pointer's run, 0, and its offset's code, 1 or 0, take a byte
// each.
// Stays: `Stocked` as a clause: a ghost field would need it in ∥ ∥₁, with a proof beside it, which is no plainer.
// Stays: `0 < k`, here and below: a NonZeroUsize would go through the arithmetic that makes k anew in `choose`.
fn measure(stores: &Stores, k: usize) -> Split
    requires { (0 < k) × Stocked stores.now }
    ensures { Measured stores.now.count (slots stores.now) k result }
{
    let n = stores.count.div_ceil(k);
    let mut root: usize = 0;
    let mut leaves: usize = 0;
    let mut prev: u64 = 0;
    for from in (0..stores.count).step_by(k) {
        let to = leaf_end(from, k, stores.count);
        let length = sized(stores, from, to);
        let id = stores.ids[from];
        root += varint::size(id - prev) + varint::size(length as u64) + 2;
        leaves += length;
        prev = id;
    }
    Split {
        leaf: k,
        pointers: n,
        sizes: Sizes {
            root: varint::size(n as u64) + root,
            leaves,
        },
    }
}

#[tactic(auto, unfolding(crate::specs::Cuts::first_size_lem))]
fn first_size(count: usize) -> usize
    ensures { result ≡ first_size_lem count }
{
    (count / 3500).max(4096)
}

// The first leaf size whose root fits. It ends because one pointer always does.
pub(crate) fn choose(stores: &Stores) -> Split
    requires { Stocked stores.now }
    ensures { Measured stores.now.count (slots stores.now)
        (leaf_size stores.now.count (first_size_lem stores.now.count) (in_use stores.now)) result }
{
    let mut p = measure(stores, first_size(stores.count));
    while MAX_ROOT < p.sizes.root {
        let k = p.leaf;
        p = measure(stores, k + k / 5);
    }
    p
}

// The root's ids: those at which a leaf of k entries starts.
// Stays: beside put_ids, whose step is always 1: with one function for both, build took a fifth longer.
// Stays: buffer and place apart: a struct that holds the buffer would say each fact about it through a reference.
fn put_first_ids(out: &mut [u8], start: usize, ids: &[u64], k: usize) -> usize
    requires { (0 < k) × Rising 0 (every k 0 ids.now)
        × (start + length (put_all wide (deltas 0 (every k 0 ids.now))) ≤ length out.old) }
    ensures { Wrote out.old start (put_all wide (deltas 0 (every k 0 ids.now))) out.new result }
{
    let mut at = start;
    let mut prev: u64 = 0;
    // Stays: by index, since with `ids.iter().step_by(k)` `build` took 7% longer.
    for i in (0..ids.len()).step_by(k) {
        let id = ids[i];
        at = put_number(out, at, id - prev);
        prev = id;
    }
    at
}

// Stays: buffer and place apart, as in put_first_ids.
fn put_zeros(out: &mut [u8], start: usize, n: usize) -> usize
    requires { start + n ≤ length out.old }
    ensures { Wrote out.old start (replicate n 0) out.new result }
{
    let end = start + n;
    out[start..end].fill(0);
    end
}

// The root's offset codes: the first leaf lies at 0, and each one follows the one before.
// Stays: buffer and place apart, as in put_first_ids.
fn put_codes(out: &mut [u8], start: usize, n: usize) -> usize
    requires { start + n ≤ length out.old }
    ensures { Wrote out.old start (leaf_codes n) out.new result }
{
    if n == 0 {
        return start;
    }
    out[start] = 1;
    put_zeros(out, start + 1, n - 1)
}

// Each leaf, straight into the rest of the leaf buffer, and its length into the root.
// Stays: buffer and place apart, as in put_first_ids.
fn put_leaves(root: &mut [u8], start: usize, stores: &Stores, k: usize, leaves: &mut [u8]) -> usize
    requires { (0 < k) × Stocked stores.now
        × (start + length (put_all narrow (leaf_lengths (cuts k 0 stores.now.count (slots stores.now)))) ≤ length root.old)
        × (length (leaves_of (cuts k 0 stores.now.count (slots stores.now))) ≤ length leaves.old) }
    ensures { Wrote root.old start (put_all narrow (leaf_lengths (cuts k 0 stores.now.count (slots stores.now)))) root.new result
        × (leaves.new ≡ sets leaves.old 0 (leaves_of (cuts k 0 stores.now.count (slots stores.now)))) }
{
    let mut at = start;
    let mut leaf: usize = 0;
    for from in (0..stores.count).step_by(k) {
        let to = leaf_end(from, k, stores.count);
        let length = put_entries(stores, from, to, &mut leaves[leaf..]);
        at = put_number(root, at, length as u64);
        leaf += length;
    }
    at
}

// A root of pointers to leaves, and the leaves.
pub(crate) fn put_split(stores: &Stores, split: Split, root: &mut [u8], leaves: &mut [u8])
    requires { (0 < split.leaf) × Stocked stores.now
        × Measured stores.now.count (slots stores.now) split.leaf split
        × (split.sizes.root ≤ length root.old) × (split.sizes.leaves ≤ length leaves.old) }
    ensures { (root.new ≡ sets root.old 0 (encode (pointers 0 (cuts split.leaf 0 stores.now.count (slots stores.now)))))
        × (leaves.new ≡ sets leaves.old 0 (leaves_of (cuts split.leaf 0 stores.now.count (slots stores.now)))) }
{
    let k = split.leaf;
    let n = split.pointers;
    let a = put_number(root, 0, n as u64);
    let b = put_first_ids(root, a, &stores.ids[..stores.count], k);
    let c = put_zeros(root, b, n);
    let d = put_leaves(root, c, stores, k, leaves);
    put_codes(root, d, n);
}
