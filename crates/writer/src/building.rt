// Root and leaves of what the stores hold.
ghost use Rattle.std.specs.Prelude.{◌≡◌, length};
ghost use Rattle.refusal.specs.Out.{afterwards};
ghost use Rattle.directory.specs.Answers.{over};
ghost use Rattle.acceptance.specs.Accept.{accepting};
ghost use Rattle.acceptance.specs.Answers.{counts_of};
ghost use Rattle.writer.specs.Stock.{Stocked};
ghost use Rattle.writer.specs.Build.{build};
ghost use Rattle.writer.specs.Answers.{BuiltFrom, building, fitted, laid, said_sized, sizes_in, sizes_of};
ghost use Rattle.writer.specs.Cells.{in_use, slots};
ghost use Rattle.writer.specs.Cuts.{Planned, sizes_planned};

use crate::Sizes;
use crate::columns::put_entries;
use crate::leaves::{MAX_ROOT, Split, choose, put_split};
use crate::sizing::sized;
use acceptance::{Counts, accept};
use directory::Stores;
use refusal::Refusal;

// A root only, of so many bytes, or leaves too.
#[derive(Clone, Copy)]
enum Layout {
    Root(usize),
    Leaves(Split),
}

impl Layout {
    fn sizes(self) -> Sizes
        ensures { result ≡ sizes_planned self }
    {
        match self {
            Layout::Root(root) => Sizes { root, leaves: 0 },
            Layout::Leaves(split) => split.sizes,
        }
    }
}

// A root only where it fits, else leaves.
fn plan(stores: &Stores) -> Layout
    requires { Stocked stores.now }
    ensures { Planned stores.now.count (slots stores.now) result }
{
    if stores.count < 16384 {
        let n = sized(stores, 0, stores.count);
        if n <= MAX_ROOT {
            return Layout::Root(n);
        }
    }
    Layout::Leaves(choose(stores))
}

// How many bytes `build` writes.
pub fn build_sizes(stores: &Stores, data_length: u64) -> Result<Sizes, Refusal>
    ensures { said_sized result ≡ sizes_in (over stores.now accepting data_length) }
{
    accept(stores, data_length)?;
    Ok(plan(stores).sizes())
}

// Entries that were accepted.
fn finish(stores: &Stores, root: &mut [u8], leaves: &mut [u8]) -> Result<Sizes, Refusal>
    requires { Stocked stores.now }
    ensures { (said_sized result ≡ sizes_in (fitted (in_use stores.now) (length root.old) (length leaves.old)))
        × (root.new ≡ afterwards (fitted (in_use stores.now) (length root.old) (length leaves.old)) root.old (λ es. laid (build es).root root.old))
        × (leaves.new ≡ afterwards (fitted (in_use stores.now) (length root.old) (length leaves.old)) leaves.old (λ es. laid (build es).leaves leaves.old)) }
{
    let p = plan(stores);
    let sizes = p.sizes();
    if root.len() < sizes.root || leaves.len() < sizes.leaves {
        return Err(Refusal::RoomTooShort);
    }
    match p {
        Layout::Root(_) => {
            put_entries(stores, 0, stores.count, root);
        }
        Layout::Leaves(split) => put_split(stores, split, root, leaves),
    }
    Ok(sizes)
}

// Root and leaves of the entries that count, at the start of their buffers.
pub fn build(
    stores: &Stores,
    data_length: u64,
    root: &mut [u8],
    leaves: &mut [u8],
) -> Result<(Sizes, Counts), Refusal>
    ensures { BuiltFrom (over stores.now building data_length (length root.old) (length leaves.old)) counts_of result
        root.old leaves.old root.new leaves.new }
{
    let counts = accept(stores, data_length)?;
    let sizes = finish(stores, root, leaves)?;
    Ok((sizes, counts))
}
