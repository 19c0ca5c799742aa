// Root and leaves built from stores.
ghost use Rattle.std.specs.Prelude.{◌≡◌, ◌∷◌, [], length};
ghost use Rattle.acceptance.specs.Accept.{accepting};
ghost use Rattle.writer.specs.Answers.{building, sizes_in};
ghost use Rattle.pmtiles.specs.Exports.{Answered, BuildTold, within};

use crate::slots::{Values, tell};
use acceptance::Counts;
use directory::Stores;
use refusal::Refusal;
use writer::Sizes;

impl Values<2> for Sizes {
    ghost listed = { λ s. s.root ∷ s.leaves ∷ [] };

    fn values(self) -> [u64; 2] {
        [self.root as u64, self.leaves as u64]
    }
}

impl Values<4> for (Sizes, Counts) {
    ghost listed = { λ p. p.0.root ∷ p.0.leaves ∷ p.1.n_tile_entries ∷ p.1.n_addressed_tiles ∷ [] };

    fn values(self) -> [u64; 4] {
        let (sizes, counts) = self;
        [
            sizes.root as u64,
            sizes.leaves as u64,
            counts.n_tile_entries,
            counts.n_addressed_tiles,
        ]
    }
}

// out: how many bytes the root has, and the leaves.
pub fn pmt_build_sizes(
    count: usize,
    ids: &[u64],
    runs: &[u32],
    lengths: &[u32],
    offsets: &[u64],
    data_length: u64,
    out: &mut [u64],
) -> u8
    ensures { Answered
        (within 2 out.old (sizes_in (accepting count ids.now runs.now lengths.now offsets.now data_length)))
        (λ s. s.root ∷ s.leaves ∷ []) out.old result out.new }
{
    // Stays: room is tested before the entries are gone over, which no clause sees; tell tests after.
    if out.len() < 2 {
        return Refusal::RoomTooShort.number();
    }
    let stores = Stores {
        count,
        ids,
        runs,
        lengths,
        offsets,
    };
    tell(out, writer::build_sizes(&stores, data_length))
}

// out: how many bytes the root has, and the leaves, then how many entries there are, and how many tiles they address.
pub fn pmt_build(
    count: usize,
    ids: &[u64],
    runs: &[u32],
    lengths: &[u32],
    offsets: &[u64],
    data_length: u64,
    root: &mut [u8],
    leaves: &mut [u8],
    out: &mut [u64],
) -> u8
    ensures { BuildTold
        (within 4 out.old (building count ids.now runs.now lengths.now offsets.now data_length (length root.old) (length leaves.old))) result
        root.old root.new leaves.old leaves.new out.old out.new }
{
    // Stays: room is tested before root and leaves are touched: a refusal keeps both (`BuildTold`); tell tests after.
    if out.len() < 4 {
        return Refusal::RoomTooShort.number();
    }
    let stores = Stores {
        count,
        ids,
        runs,
        lengths,
        offsets,
    };
    tell(out, writer::build(&stores, data_length, root, leaves))
}
