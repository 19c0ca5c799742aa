// Directories read into lent stores.
ghost use Rattle.std.specs.Prelude.{◌≡◌, ◌∷◌, []};
ghost use Rattle.directory.specs.Stores.{reading};
ghost use Rattle.pmtiles.specs.Exports.{DirectoryTold, within};

use crate::slots::{Values, tell};
use refusal::Refusal;

impl Values<2> for (usize, usize) {
    ghost listed = { λ p. p.0 ∷ p.1 ∷ [] };

    fn values(self) -> [u64; 2] {
        [self.0 as u64, self.1 as u64]
    }
}

// out: how many entries, and how many bytes they took. A refusal leaves every slot of all four stores zero, also where
// out is too short.
pub fn pmt_directory_read(
    bytes: &[u8],
    ids: &mut [u64],
    runs: &mut [u32],
    lengths: &mut [u32],
    offsets: &mut [u64],
    out: &mut [u64],
) -> u8
    ensures { DirectoryTold
        (within 2 out.old (reading bytes.now ids.old runs.old lengths.old offsets.old)) result
        ids.old ids.new runs.old runs.new
        lengths.old lengths.new offsets.old offsets.new
        out.old out.new }
{
    // Stays: room is tested before entries are read: a refusal leaves zeros (`DirectoryTold`); tell tests after.
    if out.len() < 2 {
        ids.fill(0);
        runs.fill(0);
        lengths.fill(0);
        offsets.fill(0);
        return Refusal::RoomTooShort.number();
    }
    tell(out, directory::read(bytes, ids, runs, lengths, offsets))
}
