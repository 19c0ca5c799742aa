// The way from an archive's root to a tile.
ghost use Rattle.std.specs.Prelude.{◌≡◌, ◌+◌, ◌≤◌, length};
ghost use Rattle.reader.specs.Ranges.{part};
ghost use Rattle.reader.specs.Lookup.{descend as descend_in, lookup as lookup_in, lookup_coord_lem};
ghost use Rattle.reader.specs.Answers.{said_lookup, sections_given};

use crate::ranges::{leaf_range, open, tile_range};
use crate::{Located, Sections};
use directory::Found;
use refusal::Refusal;
use tile::{TileCoord, TileId};

// The bytes of a range that lies in the archive.
fn part(archive: &[u8], start: u64, size: u64) -> &[u8]
    requires { start + size ≤ length archive.now }
    ensures { result.now ≡ part archive.now (record { start = start; size = size }) }
{
    &archive[start as usize..(start + size) as usize]
}

// From the root down: at most three directories follow it.
// Stays: archive and s apart: a struct of both would say that they belong together, which no clause asks.
#[tactic(auto, using(crate::proofs::Inside::range_inside, crate::proofs::Descents::searched, crate::proofs::Descents::unsearched, crate::proofs::Descents::onward_leaf))]
fn descend(
    archive: &[u8],
    s: Sections,
    target: TileId,
    root: &[u8],
) -> Result<Option<Located>, Refusal>
    ensures { said_lookup result ≡ descend_in 3 (sections_given s) archive.now target.0 root.now }
{
    let mut found = walk::find(root, target)?;
    for _ in 0..3u8 {
        let Found::Leaf(e) = found else { break };
        let leaf = leaf_range(archive, s, e)?;
        found = walk::find(part(archive, leaf.start.0, u64::from(leaf.length)), target)?;
    }
    match found {
        Found::Absent => Ok(None),
        Found::Tile(e) => tile_range(archive, s, e).map(Some),
        Found::Leaf(_) => Err(Refusal::TooDeep),
    }
}

#[tactic(auto, using(crate::proofs::Inside::root_in), unfolding(crate::specs::Lookup::lookup, tile::specs::Answers::new_id))]
pub fn lookup(archive: &[u8], target: TileId) -> Result<Option<Located>, Refusal>
    ensures { said_lookup result ≡ lookup_in archive.now target.0 }
{
    TileId::new(target.value())?;
    let s = open(archive)?;
    let root = part(archive, s.root.offset.0, s.root.length);
    descend(archive, s, target, root)
}

#[tactic(auto, unfolding(crate::specs::Lookup::lookup_coord_lem))]
pub fn lookup_coord(archive: &[u8], coord: TileCoord) -> Result<Option<Located>, Refusal>
    ensures { said_lookup result ≡ lookup_coord_lem archive.now coord.z coord.x coord.y }
{
    lookup(archive, coord.to_id()?)
}
