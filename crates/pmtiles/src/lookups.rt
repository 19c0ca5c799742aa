// Lookup of a tile in an archive, and the search in one directory.
ghost use Rattle.std.specs.Prelude.{◌≡◌, ◌∷◌, [], MatchOption};
ghost use Rattle.std.proofs.Math.Option.{none, some};
ghost use Rattle.directory.specs.Answers.{entry_of, found_of};
ghost use Rattle.directory.specs.Search.{find_in};
ghost use Rattle.reader.specs.Lookup.{lookup, lookup_coord_lem};
ghost use Rattle.pmtiles.specs.Exports.{Sought, entry_found, entry_values, searched, within};

use crate::slots::{Values, tell_found};
use directory::{DirEntry, Found};
use reader::Located;
use refusal::Refusal;
use tile::{TileCoord, TileId};

impl Values<2> for Located {
    ghost listed = { λ l. l.start.0 ∷ l.length ∷ [] };

    fn values(self) -> [u64; 2] {
        [self.start.0, u64::from(self.length)]
    }
}

impl Values<4> for DirEntry {
    ghost listed = { λ e. entry_values (entry_of e) };

    fn values(self) -> [u64; 4] {
        [
            self.tile_id.value(),
            u64::from(self.run_length),
            u64::from(self.length),
            self.offset.0,
        ]
    }
}

// out: where the contents start in the archive, and their length.
#[tactic(auto, unfolding(tile::specs::Answers::new_id, reader::specs::Lookup::lookup))]
pub fn pmt_lookup(archive: &[u8], id: u64, out: &mut [u64]) -> u8
    ensures { Sought (within 2 out.old (lookup archive.now id)) (λ x. x.start ∷ x.size ∷ []) out.old result out.new }
{
    tell_found(
        out,
        TileId::new(id).and_then(|i| reader::lookup(archive, i)),
    )
}

#[tactic(auto, unfolding(tile::specs::Answers::new_coord, tile::specs::Answers::to_id, reader::specs::Lookup::lookup_coord_lem))]
pub fn pmt_lookup_coord(archive: &[u8], z: u8, x: u32, y: u32, out: &mut [u64]) -> u8
    ensures { Sought (within 2 out.old (lookup_coord_lem archive.now z x y)) (λ x. x.start ∷ x.size ∷ []) out.old result out.new }
{
    tell_found(
        out,
        TileCoord::new(z, x, y).and_then(|c| reader::lookup_coord(archive, c)),
    )
}

// out: the entry's id, run, length and offset; a run of 0 is a pointer to a leaf.
#[tactic(auto, unfolding(tile::specs::Answers::new_id, directory::specs::Search::find_in))]
pub fn pmt_directory_find(bytes: &[u8], id: u64, out: &mut [u64]) -> u8
    ensures { Sought (within 4 out.old (searched (find_in bytes.now id))) entry_values out.old result out.new }
{
    // Stays: room is tested before the directory is walked, which no clause sees; tell_found tests after.
    if out.len() < 4 {
        return Refusal::RoomTooShort.number();
    }
    tell_found(
        out,
        TileId::new(id)
            .and_then(|i| walk::find(bytes, i))
            .map(entry_in),
    )
}

fn entry_in(found: Found) -> Option<DirEntry>
    ensures { MatchOption result
        (entry_found (found_of found) ≡ none)
        (λ e. entry_found (found_of found) ≡ some (entry_of e)) }
{
    match found {
        Found::Tile(e) | Found::Leaf(e) => Some(e),
        Found::Absent => None,
    }
}
