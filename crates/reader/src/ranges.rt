// Where the sections of an archive lie, and an entry's range in its section, by exact sums.
ghost use Rattle.std.specs.Prelude.{◌≡◌, ◌+◌, length, leb};
ghost use Rattle.refusal.specs.Out.{ok, need};
ghost use Rattle.refusal.specs.Said.{said};
ghost use Rattle.directory.specs.Answers.{entry_of};
ghost use Rattle.reader.specs.Ranges.{opened, opened_in, range_in_lem};
ghost use Rattle.reader.specs.Answers.{said_opened, said_ranged, section_of};

use crate::{Located, Section, Sections};
use directory::{DirEntry, Offset};
use header::Header;
use refusal::Refusal;

// The code of a header for bytes that are as they are.
const NO_COMPRESSION: u8 = 1;

// Where so many bytes from a place on end, which may be no further than the limit.
fn end_within(limit: u64, start: u64, length: u64) -> Result<u64, Refusal>
    ensures { said (λ end. end) result ≡ need (leb (start + length) limit) 17 (ok (start + length)) }
{
    start
        .checked_add(length)
        .filter(|end| *end <= limit)
        .ok_or(Refusal::RangeOutside)
}

// The sections of an archive whose directories are not compressed and whose root lies in it.
#[tactic(auto, unfolding(crate::specs::Ranges::opened))]
pub fn open(archive: &[u8]) -> Result<Sections, Refusal>
    ensures { said_opened result ≡ opened archive.now }
{
    sections(Header::try_from_bytes(archive)?, archive.len() as u64)
}

#[tactic(auto, unfolding(crate::specs::Ranges::opened_in))]
fn sections(h: Header, total: u64) -> Result<Sections, Refusal>
    ensures { said_opened result ≡ opened_in h total }
{
    if h.internal_compression != NO_COMPRESSION {
        return Err(Refusal::CompressedDirectories);
    }
    end_within(total, h.root_offset, h.root_length)?;
    Ok(Sections {
        root: Section {
            offset: Offset(h.root_offset),
            length: h.root_length,
        },
        leaves: Section {
            offset: Offset(h.leaf_offset),
            length: h.leaf_length,
        },
        tiles: Section {
            offset: Offset(h.data_offset),
            length: h.data_length,
        },
    })
}

// The range of an entry in a section of an archive of `total` bytes.
#[tactic(auto, unfolding(crate::specs::Ranges::range_in_lem))]
fn range_in(s: Section, total: u64, e: DirEntry) -> Result<Located, Refusal>
    ensures { said_ranged result ≡ range_in_lem (section_of s) total (entry_of e) }
{
    let end = end_within(s.length, e.offset.0, u64::from(e.length))?;
    end_within(total, s.offset.0, end)?;
    Ok(Located {
        start: Offset(s.offset.0 + e.offset.0),
        length: e.length,
    })
}

// The leaf that a pointer of an archive points to.
// Stays: archive and s apart: a struct of both would say that they belong together, which no clause asks.
pub fn leaf_range(archive: &[u8], s: Sections, pointer: DirEntry) -> Result<Located, Refusal>
    ensures { said_ranged result ≡ range_in_lem (section_of s.leaves) (length archive.now) (entry_of pointer) }
{
    range_in(s.leaves, archive.len() as u64, pointer)
}

// The contents of a tile's entry.
pub fn tile_range(archive: &[u8], s: Sections, tile: DirEntry) -> Result<Located, Refusal>
    ensures { said_ranged result ≡ range_in_lem (section_of s.tiles) (length archive.now) (entry_of tile) }
{
    range_in(s.tiles, archive.len() as u64, tile)
}
