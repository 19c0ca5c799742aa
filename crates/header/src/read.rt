// Reading: the codes, tested where they stand, and then all fields.
ghost use Rattle.std.specs.Prelude.{◌≡◌, ◌+◌, ◌≤◌, leb, length};
ghost use Rattle.refusal.specs.Number.{number_of};
ghost use Rattle.refusal.specs.Out.{need, ok};
ghost use Rattle.refusal.specs.Said.{said};
ghost use Rattle.header.specs.Bytes.{byte_at, number_at};
ghost use Rattle.header.specs.Header.{degree_at_lem, degrees_at_lem, fields_of, read_fields_lem};

use crate::{Degrees, HEADER_SIZE, Header, MAX_COMPRESSION, MAX_TILE_TYPE, known};
use degrees::degrees_of;
use refusal::Refusal;

#[tactic(auto, using(crate::proofs::LittleEndian::u64_from_bytes))]
fn u64_at(bytes: &[u8], at: usize) -> u64
    requires { at + 8 ≤ length bytes.now }
    ensures { result ≡ number_at 8 bytes.now at }
{
    u64::from_le_bytes(bytes[at..at + 8].try_into().unwrap())
}

// The coordinate at a place, in degrees.
#[tactic(auto, using(crate::proofs::LittleEndian::u32_from_bytes, crate::proofs::Twos::signed_is))]
fn degree_at(bytes: &[u8], at: usize) -> f64
    requires { at + 4 ≤ length bytes.now }
    ensures { result ≡ degree_at_lem bytes.now at }
{
    degrees_of(i32::from_le_bytes(bytes[at..at + 4].try_into().unwrap()))
}

#[tactic(auto, unfolding(crate::specs::Header::degrees_at_lem))]
fn degrees_at(bytes: &[u8; HEADER_SIZE]) -> Degrees
    ensures { result ≡ degrees_at_lem bytes.now }
{
    Degrees {
        min_longitude: degree_at(bytes, 102),
        min_latitude: degree_at(bytes, 106),
        max_longitude: degree_at(bytes, 110),
        max_latitude: degree_at(bytes, 114),
        center_longitude: degree_at(bytes, 119),
        center_latitude: degree_at(bytes, 123),
    }
}

// The fields of a header that is whole.
#[tactic(auto, unfolding(crate::specs::Header::fields_of))]
pub(crate) fn fields_of(bytes: &[u8; HEADER_SIZE]) -> Header
    ensures { result ≡ fields_of bytes.now }
{
    Header {
        version: bytes[7],
        root_offset: u64_at(bytes, 8),
        root_length: u64_at(bytes, 16),
        metadata_offset: u64_at(bytes, 24),
        metadata_length: u64_at(bytes, 32),
        leaf_offset: u64_at(bytes, 40),
        leaf_length: u64_at(bytes, 48),
        data_offset: u64_at(bytes, 56),
        data_length: u64_at(bytes, 64),
        n_addressed_tiles: u64_at(bytes, 72),
        n_tile_entries: u64_at(bytes, 80),
        n_tile_contents: u64_at(bytes, 88),
        clustered: bytes[96] == 1,
        internal_compression: bytes[97],
        tile_compression: bytes[98],
        tile_type: bytes[99],
        min_zoom: bytes[100],
        max_zoom: bytes[101],
        degrees: degrees_at(bytes),
        center_zoom: bytes[118],
    }
}

// A check: Ok if the bytes reach the code at a place and it is known, else why not.
fn code_at(bytes: &[u8], at: usize, largest: u8, unknown: Refusal) -> Result<(), Refusal>
    ensures { said (λ u. u) result ≡ need (leb (at + 1) (length bytes.now)) 1 (need (leb (byte_at bytes.now at) largest) (number_of unknown) (ok tt)) }
{
    let code = *bytes.get(at).ok_or(Refusal::InvalidHeader)?;
    known(code, largest, unknown)
}

// The bytes of a header, in order: each code is tested where it stands, even if fields behind it are missing.
// The bytes and not yet the fields, so that a refusal moves no header about.
// Stays: `?` and `Ok`, since the clause did not prove of the `ok_or` itself.
#[tactic(auto, using(crate::proofs::Start::fields_start), unfolding(crate::specs::Header::read_fields_lem))]
pub(crate) fn known_start(bytes: &[u8]) -> Result<&[u8; HEADER_SIZE], Refusal>
    ensures { said (λ start. fields_of start.now) result ≡ read_fields_lem bytes.now }
{
    code_at(bytes, 97, MAX_COMPRESSION, Refusal::InvalidCompression)?;
    code_at(bytes, 98, MAX_COMPRESSION, Refusal::InvalidCompression)?;
    code_at(bytes, 99, MAX_TILE_TYPE, Refusal::InvalidTileType)?;
    let start = bytes.first_chunk().ok_or(Refusal::InvalidHeader)?;
    Ok(start)
}
