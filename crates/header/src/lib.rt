// The header of an archive: its first 127 bytes, read and written.
#![tactic(auto)]

ghost use Rattle.std.specs.Prelude.{◌++◌, ◌≡◌, ◌≤◌, ◌↔◌, IfErr, IsOk, drop, length};
ghost use Rattle.refusal.specs.Out.{afterwards};
ghost use Rattle.header.specs.Answers.{said_read, said_written};
ghost use Rattle.header.specs.Header.{default_header, header_bytes, read_header, write_header};

use refusal::Refusal;

mod read;
mod write;

// How many bytes a header has.
pub const HEADER_SIZE: usize = 127;

// The header and the room behind it for the root directory: where the metadata of a new archive starts.
pub const MAX_INITIAL_BYTES: usize = 16384;

// The largest codes: none, gzip, brotli and zstd are 1 to 4, MVT to MLT 1 to 6. 0 says `unknown`, and is a code too.
pub const MAX_COMPRESSION: u8 = 4;

pub const MAX_TILE_TYPE: u8 = 6;

const NO_COMPRESSION: u8 = 1;

// Bounds and centre, in degrees.
#[derive(Clone, Copy, Debug, PartialEq)]
pub struct Degrees {
    pub min_longitude: f64,
    pub min_latitude: f64,
    pub max_longitude: f64,
    pub max_latitude: f64,
    pub center_longitude: f64,
    pub center_latitude: f64,
}

// A count of 0 is an unknown one.
// Stays: the codes are numbers, since writing must refuse a wrong one (`write_header`), and C passes numbers.
#[derive(Clone, Copy, Debug, PartialEq)]
pub struct Header {
    pub version: u8,
    pub root_offset: u64,
    pub root_length: u64,
    pub metadata_offset: u64,
    pub metadata_length: u64,
    pub leaf_offset: u64,
    pub leaf_length: u64,
    pub data_offset: u64,
    pub data_length: u64,
    pub n_addressed_tiles: u64,
    pub n_tile_entries: u64,
    pub n_tile_contents: u64,
    pub clustered: bool,
    pub internal_compression: u8,
    pub tile_compression: u8,
    pub tile_type: u8,
    pub min_zoom: u8,
    pub max_zoom: u8,
    pub degrees: Degrees,
    pub center_zoom: u8,
}

impl Header {
    // The header of an archive that is still to be filled: the whole world, at zooms 0 to 22. The codes are held as
    // given.
    pub fn new(tile_compression: u8, tile_type: u8) -> Header
        ensures { result ≡ default_header tile_compression tile_type }
    {
        Header {
            version: 3,
            root_offset: HEADER_SIZE as u64,
            root_length: 0,
            metadata_offset: MAX_INITIAL_BYTES as u64,
            metadata_length: 0,
            leaf_offset: 0,
            leaf_length: 0,
            data_offset: 0,
            data_length: 0,
            n_addressed_tiles: 0,
            n_tile_entries: 0,
            n_tile_contents: 0,
            clustered: true,
            internal_compression: NO_COMPRESSION,
            tile_compression,
            tile_type,
            min_zoom: 0,
            max_zoom: 22,
            degrees: Degrees {
                min_longitude: -180.0,
                min_latitude: -85.051129,
                max_longitude: 180.0,
                max_latitude: 85.051129,
                center_longitude: 0.0,
                center_latitude: 0.0,
            },
            center_zoom: 0,
        }
    }

    // The header at the start of an archive. The version is not checked, and what follows the 127 bytes does not count.
    #[tactic(auto, unfolding(crate::specs::Header::read_header))]
    pub fn try_from_bytes(bytes: &[u8]) -> Result<Header, Refusal>
        ensures { said_read result ≡ read_header bytes.now }
    {
        if bytes.len() < 7 {
            return Err(Refusal::InvalidHeader);
        }
        // Stays: returned early: as one of three cases, a refusal would be copied with all the room that a header takes.
        if !bytes.starts_with(b"PMTiles") {
            return Err(if bytes.starts_with(b"PM") {
                Refusal::UnsupportedPmTilesVersion
            } else {
                Refusal::InvalidMagicNumber
            });
        }
        let start = read::known_start(bytes)?;
        Ok(read::fields_of(start))
    }

    // The header into the first 127 bytes of an output. All fields go as they are held, the version too.
    #[tactic(auto, using(crate::proofs::Passing::passing), unfolding(crate::specs::Header::write_header))]
    pub fn write_to(self, out: &mut [u8]) -> Result<(), Refusal>
        ensures answer { said_written result ≡ write_header self (length out.old) }
        ensures bytes { out.new ≡ afterwards (write_header self (length out.old)) out.old (λ _. header_bytes self ++ drop 127 out.old) }
    {
        known(
            self.internal_compression,
            MAX_COMPRESSION,
            Refusal::InvalidCompression,
        )?;
        known(
            self.tile_compression,
            MAX_COMPRESSION,
            Refusal::InvalidCompression,
        )?;
        known(self.tile_type, MAX_TILE_TYPE, Refusal::InvalidTileType)?;
        let Some(start) = out.first_chunk_mut() else {
            return Err(Refusal::RoomTooShort);
        };
        write::put_header(start, self);
        Ok(())
    }
}

// A check: a code up to the largest passes, 0 too; for one above it the answer is the refusal that is given.
pub(crate) fn known(code: u8, largest: u8, unknown: Refusal) -> Result<(), Refusal>
    ensures when { IsOk result ↔ (code ≤ largest) }
    ensures why { IfErr result (λ r. r ≡ unknown) }
{
    if code > largest { Err(unknown) } else { Ok(()) }
}
