// The header of a publication, and its bytes.
ghost use Rattle.std.specs.Prelude.{◌≡◌, ◌+◌, ◌-◌, ◌≤◌, ◌^◌};
ghost use Rattle.refusal.specs.Out.{ok};
ghost use Rattle.header.specs.Header.{header_bytes, write_header};
ghost use Rattle.publisher.specs.Plan.{header_for};

use crate::{Lengths, Settings};
use acceptance::Counts;
use header::{HEADER_SIZE, Header, MAX_INITIAL_BYTES};

// The header of an archive whose sections have so many bytes. The contents are not counted.
// Stays: settings and counts apart: one is the caller's, the other the builder's, and only the header joins them.
#[tactic(auto, unfolding(crate::specs::Plan::header_for, header::specs::Header::default_header))]
pub(crate) fn heading(settings: Settings, counts: Counts, lengths: Lengths) -> Header
    requires { 16384 + lengths.metadata + lengths.tiles ≤ 2 ^ 64 - 1 }
    ensures { result ≡ header_for settings counts lengths.root lengths.metadata lengths.tiles lengths.leaves }
{
    let data_offset = MAX_INITIAL_BYTES as u64 + lengths.metadata;
    let data_end = data_offset + lengths.tiles;
    Header {
        root_length: lengths.root,
        metadata_length: lengths.metadata,
        leaf_offset: if lengths.leaves == 0 { 0 } else { data_end },
        leaf_length: lengths.leaves,
        data_offset,
        data_length: lengths.tiles,
        n_addressed_tiles: counts.n_addressed_tiles,
        n_tile_entries: counts.n_tile_entries,
        min_zoom: settings.min_zoom,
        max_zoom: settings.max_zoom,
        degrees: settings.degrees,
        center_zoom: settings.center_zoom,
        ..Header::new(settings.tile_compression, settings.tile_type)
    }
}

// The bytes of a header that can be written.
pub(crate) fn bytes_of(header: Header) -> [u8; HEADER_SIZE]
    requires { write_header header 127 ≡ ok tt }
    ensures { result ≡ header_bytes header }
{
    let mut bytes = [0; HEADER_SIZE];
    header.write_to(&mut bytes).unwrap();
    bytes
}
