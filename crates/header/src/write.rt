// Writing: the fields put into the 127 bytes of a header, a few at a time.
ghost use Rattle.std.specs.Prelude.{◌≡◌, ◌+◌, ◌≤◌, length};
ghost use Rattle.std.proofs.lemmas.List.Edits.{sets};
ghost use Rattle.header.specs.Header.{coordinate, field_bytes, header_bytes, u64};

use crate::{HEADER_SIZE, Header};
use degrees::stored_of;

fn put(out: &mut [u8], at: usize, bytes: &[u8])
    requires { at + length bytes.now ≤ length out.old }
    ensures { out.new ≡ sets out.old at bytes.now }
{
    out[at..at + bytes.len()].copy_from_slice(bytes);
}

#[tactic(auto, using(crate::proofs::LittleEndian::u64_to_bytes))]
fn put_u64(out: &mut [u8], at: usize, v: u64)
    requires { at + 8 ≤ length out.old }
    ensures { out.new ≡ sets out.old at (u64 v) }
{
    put(out, at, &v.to_le_bytes());
}

#[tactic(auto, using(crate::proofs::LittleEndian::u32_to_bytes, crate::proofs::Twos::bits_is))]
fn put_degree(out: &mut [u8], at: usize, x: f64)
    requires { at + 4 ≤ length out.old }
    ensures { out.new ≡ sets out.old at (coordinate x) }
{
    put(out, at, &stored_of(x).to_le_bytes());
}

fn put_numbers(out: &mut [u8; HEADER_SIZE], h: Header)
    ensures { out.new ≡ sets out.old 8 (field_bytes h 2 11) }
{
    put_u64(out, 8, h.root_offset);
    put_u64(out, 16, h.root_length);
    put_u64(out, 24, h.metadata_offset);
    put_u64(out, 32, h.metadata_length);
    put_u64(out, 40, h.leaf_offset);
    put_u64(out, 48, h.leaf_length);
    put_u64(out, 56, h.data_offset);
    put_u64(out, 64, h.data_length);
    put_u64(out, 72, h.n_addressed_tiles);
    put_u64(out, 80, h.n_tile_entries);
    put_u64(out, 88, h.n_tile_contents);
}

fn put_degrees(out: &mut [u8; HEADER_SIZE], h: Header)
    ensures { out.new ≡ sets out.old 102 (field_bytes h 19 7) }
{
    let d = h.degrees;
    put_degree(out, 102, d.min_longitude);
    put_degree(out, 106, d.min_latitude);
    put_degree(out, 110, d.max_longitude);
    put_degree(out, 114, d.max_latitude);
    out[118] = h.center_zoom;
    put_degree(out, 119, d.center_longitude);
    put_degree(out, 123, d.center_latitude);
}

// The whole header.
pub(crate) fn put_header(out: &mut [u8; HEADER_SIZE], h: Header)
    ensures { out.new ≡ header_bytes h }
{
    put(out, 0, b"PMTiles");
    out[7] = h.version;
    put_numbers(out, h);
    let codes = [
        u8::from(h.clustered),
        h.internal_compression,
        h.tile_compression,
        h.tile_type,
        h.min_zoom,
        h.max_zoom,
    ];
    put(out, 96, &codes);
    put_degrees(out, h);
}
