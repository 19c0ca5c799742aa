// Headers: what is refused and where, the coordinate rule, and a new archive's header written and read back.
use crate::print::{hex, small, told, word};
use degrees::stored_of;
use header::Header;
use std::io;

// Degrees, as the whole numbers that are stored for them.
fn stored(rt: &impl Print, degrees: &[f64]) -> io::Result<()> {
    for d in degrees {
        print!(rt; " {}", stored_of(*d))?;
    }
    Ok(())
}

fn fields(rt: &impl Print, h: Header) -> io::Result<()> {
    print!(rt;
        " {} {} {} {} {}",
        h.version, h.root_offset, h.root_length, h.metadata_offset, h.metadata_length
    )?;
    print!(rt;
        " {} {} {} {}",
        h.leaf_offset, h.leaf_length, h.data_offset, h.data_length
    )?;
    print!(rt;
        " {} {} {}",
        h.n_addressed_tiles,
        h.n_tile_entries,
        u8::from(h.clustered)
    )?;
    print!(rt;
        " {} {} {}",
        h.internal_compression, h.tile_compression, h.tile_type
    )?;
    print!(rt; " {} {}", h.min_zoom, h.max_zoom)?;
    let d = h.degrees;
    let bounds = [
        d.min_longitude,
        d.min_latitude,
        d.max_longitude,
        d.max_latitude,
    ];
    stored(rt, &bounds)?;
    stored(rt, &[d.center_longitude, d.center_latitude])?;
    print!(rt; " {}", h.center_zoom)
}

// `h`: the fields.
pub(crate) fn read(rt: &impl Print, s: &[u8]) -> io::Result<()> {
    told(rt, Header::try_from_bytes(s), |h| fields(rt, h))
}

// `H COMPRESSION TYPE ROOM`: a new header, written into so many bytes of 0xEE, and read back.
pub(crate) fn write(rt: &impl Print, p: &[u8]) -> io::Result<()> {
    let mut room = [0xeeu8; 128];
    let h = Header::new(small(p, 0), small(p, 10));
    if let Some(out) = room.get_mut(..word(p, 20) as usize) {
        let answer = h.write_to(out);
        told(rt, answer, |_| {
            hex(rt, out)?;
            print!(rt; "\nread back ->")?;
            read(rt, out)
        })?;
    }
    Ok(())
}

// `s`: what is stored for these.
pub(crate) fn all_stored(rt: &impl Print) -> io::Result<()> {
    let sizes = [
        0.00000025,
        -0.00000025,
        -180.0,
        85.051129,
        214.7483647,
        300.0,
        -300.0,
    ];
    stored(rt, &sizes)?;
    stored(rt, &[f64::NAN, f64::INFINITY, f64::NEG_INFINITY])
}
