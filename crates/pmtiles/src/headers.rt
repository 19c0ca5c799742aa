// Headers, as numbers and degrees in lent slots: both in the order of the header's fields.
ghost use Rattle.std.specs.Prelude.{◌≡◌, ◌≤◌, ◌++◌, drop, length};
ghost use Rattle.refusal.specs.Out.{afterwards};
ghost use Rattle.refusal.specs.Said.{said};
ghost use Rattle.header.specs.Header.{header_bytes, read_header};
ghost use Rattle.pmtiles.specs.Exports.{status};
ghost use Rattle.pmtiles.specs.Headers.{HeaderMade, HeaderTold, byte_of, degrees_in_lem, fitting, header_values, header_with, lent, making_header};

use crate::slots::{Values, put, tell};
use header::{Degrees, Header};
use refusal::Refusal;

impl Values<19> for Header {
    ghost listed = { header_values };

    fn values(self) -> [u64; 19] {
        [
            u64::from(self.version),
            self.root_offset,
            self.root_length,
            self.metadata_offset,
            self.metadata_length,
            self.leaf_offset,
            self.leaf_length,
            self.data_offset,
            self.data_length,
            self.n_addressed_tiles,
            self.n_tile_entries,
            self.n_tile_contents,
            u64::from(self.clustered),
            u64::from(self.internal_compression),
            u64::from(self.tile_compression),
            u64::from(self.tile_type),
            u64::from(self.min_zoom),
            u64::from(self.max_zoom),
            u64::from(self.center_zoom),
        ]
    }
}

// out: the 19 numbers, clustered as 1 or 0. degrees: the six degrees.
pub fn pmt_header_read(bytes: &[u8], out: &mut [u64], degrees: &mut [f64]) -> u8
    ensures { HeaderTold (lent out.old degrees.old (read_header bytes.now)) result
        out.old out.new degrees.old degrees.new }
{
    // Stays: room is tested for both before either is touched: a refusal keeps them (`HeaderTold`); tell tests the slots'.
    if out.len() < 19 || degrees.len() < 6 {
        return Refusal::RoomTooShort.number();
    }
    let header = Header::try_from_bytes(bytes);
    let told = tell(out, header);
    if let Ok(h) = header {
        let d = h.degrees;
        put(
            degrees,
            [
                d.min_longitude,
                d.min_latitude,
                d.max_longitude,
                d.max_latitude,
                d.center_longitude,
                d.center_latitude,
            ],
        );
    }
    told
}

// Whether each number fits its field, save the codes: one above 255 is as unknown as 255.
// Stays: apart from to_byte, which the codes need too: one above 255 is 255, answered later (`making_header`).
#[tactic(auto, unfolding(crate::specs::Headers::fitting))]
fn fits(numbers: &[u64; 19]) -> bool
    ensures { result ≡ fitting numbers.now }
{
    numbers[0] <= 255
        && numbers[12] <= 1
        && numbers[16] <= 255
        && numbers[17] <= 255
        && numbers[18] <= 255
}

#[tactic(auto, unfolding(crate::specs::Headers::byte_of))]
pub(crate) fn to_byte(x: u64) -> u8
    ensures { result ≡ byte_of x }
{
    u8::try_from(x).unwrap_or(255)
}

#[tactic(auto, unfolding(crate::specs::Headers::degrees_in_lem))]
pub(crate) fn degrees_in(degrees: &[f64; 6]) -> Degrees
    ensures { result ≡ degrees_in_lem degrees.now }
{
    Degrees {
        min_longitude: degrees[0],
        min_latitude: degrees[1],
        max_longitude: degrees[2],
        max_latitude: degrees[3],
        center_longitude: degrees[4],
        center_latitude: degrees[5],
    }
}

#[tactic(auto, unfolding(crate::specs::Headers::header_with))]
fn header_in(numbers: &[u64; 19], degrees: &[f64; 6]) -> Header
    ensures { result ≡ header_with byte_of numbers.now degrees.now }
{
    Header {
        version: to_byte(numbers[0]),
        root_offset: numbers[1],
        root_length: numbers[2],
        metadata_offset: numbers[3],
        metadata_length: numbers[4],
        leaf_offset: numbers[5],
        leaf_length: numbers[6],
        data_offset: numbers[7],
        data_length: numbers[8],
        n_addressed_tiles: numbers[9],
        n_tile_entries: numbers[10],
        n_tile_contents: numbers[11],
        clustered: numbers[12] == 1,
        internal_compression: to_byte(numbers[13]),
        tile_compression: to_byte(numbers[14]),
        tile_type: to_byte(numbers[15]),
        min_zoom: to_byte(numbers[16]),
        max_zoom: to_byte(numbers[17]),
        degrees: degrees_in(degrees),
        center_zoom: to_byte(numbers[18]),
    }
}

// The header that the slots give, into the first 127 bytes. 1 for a version or a zoom above 255 and for a flag above 1;
// then 4, 5 and 15 as the header's own writing has them, 4 and 5 for a code above 255 too.
pub fn pmt_header_write(numbers: &[u64], degrees: &[f64], bytes: &mut [u8]) -> u8
    ensures { HeaderMade (making_header numbers.now degrees.now (length bytes.old)) result
        bytes.old bytes.new }
{
    tell(&mut [], write_given(numbers, degrees, bytes))
}

// The same, before a refusal is a status.
#[tactic(auto, using(crate::proofs::HeaderSlots::header_steps), unfolding(crate::specs::Headers::making_header))]
fn write_given(numbers: &[u64], degrees: &[f64], bytes: &mut [u8]) -> Result<(), Refusal>
    ensures says { status (said (λ x. x) result) ≡ status (making_header numbers.now degrees.now (length bytes.old)) }
    ensures written { bytes.new ≡ afterwards (making_header numbers.now degrees.now (length bytes.old)) bytes.old (λ h. header_bytes h ++ drop 127 bytes.old) }
{
    let numbers = numbers.first_chunk().ok_or(Refusal::RoomTooShort)?;
    let degrees = degrees.first_chunk().ok_or(Refusal::RoomTooShort)?;
    if !fits(numbers) {
        return Err(Refusal::InvalidHeader);
    }
    header_in(numbers, degrees).write_to(bytes)
}
