// Directories written from stores.
ghost use Rattle.std.specs.Prelude.{◌≡◌, ◌∷◌, [], length};
ghost use Rattle.writer.specs.Write.{encoding};
ghost use Rattle.writer.specs.Answers.{length_of, writing};
ghost use Rattle.pmtiles.specs.Exports.{Answered, WriteTold, within};

use crate::slots::tell;
use directory::Stores;
use refusal::Refusal;

// out: how many bytes the directory has.
pub fn pmt_encoded_len(
    count: usize,
    ids: &[u64],
    runs: &[u32],
    lengths: &[u32],
    offsets: &[u64],
    out: &mut [u64],
) -> u8
    ensures { Answered
        (within 1 out.old (length_of (encoding count ids.now runs.now lengths.now offsets.now)))
        (λ n. n ∷ []) out.old result out.new }
{
    // Stays: room is tested before the entries are gone over, which no clause sees; tell tests after.
    if out.is_empty() {
        return Refusal::RoomTooShort.number();
    }
    let stores = Stores {
        count,
        ids,
        runs,
        lengths,
        offsets,
    };
    tell(out, writer::encoded_len(&stores))
}

// out: how many bytes were written.
pub fn pmt_directory_write(
    count: usize,
    ids: &[u64],
    runs: &[u32],
    lengths: &[u32],
    offsets: &[u64],
    bytes: &mut [u8],
    out: &mut [u64],
) -> u8
    ensures { WriteTold
        (within 1 out.old (writing count ids.now runs.now lengths.now offsets.now (length bytes.old))) result
        bytes.old bytes.new out.old out.new }
{
    // Stays: room is tested before bytes are touched: a refusal keeps them (`WriteTold`); tell tests after.
    if out.is_empty() {
        return Refusal::RoomTooShort.number();
    }
    let stores = Stores {
        count,
        ids,
        runs,
        lengths,
        offsets,
    };
    tell(out, writer::write(&stores, bytes))
}
