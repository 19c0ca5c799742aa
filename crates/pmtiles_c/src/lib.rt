// The core for programs in C and Rust: include/pmtiles.h says the same in C. Each function is that of crate pmtiles.
// Stays: each function and contract again, slices one by one as C has them: a crate is for Rattle or for C (DECISIONS).
#![tactic(auto)]

ghost use Rattle.std.specs.Prelude.{◌∷◌, [], length};
ghost use Rattle.tile.specs.Answers.{to_id, to_coord_lem};
ghost use Rattle.pmtiles.specs.Exports.{Answered, within, DirectoryTold, Sought, entry_values, searched, WriteTold, BuildTold};
ghost use Rattle.header.specs.Header.{read_header};
ghost use Rattle.pmtiles.specs.Headers.{HeaderTold, lent, HeaderMade, making_header};
ghost use Rattle.directory.specs.Stores.{reading};
ghost use Rattle.reader.specs.Lookup.{lookup, lookup_coord_lem};
ghost use Rattle.directory.specs.Search.{find_in};
ghost use Rattle.writer.specs.Write.{encoding};
ghost use Rattle.writer.specs.Answers.{length_of, writing, sizes_in, building};
ghost use Rattle.acceptance.specs.Accept.{accepting};
ghost use Rattle.publisher.specs.Publish.{totalling};
ghost use Rattle.publisher.specs.Plan.{stored_from, stores};
ghost use Rattle.pmtiles.specs.Publishes.{PublishTold, counts_given, publishing_given, settings_in_lem};

// out: the id.
#[unsafe(no_mangle)]
pub extern "C" fn pmt_tile_id(z: u8, x: u32, y: u32, out: &mut [u64]) -> u8
    ensures { Answered (within 1 out.old (to_id z x y)) (λ i. i ∷ []) out.old result out.new }
{
    pmtiles::pmt_tile_id(z, x, y, out)
}

// out: zoom, x, y.
#[unsafe(no_mangle)]
pub extern "C" fn pmt_tile_coord(id: u64, out: &mut [u64]) -> u8
    ensures { Answered (within 3 out.old (to_coord_lem id)) (λ (z, p). z ∷ p.0 ∷ p.1 ∷ []) out.old result out.new }
{
    pmtiles::pmt_tile_coord(id, out)
}

// out: the 19 numbers, clustered as 1 or 0. degrees: the six degrees.
#[unsafe(no_mangle)]
pub extern "C" fn pmt_header_read(bytes: &[u8], out: &mut [u64], degrees: &mut [f64]) -> u8
    ensures { HeaderTold (lent out.old degrees.old (read_header bytes.now)) result
        out.old out.new degrees.old degrees.new }
{
    pmtiles::pmt_header_read(bytes, out, degrees)
}

// The header that the slots give, into the first 127 bytes. 1 for a version or a zoom above 255 and for a flag above 1;
// then 4, 5 and 15 as the header's own writing has them, 4 and 5 for a code above 255 too.
#[unsafe(no_mangle)]
pub extern "C" fn pmt_header_write(numbers: &[u64], degrees: &[f64], bytes: &mut [u8]) -> u8
    ensures { HeaderMade (making_header numbers.now degrees.now (length bytes.old)) result
        bytes.old bytes.new }
{
    pmtiles::pmt_header_write(numbers, degrees, bytes)
}

// out: how many entries, and how many bytes they took. A refusal leaves every slot of all four stores zero, also where
// out is too short.
#[unsafe(no_mangle)]
pub extern "C" fn pmt_directory_read(
    bytes: &[u8],
    ids: &mut [u64],
    runs: &mut [u32],
    lengths: &mut [u32],
    offsets: &mut [u64],
    out: &mut [u64],
) -> u8
    ensures { DirectoryTold
        (within 2 out.old (reading bytes.now ids.old runs.old lengths.old offsets.old)) result
        ids.old ids.new runs.old runs.new
        lengths.old lengths.new offsets.old offsets.new
        out.old out.new }
{
    pmtiles::pmt_directory_read(bytes, ids, runs, lengths, offsets, out)
}

// out: where the contents start in the archive, and their length.
#[unsafe(no_mangle)]
pub extern "C" fn pmt_lookup(archive: &[u8], id: u64, out: &mut [u64]) -> u8
    ensures { Sought (within 2 out.old (lookup archive.now id)) (λ x. x.start ∷ x.size ∷ []) out.old result out.new }
{
    pmtiles::pmt_lookup(archive, id, out)
}

#[unsafe(no_mangle)]
pub extern "C" fn pmt_lookup_coord(archive: &[u8], z: u8, x: u32, y: u32, out: &mut [u64]) -> u8
    ensures { Sought (within 2 out.old (lookup_coord_lem archive.now z x y)) (λ x. x.start ∷ x.size ∷ []) out.old result out.new }
{
    pmtiles::pmt_lookup_coord(archive, z, x, y, out)
}

// out: the entry's id, run, length and offset; a run of 0 is a pointer to a leaf.
#[unsafe(no_mangle)]
pub extern "C" fn pmt_directory_find(bytes: &[u8], id: u64, out: &mut [u64]) -> u8
    ensures { Sought (within 4 out.old (searched (find_in bytes.now id))) entry_values out.old result out.new }
{
    pmtiles::pmt_directory_find(bytes, id, out)
}

// out: how many bytes the directory has.
#[unsafe(no_mangle)]
pub extern "C" fn pmt_encoded_len(
    count: usize,
    ids: &[u64],
    runs: &[u32],
    lengths: &[u32],
    offsets: &[u64],
    out: &mut [u64],
) -> u8
    ensures { Answered
        (within 1 out.old (length_of (encoding count ids.now runs.now lengths.now offsets.now)))
        (λ n. n ∷ []) out.old result out.new }
{
    pmtiles::pmt_encoded_len(count, ids, runs, lengths, offsets, out)
}

// out: how many bytes were written.
#[unsafe(no_mangle)]
pub extern "C" fn pmt_directory_write(
    count: usize,
    ids: &[u64],
    runs: &[u32],
    lengths: &[u32],
    offsets: &[u64],
    bytes: &mut [u8],
    out: &mut [u64],
) -> u8
    ensures { WriteTold
        (within 1 out.old (writing count ids.now runs.now lengths.now offsets.now (length bytes.old))) result
        bytes.old bytes.new out.old out.new }
{
    pmtiles::pmt_directory_write(count, ids, runs, lengths, offsets, bytes, out)
}

// out: how many bytes the root has, and the leaves.
#[unsafe(no_mangle)]
pub extern "C" fn pmt_build_sizes(
    count: usize,
    ids: &[u64],
    runs: &[u32],
    lengths: &[u32],
    offsets: &[u64],
    data_length: u64,
    out: &mut [u64],
) -> u8
    ensures { Answered
        (within 2 out.old (sizes_in (accepting count ids.now runs.now lengths.now offsets.now data_length)))
        (λ s. s.root ∷ s.leaves ∷ []) out.old result out.new }
{
    pmtiles::pmt_build_sizes(count, ids, runs, lengths, offsets, data_length, out)
}

// out: how many bytes the root has, and the leaves, then how many entries there are, and how many tiles they address.
#[unsafe(no_mangle)]
pub extern "C" fn pmt_build(
    count: usize,
    ids: &[u64],
    runs: &[u32],
    lengths: &[u32],
    offsets: &[u64],
    data_length: u64,
    root: &mut [u8],
    leaves: &mut [u8],
    out: &mut [u64],
) -> u8
    ensures { BuildTold
        (within 4 out.old (building count ids.now runs.now lengths.now offsets.now data_length (length root.old) (length leaves.old))) result
        root.old root.new leaves.old leaves.new out.old out.new }
{
    pmtiles::pmt_build(
        count,
        ids,
        runs,
        lengths,
        offsets,
        data_length,
        root,
        leaves,
        out,
    )
}

// out: how many stores there are for a root, metadata, data and leaves of so many bytes.
#[unsafe(no_mangle)]
pub extern "C" fn pmt_total(
    root: u64,
    metadata: u64,
    tiles: u64,
    leaves: u64,
    out: &mut [u64],
) -> u8
    ensures { Answered (within 1 out.old (totalling root metadata tiles leaves)) (λ n. n ∷ []) out.old result out.new }
{
    pmtiles::pmt_total(root, metadata, tiles, leaves, out)
}

// The next stores from a position on, as many as the budget and the plan allow. settings: tile compression, tile type,
// then min, max and center zoom. degrees: the six degrees. counts: entries and addressed tiles. out: the new position.
// 1 for a zoom above 255; then as the publisher's own tests have it, 4 and 5 for a code above 255 too.
#[unsafe(no_mangle)]
pub extern "C" fn pmt_publish(
    settings: &[u64],
    degrees: &[f64],
    counts: &[u64],
    root: &[u8],
    metadata: &[u8],
    tiles: &[u8],
    leaves: &[u8],
    dest: &mut [u8],
    position: u64,
    budget: u64,
    out: &mut [u64],
) -> u8
    ensures { PublishTold
        (publishing_given settings.now degrees.now counts.now out.old root.now metadata.now tiles.now leaves.now dest.old position budget)
        (stored_from position budget (stores (settings_in_lem settings.now degrees.now) (counts_given counts.now) root.now metadata.now tiles.now leaves.now) dest.old) result
        dest.old dest.new out.old out.new }
{
    pmtiles::pmt_publish(
        settings, degrees, counts, root, metadata, tiles, leaves, dest, position, budget, out,
    )
}
