// Publication: what a call answers, and its stores.
ghost use Rattle.std.specs.Prelude.{◌≡◌, length};
ghost use Rattle.refusal.specs.Out.{afterwards};
ghost use Rattle.publisher.specs.Answers.{over_lengths, over_parts, said_published, said_total};
ghost use Rattle.publisher.specs.Calls.{Accepted};
ghost use Rattle.publisher.specs.Cuts.{stored_by};
ghost use Rattle.publisher.specs.Plan.{stored_from, stores};
ghost use Rattle.publisher.specs.Publish.{publishing, totalling};

use crate::head::{bytes_of, heading};
use crate::sections::{Cut, fill_behind, fill_front};
use crate::{Lengths, Parts, Settings};
use acceptance::Counts;
use header::{HEADER_SIZE, MAX_COMPRESSION, MAX_INITIAL_BYTES, MAX_TILE_TYPE};
use refusal::Refusal;

// The stores of an archive that holds nothing: the zeros, and the header over them.
const FEWEST: u64 = (MAX_INITIAL_BYTES + HEADER_SIZE) as u64;

// The room for the root between header and metadata.
const MAX_ROOT: u64 = (MAX_INITIAL_BYTES - HEADER_SIZE) as u64;

// How many stores there are for sections of so many bytes.
#[tactic(auto, unfolding(crate::specs::Publish::totalling))]
pub fn total(lengths: Lengths) -> Result<u64, Refusal>
    ensures { said_total result ≡ totalling lengths.root lengths.metadata lengths.tiles lengths.leaves }
{
    let stores = FEWEST
        .checked_add(lengths.metadata)
        .and_then(|n| n.checked_add(lengths.tiles))
        .and_then(|n| n.checked_add(lengths.leaves))
        .and_then(|n| n.checked_add(lengths.root))
        .ok_or(Refusal::SumTooLarge)?;
    if lengths.root > MAX_ROOT {
        return Err(Refusal::RangeOutside);
    }
    Ok(stores)
}

// All tests, in order, and the new position, in a destination of `room` bytes.
#[tactic(auto, unfolding(crate::specs::Publish::publishing, crate::specs::Publish::totalling))]
fn admit(
    settings: Settings,
    lengths: Lengths,
    room: u64,
    position: u64,
    budget: u64,
) -> Result<u64, Refusal>
    ensures { said_published result ≡ publishing settings lengths.root lengths.metadata lengths.tiles lengths.leaves room position budget }
{
    if settings.tile_compression > MAX_COMPRESSION {
        return Err(Refusal::InvalidCompression);
    }
    if settings.tile_type > MAX_TILE_TYPE {
        return Err(Refusal::InvalidTileType);
    }
    let stores = total(lengths)?;
    let size = MAX_INITIAL_BYTES as u64 + lengths.metadata + lengths.tiles + lengths.leaves;
    if room < size {
        return Err(Refusal::RoomTooShort);
    }
    let ahead = stores.checked_sub(position).ok_or(Refusal::RangeOutside)?;
    Ok(position + budget.min(ahead))
}

// The stores of a publication that is accepted, as many as the call covers.
// Stays: settings and counts apart: one is the caller's, the other the builder's, and only the header joins them.
#[tactic(auto, unfolding(header::specs::Header::write_header, crate::specs::Plan::header_for))]
fn fill(settings: Settings, counts: Counts, parts: &Parts, dest: &mut [u8], mut cut: Cut)
    requires { over_lengths parts.now (Accepted settings) (length dest.old) }
    ensures { dest.new ≡ stored_by cut (over_parts parts.now (stores settings counts)) dest.old }
{
    let header = bytes_of(heading(settings, counts, parts.lengths()));
    fill_behind(parts, dest, &mut cut);
    fill_front(&header, parts.root, dest, &mut cut);
}

// The next stores from a position on, as many as the budget and the plan allow.
#[tactic(auto, using(crate::proofs::Admitted::admitted))]
pub fn publish(
    settings: Settings,
    counts: Counts,
    parts: &Parts,
    dest: &mut [u8],
    position: u64,
    budget: u64,
) -> Result<u64, Refusal>
    ensures answer { said_published result ≡ over_lengths parts.now (publishing settings) (length dest.old) position budget }
    ensures bytes { dest.new ≡ afterwards (over_lengths parts.now (publishing settings) (length dest.old) position budget) dest.old (λ _. stored_from position budget (over_parts parts.now (stores settings counts)) dest.old) }
{
    let next = admit(
        settings,
        parts.lengths(),
        dest.len() as u64,
        position,
        budget,
    )?;
    let cut = Cut {
        skip: position as usize,
        left: budget as usize,
    };
    fill(settings, counts, parts, dest, cut);
    Ok(next)
}
