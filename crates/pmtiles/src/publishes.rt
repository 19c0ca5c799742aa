// Publication into a lent destination.
ghost use Rattle.std.specs.Prelude.{◌≡◌, ◌∷◌, [], length};
ghost use Rattle.refusal.specs.Out.{afterwards};
ghost use Rattle.publisher.specs.Answers.{over_parts, said_published};
ghost use Rattle.publisher.specs.Plan.{stored_from, stores};
ghost use Rattle.publisher.specs.Publish.{totalling};
ghost use Rattle.pmtiles.specs.Exports.{Answered, within};
ghost use Rattle.pmtiles.specs.Headers.{byte_of};
ghost use Rattle.pmtiles.specs.Publishes.{PublishTold, counts_given, publishing_given, settings_in_lem, settings_with, zooms_fit_lem};

use crate::headers::{degrees_in, to_byte};
use crate::slots::tell;
use acceptance::Counts;
use publisher::{Lengths, Parts, Settings};
use refusal::Refusal;

// out: how many stores there are for a root, metadata, data and leaves of so many bytes.
pub fn pmt_total(root: u64, metadata: u64, tiles: u64, leaves: u64, out: &mut [u64]) -> u8
    ensures { Answered (within 1 out.old (totalling root metadata tiles leaves)) (λ n. n ∷ []) out.old result out.new }
{
    let lengths = Lengths {
        root,
        metadata,
        tiles,
        leaves,
    };
    tell(out, publisher::total(lengths))
}

// Whether each zoom fits its field. A code needs no test: one above 255 is as unknown as 255.
// Stays: apart from to_byte, which the codes need too: one above 255 is 255, answered later (`publishing_given`).
#[tactic(auto, unfolding(crate::specs::Publishes::zooms_fit_lem))]
fn zooms_fit(settings: &[u64; 5]) -> bool
    ensures { result ≡ zooms_fit_lem settings.now }
{
    settings[2] <= 255 && settings[3] <= 255 && settings[4] <= 255
}

#[tactic(auto, unfolding(crate::specs::Publishes::settings_with))]
fn settings_in(settings: &[u64; 5], degrees: &[f64; 6]) -> Settings
    ensures { result ≡ settings_with byte_of settings.now degrees.now }
{
    Settings {
        tile_compression: to_byte(settings[0]),
        tile_type: to_byte(settings[1]),
        min_zoom: to_byte(settings[2]),
        max_zoom: to_byte(settings[3]),
        degrees: degrees_in(degrees),
        center_zoom: to_byte(settings[4]),
    }
}

// The next stores from a position on, as many as the budget and the plan allow. settings: tile compression, tile type,
// then min, max and center zoom. degrees: the six degrees. counts: entries and addressed tiles. out: the new position.
// 1 for a zoom above 255; then as the publisher's own tests have it, 4 and 5 for a code above 255 too.
#[tactic(auto, unfolding(crate::specs::Publishes::publishing_given))]
pub fn pmt_publish(
    settings: &[u64],
    degrees: &[f64],
    counts: &[u64],
    root: &[u8],
    metadata: &[u8],
    tiles: &[u8],
    leaves: &[u8],
    dest: &mut [u8],
    position: u64,
    budget: u64,
    out: &mut [u64],
) -> u8
    ensures { PublishTold
        (publishing_given settings.now degrees.now counts.now out.old root.now metadata.now tiles.now leaves.now dest.old position budget)
        (stored_from position budget (stores (settings_in_lem settings.now degrees.now) (counts_given counts.now) root.now metadata.now tiles.now leaves.now) dest.old) result
        dest.old dest.new out.old out.new }
{
    // Stays: room is tested before dest is touched: a refusal keeps it (`PublishTold`); tell tests after.
    if out.is_empty() {
        return Refusal::RoomTooShort.number();
    }
    let parts = Parts {
        root,
        metadata,
        tiles,
        leaves,
    };
    tell(
        out,
        publish_given(settings, degrees, counts, &parts, dest, position, budget),
    )
}

// The same before its answer is told, where a slot is lent for it.
#[tactic(auto, using(crate::proofs::PublishSlots::publish_steps), unfolding(crate::specs::Publishes::publishing_given, crate::specs::Publishes::counts_given))]
fn publish_given(
    settings: &[u64],
    degrees: &[f64],
    counts: &[u64],
    parts: &Parts,
    dest: &mut [u8],
    position: u64,
    budget: u64,
) -> Result<u64, Refusal>
    ensures says { said_published result ≡ over_parts parts.now (publishing_given settings.now degrees.now counts.now (0 ∷ [])) dest.old position budget }
    ensures stored { dest.new ≡ afterwards (said_published result) dest.old (λ _. stored_from position budget (over_parts parts.now (stores (settings_in_lem settings.now degrees.now) (counts_given counts.now))) dest.old) }
{
    let settings = settings.first_chunk().ok_or(Refusal::RoomTooShort)?;
    let degrees = degrees.first_chunk().ok_or(Refusal::RoomTooShort)?;
    let [n_tile_entries, n_addressed_tiles] = counts
        .first_chunk::<2>()
        .ok_or(Refusal::RoomTooShort)?;
    if !zooms_fit(settings) {
        return Err(Refusal::InvalidHeader);
    }
    let settings = settings_in(settings, degrees);
    let counts = Counts {
        n_tile_entries: *n_tile_entries,
        n_addressed_tiles: *n_addressed_tiles,
    };
    publisher::publish(settings, counts, parts, dest, position, budget)
}
