#![tactic(auto)]

ghost use Rattle.std.specs.Prelude.{◌≡◌, true, ◌+◌, ◌-◌, ◌*◌, ◌≤◌, false, length, take, IsSome, MatchOption};
ghost use Rattle.retain.specs.Frontier.{is_open, sound};
ghost use Rattle.retain.specs.Found.{empty_frontier, kept_by};
ghost use Rattle.chunk.specs.Answer.{answer_number};
ghost use Rattle.chunk.specs.Entry.{keep};
ghost use Rattle.retain.specs.Answer.{verdict_by, Parted, Extraction};
ghost use Rattle.retain.specs.Keep.{all_times, is_shut, keeps, retained_of, ListsOf};
ghost use Rattle.retain.specs.Source.{LeftOf, layers_of};
ghost use Rattle.chunk.specs.Words.{well_formed, settled, size, table_size, over, entries};
ghost use Rattle.chunk.specs.Bodies.{chunk_of};
ghost use Rattle.retain.specs.Cut.{filter_number, filter_out};

use chunk::{Chunk, Refusal};
use climb::add_corner;
pub use corners::Corners;
use layers::write_layers;
use look::in_order;
use one_by_one::scan_corners;
use sides::both_of;
use source::Source;
use stay::lists_of;

mod climb;
mod corners;
mod layers;
mod look;
mod one_by_one;
mod sides;
mod source;
mod stay;

// Which times that have a diff stay: every one, those open under some corners, the others.
#[derive(Clone, Copy)]
pub enum Keep<'a> {
    All,
    Open(Corners<'a>),
    Shut(Corners<'a>),
}

// How many keys and values are left.
#[derive(Clone, Copy)]
pub struct Lists {
    pub keys: usize,
    pub vals: usize,
}

// What is left with an open time, and what with one that isn't.
#[derive(Clone, Copy)]
pub struct Both {
    pub open: Lists,
    pub shut: Lists,
}

// How far a walk over the lists is: so many values and times are written, and the next list starts at this time.
#[derive(Clone, Copy)]
pub struct Reached {
    pub vals: usize,
    pub time: usize,
    pub times: usize,
}

// Writes the table of these counts, and behind it what stays of each layer.
fn write_bodies(source: Source, lists: Lists, nt: usize, out: &mut [u64])
    requires left { LeftOf source lists nt }
    requires room { table_size + 2 * lists.keys + 2 * lists.vals + 2 * nt + nt ≤ length out.old }
    ensures { out.new ≡ over (layers_of source.entry lists nt) out.old }
{
    let to = chunk::places(lists.keys, lists.vals, nt, nt);
    chunk::write_table(out, lists.keys, lists.vals, nt, nt);
    write_layers(source, lists, nt, &mut out[to.keys_at..to.size]);
}

// Writes the chunk of the entries that stay, so many of them, under so many keys and values.
// Kept: that the chunk is well formed is a clause of six functions, since a step of a walk takes chunks that are not; a type for it would hold a Chunk and nothing else.
fn retain_items(chunk: Chunk, keep: Keep, lists: Lists, nt: usize, out: &mut [u64])
    requires formed { well_formed chunk.words.now ≡ true }
    requires room { size chunk.words.now ≤ length out.old }
    requires counted { (nt ≡ length (retained_of (keeps keep) chunk.words.now)) × ListsOf (keeps keep) chunk.words.now lists.keys lists.vals }
    ensures { out.new ≡ over (chunk_of (retained_of (keeps keep.entry) chunk.entry.words.now)) out.old }
{
    let source = Source {
        keep,
        keys: chunk.keys(),
        val_ends: chunk.val_ends(),
        vals: chunk.vals(),
        time_ends: chunk.time_ends(),
        times: chunk.times(),
        diff_ends: chunk.diff_ends(),
        diffs: chunk.diffs(),
    };
    write_bodies(source, lists, nt, out);
}

// Writes the chunk of the entries that have a diff: the whole as it is where all do, the empty one where none does.
fn retain_standing(chunk: Chunk, out: &mut [u64])
    requires { (well_formed chunk.words.now ≡ true) × (size chunk.words.now ≤ length out.old) }
    ensures { out.new ≡ over (chunk_of (retained_of all_times chunk.entry.words.now)) out.old }
{
    let all = chunk.contents.nt;
    let nd = chunk.contents.nd;
    if nd == all {
        meld::copy_into(out, chunk.whole());
        return;
    }
    if nd == 0 {
        chunk::write_table(out, 0, 0, 0, 0);
        return;
    }
    retain_items(chunk, Keep::All, lists_of(chunk), nd, out);
}

// Filter: times without a diff go, then values and keys left without children. 5 where the chunk isn't well formed, 13 where `out` is short.
pub fn filter_zero(words: &[u64], out: &mut [u64]) -> Result<(), Refusal>
    ensures number { answer_number result ≡ filter_number words.now out.old }
    ensures written { out.new ≡ filter_out words.now out.old }
{
    let chunk = chunk::formed(words)?;
    if out.len() < chunk.contents.size {
        return Err(Refusal::OutputShort);
    }
    retain_standing(chunk, out);
    Ok(())
}

// A frontier: its corners, ignitions rising and ticks falling, in the first `count` places.
// Kept: by value, with a count and 128 places of which those past the count read zero, as document 01 names it.
#[derive(Clone, Copy)]
pub struct Frontier {
    pub count: u64,
    pub corners: [u64; 128],
}

impl Frontier {
    // The most corners that a frontier holds.
    pub const MOST: usize = 128;

    // The empty frontier, with which nothing is open.
    pub fn new() -> Frontier
        ensures { result ≡ empty_frontier }
    {
        Frontier {
            count: 0,
            corners: [0; 128],
        }
    }

    // The corners, where they are at most as many as a frontier holds and stand in order. The places past them are ignored.
    fn corners(&self) -> Option<Corners<'_>>
        ensures { MatchOption result (sound self.now.count self.now.corners ≡ false) (λ c. (sound self.now.count self.now.corners ≡ true) × (c.times.now ≡ take self.now.count self.now.corners)) }
    {
        let count = self.count as usize;
        if Frontier::MOST < count {
            return None;
        }
        let times = &self.corners[0..count];
        if !in_order(times) {
            return None;
        }
        Some(Corners { times })
    }
}

// How many times are open, and the frontier of those.
#[derive(Clone, Copy)]
pub struct Kept {
    pub number: usize,
    pub frontier: Frontier,
}

// The open times in one look, with the corners of those so far. Only one that has none of them at or below it adds a corner. Gives up where the
// corners become too many.
// Kept: 128 places and a count, since no memory is taken, and they become the Frontier.
fn climb_corners(times: &[u64], upper: Corners) -> Option<Kept>
    ensures { IsSome result → result ≡ kept_by (keep (is_open upper.entry.times.now) times.now) }
{
    let mut stairs = [0; 128];
    let mut count = 0;
    let mut number = 0;
    for time in times {
        let time = *time;
        let open = upper.open_bit(time);
        let so_far = Corners {
            times: &stairs[..count],
        };
        let known = so_far.open_bit(time);
        number += open;
        if known < open {
            count = add_corner(&mut stairs[..], count, time);
            if Frontier::MOST < count {
                return None;
            }
        }
    }
    let frontier = Frontier {
        count: count as u64,
        corners: stairs,
    };
    Some(Kept { number, frontier })
}

// The open times, where a frontier holds their corners: in one look, or, where they have too many corners on the way, corner by corner.
fn kept_corners(times: &[u64], upper: Corners) -> Option<Kept>
    ensures { result ≡ kept_by (keep (is_open upper.entry.times.now) times.now) }
{
    let quick = climb_corners(times, upper);
    if quick.is_some() {
        return quick;
    }
    let frontier = scan_corners(times, upper)?;
    let number = upper.count_open(times);
    Some(Kept { number, frontier })
}

// What became of the records: all kept (of an empty chunk too), all shipped, or some of each.
#[derive(Clone, Copy)]
pub enum Verdict {
    AllKept,
    AllShipped,
    Mixed,
}

// What `extract` says of a chunk that it parts: the verdict, and the frontier of the kept times.
#[derive(Clone, Copy)]
pub struct Extracted {
    pub verdict: Verdict,
    pub frontier: Frontier,
}

// The verdict, by the counts of kept times and of all.
fn verdict_of(kept: usize, all: usize) -> Verdict
    ensures { result ≡ verdict_by kept all }
{
    if kept == all {
        return Verdict::AllKept;
    }
    if kept == 0 {
        return Verdict::AllShipped;
    }
    Verdict::Mixed
}

// Writes the chunks of the open entries, so many of them, and of the others: the whole as it is where all are on one side.
fn retain_both(chunk: Chunk, corners: Corners, open: usize, kept: &mut [u64], shipped: &mut [u64])
    requires sound { (well_formed chunk.words.now ≡ true) × (settled chunk.words.now ≡ true) }
    requires room { (size chunk.words.now ≤ length kept.old) × (size chunk.words.now ≤ length shipped.old) }
    requires counted { («open» ≡ length (retained_of (is_open corners.times.now) chunk.words.now)) × ((«open» ≤ chunk.contents.nt) × (chunk.contents.nt - «open» ≡ length (retained_of (is_shut corners.times.now) chunk.words.now))) }
    ensures { (kept.new ≡ over (chunk_of (retained_of (is_open corners.entry.times.now) chunk.entry.words.now)) kept.old) × (shipped.new ≡ over (chunk_of (retained_of (is_shut corners.entry.times.now) chunk.entry.words.now)) shipped.old) }
{
    let all = chunk.contents.nt;
    if open == all {
        meld::copy_into(kept, chunk.whole());
        chunk::write_table(shipped, 0, 0, 0, 0);
        return;
    }
    if open == 0 {
        chunk::write_table(kept, 0, 0, 0, 0);
        meld::copy_into(shipped, chunk.whole());
        return;
    }
    let left = both_of(chunk, corners);
    retain_items(chunk, Keep::Open(corners), left.open, open, kept);
    retain_items(chunk, Keep::Shut(corners), left.shut, all - open, shipped);
}

// Extract from a settled chunk that the outputs hold: 10 where the kept times have too many corners.
fn extract_open(
    chunk: Chunk,
    corners: Corners,
    kept: &mut [u64],
    shipped: &mut [u64],
) -> Result<Extracted, Refusal>
    requires sound { (well_formed chunk.words.now ≡ true) × (settled chunk.words.now ≡ true) }
    requires room { (size chunk.words.now ≤ length kept.old) × (size chunk.words.now ≤ length shipped.old) }
    ensures { Parted result kept.new shipped.new corners.entry.times.now (entries chunk.entry.words.now) kept.old shipped.old }
{
    let Some(least) = kept_corners(chunk.times(), corners) else {
        return Err(Refusal::TooManyCorners);
    };
    let verdict = verdict_of(least.number, chunk.contents.nt);
    retain_both(chunk, corners, least.number, kept, shipped);
    Ok(Extracted {
        verdict,
        frontier: least.frontier,
    })
}

// Extract: open records are kept, the others shipped. 9 for a frontier that is too long or out of order, 5 and 6 for a chunk that isn't well formed
// or settled, 13 where an output is short, 10 where the kept times have too many corners.
pub fn extract(
    words: &[u64],
    upper: Frontier,
    kept: &mut [u64],
    shipped: &mut [u64],
) -> Result<Extracted, Refusal>
    ensures { Extraction result kept.new shipped.new upper.count upper.corners words.now kept.old shipped.old }
{
    let Some(corners) = upper.corners() else {
        return Err(Refusal::BadFrontier);
    };
    let chunk = chunk::settled(words)?;
    let size = chunk.contents.size;
    if kept.len() < size || shipped.len() < size {
        return Err(Refusal::OutputShort);
    }
    extract_open(chunk, corners, kept, shipped)
}
