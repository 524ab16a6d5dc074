#![tactic(auto)]

ghost use Rattle.std.specs.Prelude.{◌≡◌, get_or};
ghost use Rattle.chunk.specs.Words.{val_end_body, time_end_body, diff_end_body};
ghost use Rattle.walk.specs.Walk.{next_key, to_key, next_val, to_val, next_time, to_time, moved, read, step};
ghost use Rattle.walk.specs.Answer.{started_of, place_of, reached_by, given_by, stepped_by};

use chunk::{Chunk, Refusal};

// The four indices of a walk, and the ends of the lists that the last three stand in.
#[derive(Clone, Copy, Debug, PartialEq, Eq)]
pub struct Walker {
    pub k: u64,
    pub v: u64,
    pub t: u64,
    pub d: u64,
    pub v_end: u64,
    pub t_end: u64,
    pub d_end: u64,
}

// One record of a chunk.
// Kept: beside `sort::Update`, which is lent words to be sorted; a crate for both would hold nothing else.
#[derive(Clone, Copy, Debug, PartialEq, Eq)]
pub struct Record {
    pub key: u64,
    pub val: u64,
    pub time: u64,
    pub diff: u64,
}

// The ends of the lists of a chunk's values, times and diffs.
#[derive(Clone, Copy)]
struct Ends<'a> {
    vals: &'a [u64],
    times: &'a [u64],
    diffs: &'a [u64],
}

// The moves of a walker: each answers none where it must read past the ends.
// Kept: the three loops and their moves differ in the fields that they read and in the move that each calls; one of each over closures is no plainer.
impl Ends<'_> {
    // The next key, and the end of its values.
    fn next_key(self, w: Walker) -> Option<Walker>
        ensures { result ≡ reached_by (next_key self.entry.vals.now (place_of w)) }
    {
        let k = w.k.checked_add(1)?;
        let v_end = *self.vals.get(k as usize)?;
        Some(Walker { k, v_end, ..w })
    }

    // Keys on, until `v` stands in the key's list.
    fn to_key(self, w: Walker) -> Option<Walker>
        ensures { result ≡ reached_by (to_key self.entry.vals.now (place_of w)) }
    {
        let mut p = w;
        while p.v_end <= p.v {
            p = self.next_key(p)?;
        }
        Some(p)
    }

    // The next value, in its key, and the end of its times.
    fn next_val(self, w: Walker) -> Option<Walker>
        ensures { result ≡ reached_by (next_val self.entry.vals.now self.entry.times.now (place_of w)) }
    {
        let v = w.v.checked_add(1)?;
        // Without this the keys are read to their last for a value that isn't there.
        if self.times.len() <= v as usize {
            return None;
        }
        let keyed = self.to_key(Walker { v, ..w })?;
        let t_end = *self.times.get(keyed.v as usize)?;
        Some(Walker { t_end, ..keyed })
    }

    // Values on, until `t` stands in the value's list.
    fn to_val(self, w: Walker) -> Option<Walker>
        ensures { result ≡ reached_by (to_val self.entry.vals.now self.entry.times.now (place_of w)) }
    {
        let mut p = w;
        while p.t_end <= p.t {
            p = self.next_val(p)?;
        }
        Some(p)
    }

    // The next time, in its value, and the end of its diffs.
    fn next_time(self, w: Walker) -> Option<Walker>
        ensures { result ≡ reached_by (next_time self.entry.vals.now self.entry.times.now self.entry.diffs.now (place_of w)) }
    {
        let t = w.t.checked_add(1)?;
        // Without this the values are read to their last for a time that isn't there.
        if self.diffs.len() <= t as usize {
            return None;
        }
        let valued = self.to_val(Walker { t, ..w })?;
        let d_end = *self.diffs.get(valued.t as usize)?;
        Some(Walker { d_end, ..valued })
    }

    // Times on, until `d` stands in the time's list.
    fn to_time(self, w: Walker) -> Option<Walker>
        ensures { result ≡ reached_by (to_time self.entry.vals.now self.entry.times.now self.entry.diffs.now (place_of w)) }
    {
        let mut p = w;
        while p.d_end <= p.d {
            p = self.next_time(p)?;
        }
        Some(p)
    }
}

// The three lists of ends that a chunk holds.
fn ends_of(chunk: Chunk) -> Ends
    ensures { (result.vals.now ≡ val_end_body chunk.entry.words.now) × (result.times.now ≡ time_end_body chunk.entry.words.now) × (result.diffs.now ≡ diff_end_body chunk.entry.words.now) }
{
    Ends {
        vals: chunk.val_ends(),
        times: chunk.time_ends(),
        diffs: chunk.diff_ends(),
    }
}

// The first of some ends, or 0 where there is none.
fn first(ends: &[u64]) -> u64
    ensures { result ≡ get_or ends.now 0 0 }
{
    ends.first().copied().unwrap_or(0)
}

// Where a walk starts: every index 0, with the end of each body's list 0, or 0 where there is none. 5 where the words are not a
// chunk.
pub fn walk_start(words: &[u64]) -> Result<Walker, Refusal>
    ensures { result ≡ started_of words.now }
{
    let chunk = chunk::formed(words)?;
    let ends = ends_of(chunk);
    Ok(Walker {
        k: 0,
        v: 0,
        t: 0,
        d: 0,
        v_end: first(ends.vals),
        t_end: first(ends.times),
        d_end: first(ends.diffs),
    })
}

// The record at the walker, and the walker past it; none where an index is past its body.
fn read_at(chunk: Chunk, w: Walker) -> Option<(Record, Walker)>
    ensures { result ≡ given_by (read chunk.entry.words.now (moved (place_of w))) }
{
    let key = *chunk.keys().get(w.k as usize)?;
    let val = *chunk.vals().get(w.v as usize)?;
    let time = *chunk.times().get(w.t as usize)?;
    let diff = *chunk.diffs().get(w.d as usize)?;
    let found = Record {
        key,
        val,
        time,
        diff,
    };
    Some((found, Walker { d: w.d + 1, ..w }))
}

// The next record of a chunk, and the walker past it; none where a place that must be read is past its body.
fn next_record(chunk: Chunk, w: Walker) -> Option<(Record, Walker)>
    ensures { result ≡ given_by (read chunk.entry.words.now (to_time (val_end_body chunk.entry.words.now) (time_end_body chunk.entry.words.now) (diff_end_body chunk.entry.words.now) (place_of w))) }
{
    let p = ends_of(chunk).to_time(w)?;
    read_at(chunk, p)
}

// One step of a walk, on any words and any walker: the next record and the walker past it; none, where the table fits and the diff
// index is at or past nd; or 5, where the table doesn't fit or a place that must be read is past its body. No index ever goes back,
// so a whole walk makes no more moves than the chunk has items.
pub fn walk_step(words: &[u64], w: Walker) -> Result<Option<(Record, Walker)>, Refusal>
    ensures { result ≡ stepped_by (step words.now (place_of w)) }
{
    let contents = chunk::read_contents(words).ok_or(Refusal::Malformed)?;
    if contents.nd <= w.d as usize {
        return Ok(None);
    }
    let given = next_record(Chunk { words, contents }, w).ok_or(Refusal::Malformed)?;
    Ok(Some(given))
}
