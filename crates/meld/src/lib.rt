// Meld: a second chunk written behind a first, by ranges. Each body of the output is the first chunk's, without the list that goes on in
// the second, and behind it the second's, its ends gone up by what stands before. Once the two are checked no record is read but the two at the seam.
#![tactic(auto)]

ghost use Rattle.std.specs.Prelude.{◌≡◌, ◌≤◌, ◌+◌, ◌++◌, length, true};
ghost use Rattle.chunk.specs.Answer.{answer_number};
ghost use Rattle.chunk.specs.Words.{entries, head_or_0, well_formed};
ghost use Rattle.meld.specs.Copy.{copied, shifted_all, counted_on, gone, placed};
ghost use Rattle.meld.specs.Seam.{last_or_0, last_position, first_position, as_entry, seam_at, seam_of};
ghost use Rattle.meld.specs.Meld.{Melded, PairMelded};
ghost use Rattle.meld.specs.Laid.{Counted, places_of, laid};

use chunk::{Chunk, Refusal};

// A truck, a fault and a time, in the order of records.
#[derive(Clone, Copy, PartialEq, PartialOrd)]
struct Position {
    key: u64,
    val: u64,
    time: u64,
}

// How many keys and values two chunks share where the second starts past the first's end, 0 or 1 of each.
#[derive(Clone, Copy)]
struct Seam {
    keys: usize,
    vals: usize,
}

// Copies `src` to the front of `dst`, as much of it as there is room for.
pub fn copy_into(dst: &mut [u64], src: &[u64])
    ensures { dst.new ≡ copied dst.old src.now }
{
    // Kept: a loop, since with `copy_from_slice` a meld of 65,536 records took 1.1 times as long, and a split of 131,072 took 1.2 times.
    for i in 0..dst.len().min(src.len()) {
        dst[i] = src[i];
    }
}

// Copies ends to the front of `dst`, each with `by` items more before it, as many as there is room for.
pub fn copy_shifted(dst: &mut [u64], ends: &[u64], by: u64)
    ensures { dst.new ≡ copied dst.old (shifted_all by ends.now) }
{
    for i in 0..dst.len().min(ends.len()) {
        dst[i] = ends[i].wrapping_add(by);
    }
}

// Fills a slice with `first` and the numbers after it, in 64 bits: from 1 on, the ends of lists of one item each.
pub fn count_on(dst: &mut [u64], first: u64)
    ensures { dst.new ≡ counted_on first (length dst.old) }
{
    for (i, place) in dst.iter_mut().enumerate() {
        *place = first.wrapping_add(i as u64);
    }
}

// Writes one body of the output into its place: a body of the first chunk, and behind it the same body of the second, ends gone up by `by`.
fn write_body(out: &mut [u64], at: usize, first: &[u64], second: &[u64], by: u64)
    requires { at + (length first.now + length second.now) ≤ length out.old }
    ensures { out.new ≡ placed at (first.now ++ gone by second.now) out.old }
{
    let seam = at + first.len();
    let end = seam + second.len();
    copy_into(&mut out[at..seam], first);
    copy_shifted(&mut out[seam..end], second, by);
}

// The last word, 0 where there is none.
fn last(items: &[u64]) -> u64
    ensures { result ≡ last_or_0 items.now }
{
    items.last().copied().unwrap_or(0)
}

// The first word, 0 where there is none.
fn first(items: &[u64]) -> u64
    ensures { result ≡ head_or_0 items.now }
{
    items.first().copied().unwrap_or(0)
}

// A chunk's last position: each layer's last item.
// Kept: a clause, since a step of a walk takes chunks that are not; a type for it would hold a Chunk and nothing else.
fn last_position(chunk: Chunk) -> Position
    requires { well_formed chunk.words.now ≡ true }
    ensures { result ≡ last_position (entries chunk.entry.words.now) }
{
    Position {
        key: last(chunk.keys()),
        val: last(chunk.vals()),
        time: last(chunk.times()),
    }
}

// A chunk's first position: each layer's first item.
// Kept: beside `last_position`, since one function of the item to take and its contract are no plainer.
fn first_position(chunk: Chunk) -> Position
    requires { well_formed chunk.words.now ≡ true }
    ensures { result ≡ first_position (entries chunk.entry.words.now) }
{
    Position {
        key: first(chunk.keys()),
        val: first(chunk.vals()),
        time: first(chunk.times()),
    }
}

// How a chunk whose last position is `end` meets one whose first is `start`; none where that doesn't start past the end.
fn seam_at(end: Position, start: Position) -> Option<Seam>
    ensures { result ≡ seam_at (as_entry end) (as_entry start) }
{
    if start <= end {
        return None;
    }
    let key = end.key == start.key;
    let val = key && end.val == start.val;
    Some(Seam {
        keys: key as usize,
        vals: val as usize,
    })
}

// How the second chunk meets the first, by the positions at their ends: they share nothing where one is empty, and none where the second doesn't start past the first's end.
fn seam_between(front: Chunk, back: Chunk) -> Option<Seam>
    requires front_formed { well_formed front.words.now ≡ true }
    requires back_formed { well_formed back.words.now ≡ true }
    ensures { result ≡ seam_of (entries front.entry.words.now) (entries back.entry.words.now) }
{
    if front.contents.nt == 0 || back.contents.nt == 0 {
        return Some(Seam { keys: 0, vals: 0 });
    }
    seam_at(last_position(front), first_position(back))
}

// Writes the meld of two chunks that meet so: the table, and each body without the list that goes on, behind it the second's.
fn write(front: Chunk, back: Chunk, seam: Seam, out: &mut [u64])
    requires counted { Counted seam front.words.now back.words.now }
    requires room { (places_of seam front.words.now back.words.now).size ≤ length out.old }
    ensures { out.new ≡ laid seam front.entry.words.now back.entry.words.now out.old }
{
    let ours = front.contents;
    let theirs = back.contents;
    let keys = ours.nk - seam.keys;
    let vals = ours.nv - seam.vals;
    let to = chunk::places(
        keys + theirs.nk,
        vals + theirs.nv,
        ours.nt + theirs.nt,
        ours.nd + theirs.nd,
    );
    chunk::write_table(out, to.nk, to.nv, to.nt, to.nd);
    write_body(out, to.keys_at, &front.keys()[..keys], back.keys(), 0);
    write_body(
        out,
        to.val_ends_at,
        &front.val_ends()[..keys],
        back.val_ends(),
        vals as u64,
    );
    write_body(out, to.vals_at, &front.vals()[..vals], back.vals(), 0);
    write_body(
        out,
        to.time_ends_at,
        &front.time_ends()[..vals],
        back.time_ends(),
        ours.nt as u64,
    );
    write_body(out, to.times_at, front.times(), back.times(), 0);
    write_body(
        out,
        to.diff_ends_at,
        front.diff_ends(),
        back.diff_ends(),
        ours.nd as u64,
    );
    write_body(out, to.diffs_at, front.diffs(), back.diffs(), 0);
}

// Melds two settled chunks, or refuses them.
fn meld_settled(front: Chunk, back: Chunk, out: &mut [u64]) -> Result<(), Refusal>
    requires front_formed { well_formed front.words.now ≡ true }
    requires back_formed { well_formed back.words.now ≡ true }
    ensures { PairMelded front.entry.words.now back.entry.words.now out.old (answer_number result) out.new }
{
    let times = front.contents.nt + back.contents.nt;
    if chunk::layout(0, 0, times, 0).is_none() {
        return Err(Refusal::TooMany);
    }
    let seam = seam_between(front, back).ok_or(Refusal::Overlaps)?;
    let room = front.contents.size + (back.contents.size - back.contents.keys_at);
    if out.len() < room {
        return Err(Refusal::OutputShort);
    }
    write(front, back, seam, out);
    Ok(())
}

// Writes chunk `b` behind chunk `a`, where b's first position is past a's last, or refuses and leaves `out` as it was.
pub fn meld(a: &[u64], b: &[u64], out: &mut [u64]) -> Result<(), Refusal>
    ensures { Melded a.now b.now out.old (answer_number result) out.new }
{
    let front = chunk::settled(a)?;
    let back = chunk::settled(b)?;
    meld_settled(front, back, out)
}
