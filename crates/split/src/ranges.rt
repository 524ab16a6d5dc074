// A range of a settled chunk's records, written as a range of each layer.
ghost use Rattle.std.specs.Prelude.{◌≡◌, true, map, ℕ, ◌+◌, ◌-◌, ◌≤◌, ◌<◌, length, get_or};
ghost use Rattle.std.proofs.lemmas.List.Edits.{sets};
ghost use Rattle.chunk.specs.Words.{rises_from, well_formed, settled, size, over, entries, nt};
ghost use Rattle.chunk.specs.Contents.{start_of};
ghost use Rattle.chunk.specs.Bodies.{chunk_of};
ghost use Rattle.laws.specs.Picked.{count_up, part};
ghost use Rattle.split.specs.Ranges.{EndsParted, Span, range_out, Ranged, ranges_out};

use chunk::{Chunk, Range};

// How many lists end at or below a number.
fn lists_to(ends: &[u64], n: usize) -> usize
    requires { rises_from 0 ends.now ≡ true }
    ensures { EndsParted ends.now n result }
{
    ends.partition_point(|end| *end as usize <= n)
}

// The lists that have an item of a range.
fn span_of(ends: &[u64], items: Range) -> Range
    requires ends_value { rises_from 0 ends.now ≡ true }
    requires lower_lt_upper { (items.lower < items.upper) × (items.upper ≤ start_of ends.now (length ends.now)) }
    ensures { Span ends.now items result }
{
    let lo = items.lower;
    let hi = items.upper;
    let lower = lists_to(ends, lo);
    let last = lists_to(ends, hi - 1);
    Range {
        lower,
        upper: last + 1,
    }
}

// Writes ends, each less a number, from a place on.
// Kept: `meld::copy_shifted` adds in 64 bits; by it each of these differences would have to be shown to be a sum that wraps.
fn write_less(ends: &[u64], less: usize, out: &mut [u64], at: usize)
    requires { (at + length ends.now ≤ length out.old) × ((k : ℕ) → k < length ends.now → less ≤ get_or ends.now k 0) }
    ensures { out.new ≡ sets out.old at (map (λ (e : ℕ). e - less) ends.now) }
{
    for (i, end) in ends.iter().enumerate() {
        out[at + i] = *end - less as u64;
    }
}

// Writes a layer's items that have a list left, and after them the ends of those lists: each counted from the range's start, the last no further than
// its end.
fn write_range(items: &[u64], ends: &[u64], below: Range, here: Range, out: &mut [u64])
    requires len { (length items.now ≡ length ends.now) × Span ends.now below here }
    requires out_len { length out.old ≡ (here.upper - here.lower) + (here.upper - here.lower) }
    ensures { out.new ≡ range_out items.now ends.now below here }
{
    let lo = below.lower;
    let hi = below.upper;
    let from = here.lower;
    let to = here.upper;
    let n = to - from;
    meld::copy_into(out, &items[from..to]);
    write_less(&ends[from..to], lo, out, n);
    out[n + n - 1] = (hi - lo) as u64;
}

// Writes times, the ends of their lists and their diffs, each into its own third.
fn write_run(times: &[u64], diffs: &[u64], out: &mut [u64])
    requires { (length diffs.now ≡ length times.now) × (length out.old ≡ length times.now + (length times.now + length times.now)) }
    ensures { out.new ≡ sets (sets (sets out.old 0 times.now) (length times.now) (count_up 0 (length times.now))) (length times.now + length times.now) diffs.now }
{
    let n = times.len();
    let diffs_at = n + n;
    let end = diffs_at + n;
    meld::copy_into(out, times);
    meld::count_on(&mut out[n..diffs_at], 1);
    meld::copy_into(&mut out[diffs_at..end], diffs);
}

// Writes the table of a range of each layer, and each into its own part.
// Kept: a clause, since a step of a walk takes chunks that are not; a type for it would hold a Chunk and nothing else.
fn write_ranges(chunk: Chunk, keys_in: Range, vals_in: Range, times_in: Range, out: &mut [u64])
    requires words_value { (well_formed chunk.words.now ≡ true) × (settled chunk.words.now ≡ true) }
    requires ranged { Ranged chunk.words.now keys_in vals_in times_in (length out.old) }
    ensures { out.new ≡ over (ranges_out chunk.entry.words.now keys_in vals_in times_in) out.old }
{
    let lo = times_in.lower;
    let hi = times_in.upper;
    let nk = keys_in.upper - keys_in.lower;
    let nv = vals_in.upper - vals_in.lower;
    let nt = hi - lo;
    let to = chunk::places(nk, nv, nt, nt);
    chunk::write_table(out, nk, nv, nt, nt);
    write_range(
        chunk.keys(),
        chunk.val_ends(),
        vals_in,
        keys_in,
        &mut out[to.keys_at..to.vals_at],
    );
    write_range(
        chunk.vals(),
        chunk.time_ends(),
        times_in,
        vals_in,
        &mut out[to.vals_at..to.times_at],
    );
    write_run(
        &chunk.times()[lo..hi],
        &chunk.diffs()[lo..hi],
        &mut out[to.times_at..to.size],
    );
}

// Writes the chunk of a range of a settled chunk's entries.
fn retain_range(chunk: Chunk, range: Range, out: &mut [u64])
    requires words_value { (well_formed chunk.words.now ≡ true) × (settled chunk.words.now ≡ true) }
    requires lower_lt_upper { (range.lower < range.upper) × ((range.upper ≤ nt chunk.words.now) × (size chunk.words.now ≤ length out.old)) }
    ensures { out.new ≡ over (chunk_of (part range.lower range.upper (entries chunk.entry.words.now))) out.old }
{
    let vals_in = span_of(chunk.time_ends(), range);
    let keys_in = span_of(chunk.val_ends(), vals_in);
    write_ranges(chunk, keys_in, vals_in, range, out);
}

// The same, or less: the whole chunk as it is where the range is all of it, the empty one where the range is.
pub(crate) fn retain_cut(chunk: Chunk, range: Range, out: &mut [u64])
    requires words_value { (well_formed chunk.words.now ≡ true) × (settled chunk.words.now ≡ true) }
    requires lower_le_upper { (range.lower ≤ range.upper) × ((range.upper ≤ nt chunk.words.now) × (size chunk.words.now ≤ length out.old)) }
    ensures { out.new ≡ over (chunk_of (part range.lower range.upper (entries chunk.entry.words.now))) out.old }
{
    if range.lower == range.upper {
        chunk::write_table(out, 0, 0, 0, 0);
        return;
    }
    if range.upper - range.lower == chunk.contents.nt {
        meld::copy_into(out, chunk.whole());
        return;
    }
    retain_range(chunk, range, out);
}
