// Updates in, their one settled chunk out: equal positions added, zero sums dropped.
//
// The updates are read twice. The first pass tests them and counts the keys, values and times that will stand; the second writes
// each finished entry into the seven bodies of the chunk, whose places the counts give. Both passes hold one pending update, to
// which every update at its position is added, and which is done when another position comes. In the first pass no branch depends
// on the updates.
#![tactic(auto)]

ghost use Rattle.std.specs.Prelude.{◌≡◌, ◌^◌, length};
ghost use Rattle.chunk.specs.Entry.{before, same, every};
ghost use Rattle.chunk.specs.Answer.{answer_number};
ghost use Rattle.chunk.specs.Bodies.{chunk_of};
ghost use Rattle.chunk.specs.Words.{over};
ghost use Rattle.sort.specs.Sort.{entry_of, updates};
ghost use Rattle.form.specs.Form.{formed, in_range, FormAnswers, UnsortedAnswers};
ghost use Rattle.form.specs.Pass.{joined, counted, stored, next_counts, next_pending, pushed, write_from, no_counts, Counting, Roomy, Some, Pushed, Stored, Surveyed, Placed, Accepts, final_counts, sizes_of, Counted};
ghost use Rattle.form.specs.Tally.{sizes_after, tallied, Sized};

use chunk::{Contents, Refusal, places, write_table};
use sort::{Update, sort_updates};

// How many keys, values and times there are.
#[derive(Clone, Copy, Default)]
struct Sizes {
    nk: usize,
    nv: usize,
    nt: usize,
}

// The first pass on its way: how much is done, the update that is pending, and whether an entry with its key, and one with its key
// and value, is among what is done.
#[derive(Clone, Copy, Default)]
struct Tally {
    sizes: Sizes,
    pending: Update,
    keyed: bool,
    valued: bool,
}

// The keys, values and times so far, and the entry that was counted last.
// Kept: each update may add one to them, so a bound that holds before a step doesn't after it: a clause, and no ghost field. And beside `Sizes`, which the first pass counts by tests.
#[derive(Clone, Copy, Default)]
struct Counts {
    nk: usize,
    nv: usize,
    nt: usize,
    last: Update,
}

// The second pass on its way: what is done, and the update that is pending.
#[derive(Clone, Copy, Default)]
struct Consolidating {
    counts: Counts,
    pending: Update,
}

// The most updates that are taken.
const LIMIT: usize = 1048576;

// The room asked of an output: that of the empty chunk, and for each update that of a chunk's longest entry.
const ROOM: usize = 4;

const ROOM_EACH: usize = 7;

// The least and the greatest diff that is taken.
const LEAST: i64 = -(1 << 40);

const MOST: i64 = 1 << 40;

// Whether `a` and `b` have one position.
fn same_position(a: Update, b: Update) -> bool
    ensures { result ≡ same (entry_of a) (entry_of b) }
{
    (a.key, a.val, a.time) == (b.key, b.val, b.time)
}

// Whether the position of `a` is before that of `b`: by key, then value, then time, with no branch.
// Kept: the order of tuples branches on the words; with it the first pass took a fifth longer, over updates that open lists at random.
fn precedes(a: Update, b: Update) -> bool
    ensures { result ≡ before (entry_of a) (entry_of b) }
{
    (a.key < b.key)
        | ((a.key == b.key) & ((a.val < b.val) | ((a.val == b.val) & (a.time < b.time))))
}

// Whether this update's diff is in range, with no branch.
fn in_range(u: Update) -> bool
    ensures { result ≡ in_range (entry_of u) }
{
    let diff = u.diff.cast_signed();
    (LEAST <= diff) & (diff <= MOST)
}

// The update `a` with the diff of `b` added. Where diffs are in range no sum of them overflows.
fn join(a: Update, b: Update) -> Update
    ensures { entry_of result ≡ joined (entry_of a) (entry_of b) }
{
    Update {
        diff: a.diff.wrapping_add(b.diff),
        ..a
    }
}

impl Counts {
    // The counts with the entry `e` added.
    fn with(self, e: Update) -> Counts
        requires { Counting (2 ^ 62) self }
        ensures { result ≡ counted self (entry_of e) }
    {
        let opens_key = self.nt == 0 || self.last.key != e.key;
        let opens_val = opens_key || self.last.val != e.val;
        Counts {
            nk: self.nk + opens_key as usize,
            nv: self.nv + opens_val as usize,
            nt: self.nt + 1,
            last: e,
        }
    }

    // Stores the entry that was counted last. The ends of its lists are the counts so far, until a later entry of the list stores its own.
    // Kept: the output and its places in one struct would need a clause in each function that the places stay.
    fn store(self, out: &mut [u64], places: Contents)
        requires roomy { Roomy places self out.old }
        requires some { Some self }
        ensures { out.new ≡ stored places self out.old }
    {
        let last = self.last;
        let k = self.nk - 1;
        let v = self.nv - 1;
        let t = self.nt - 1;
        out[places.keys_at + k] = last.key;
        out[places.val_ends_at + k] = self.nv as u64;
        out[places.vals_at + v] = last.val;
        out[places.time_ends_at + v] = self.nt as u64;
        out[places.times_at + t] = last.time;
        out[places.diff_ends_at + t] = self.nt as u64;
        out[places.diffs_at + t] = last.diff;
    }

    // Counts the entry `e` and stores it, if it stands.
    fn push(self, out: &mut [u64], places: Contents, e: Update) -> Counts
        requires counting { Counting (2 ^ 62) self }
        requires roomy { Roomy places (pushed self (entry_of e)) out.old }
        ensures { Pushed places self e out.old result out.new }
    {
        if e.diff == 0 {
            return self;
        }
        let more = self.with(e);
        more.store(out, places);
        more
    }
}

impl Consolidating {
    // One update more in the pass that writes.
    fn take(self, out: &mut [u64], places: Contents, u: Update) -> Consolidating
        requires counting { Counting (2 ^ 62) self.counts }
        requires roomy { Roomy places (next_counts self.counts (entry_of self.pending) (entry_of u)) out.old }
        ensures { Stored places self u out.old result out.new }
    {
        if same_position(self.pending, u) {
            let pending = join(self.pending, u);
            return Consolidating { pending, ..self };
        }
        let counts = self.counts.push(out, places, self.pending);
        Consolidating { counts, pending: u }
    }
}

impl Tally {
    // The sizes with the pending entry added, where it ends. It is the first of its key, or of its value, where none is counted yet.
    fn sizes_after(self, ends: bool) -> Sizes
        requires { Sized (2 ^ 62) self.sizes }
        ensures { result ≡ sizes_after self ends }
    {
        let sizes = self.sizes;
        Sizes {
            nk: sizes.nk + (ends & !self.keyed) as usize,
            nv: sizes.nv + (ends & !self.valued) as usize,
            nt: sizes.nt + ends as usize,
        }
    }

    // One update more in the pass that counts.
    fn take(self, u: Update) -> Tally
        requires { Sized (2 ^ 62) self.sizes }
        ensures { result ≡ tallied self (entry_of u) }
    {
        let a = self.pending;
        let same_key = a.key == u.key;
        let same_val = same_key & (a.val == u.val);
        let alike = same_val & (a.time == u.time);
        let ends = !alike & (a.diff != 0);
        let sizes = self.sizes_after(ends);
        let pending = follow(a, u, alike);
        Tally {
            sizes,
            pending,
            keyed: same_key & (self.keyed | ends),
            valued: same_val & (self.valued | ends),
        }
    }
}

// The update `b`, with the diff of `a` added where the two have one position.
fn follow(a: Update, b: Update, alike: bool) -> Update
    requires { alike ≡ same (entry_of a) (entry_of b) }
    ensures { entry_of result ≡ next_pending (entry_of a) (entry_of b) }
{
    let before = if alike { a.diff } else { 0 };
    Update {
        diff: before.wrapping_add(b.diff),
        ..b
    }
}

// The first pass: the sizes of what is formed; 3 where a position falls, else 4 where a diff is out of range.
#[tactic(auto, using(sort::proofs::Updates::count_whole))]
fn survey(words: &[u64]) -> Result<Sizes, Refusal>
    ensures { Surveyed (updates words.now) result }
{
    let mut state = Tally::default();
    let mut fell = false;
    let mut inside = true;
    for i in 0..words.len() / 4 {
        let next = Update::read(words, i);
        fell |= precedes(next, state.pending);
        inside &= in_range(next);
        state = state.take(next);
    }
    if fell {
        return Err(Refusal::Falls);
    }
    if !inside {
        return Err(Refusal::OutOfRange);
    }
    Ok(state.sizes_after(state.pending.diff != 0))
}

// The second pass: stores each entry that is formed.
#[tactic(auto, using(sort::proofs::Updates::count_whole))]
fn write_entries(sorted: &[u64], out: &mut [u64], places: Contents)
    requires { Placed (updates sorted.now) places out.old }
    ensures { out.new ≡ write_from places no_counts (formed (updates sorted.now)) out.old }
{
    let mut state = Consolidating::default();
    for i in 0..sorted.len() / 4 {
        let next = Update::read(sorted, i);
        state = state.take(out, places, next);
    }
    state.counts.push(out, places, state.pending);
}

// Writes the chunk of what is formed, whose sizes the first pass found.
fn form_sorted(words: &[u64], out: &mut [u64], sizes: Sizes)
    requires sizes_value { sizes ≡ sizes_of (final_counts (updates words.now)) }
    requires accepts { Accepts (updates words.now) out.old }
    ensures { out.new ≡ over (chunk_of (formed (updates words.now))) out.old }
{
    let Sizes { nk, nv, nt } = sizes;
    write_table(out, nk, nv, nt, nt);
    write_entries(words, out, places(nk, nv, nt, nt));
}

// How many updates this many words are; 1 where they are not four each, 2 where the updates are too many.
fn counted(words: usize) -> Result<usize, Refusal>
    ensures { Counted words result }
{
    if words % 4 != 0 {
        return Err(Refusal::Ragged);
    }
    let count = words / 4;
    if LIMIT < count {
        return Err(Refusal::TooMany);
    }
    Ok(count)
}

// The settled chunk of updates that never fall, at the front of `out`: equal positions added, zero sums dropped.
pub fn form(updates: &[u64], out: &mut [u64]) -> Result<(), Refusal>
    ensures { FormAnswers updates.now out.old (answer_number result) out.new }
{
    let count = counted(updates.len())?;
    let sizes = survey(updates)?;
    if out.len() < ROOM + ROOM_EACH * count {
        return Err(Refusal::OutputShort);
    }
    form_sorted(updates, out, sizes);
    Ok(())
}

// Whether each update's diff is in range.
#[tactic(auto, using(sort::proofs::Updates::count_whole))]
fn all_in_range(words: &[u64]) -> bool
    ensures { result ≡ every in_range (updates words.now) }
{
    let mut within = true;
    for i in 0..words.len() / 4 {
        let next = Update::read(words, i);
        within &= in_range(next);
    }
    within
}

// The settled chunk of updates in any order, at the front of `out`. Where the call is accepted, the updates are left sorted by key,
// value, time, then signed diff.
pub fn form_unsorted(updates: &mut [u64], out: &mut [u64]) -> Result<(), Refusal>
    ensures { UnsortedAnswers updates.old out.old (answer_number result) updates.new out.new }
{
    let count = counted(updates.len())?;
    if !all_in_range(updates) {
        return Err(Refusal::OutOfRange);
    }
    if out.len() < ROOM + ROOM_EACH * count {
        return Err(Refusal::OutputShort);
    }
    sort_updates(updates);
    let sizes = survey(updates)?;
    form_sorted(updates, out, sizes);
    Ok(())
}
