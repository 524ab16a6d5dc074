#![tactic(auto)]

ghost use Rattle.std.specs.Prelude.{◌≡◌, suc, ◌≤◌, ◌<◌, ◌^◌, true, false, ◌&&◌, ◌||◌, eqb, length, [], ◌∷◌, MatchResult};
ghost use Rattle.chunk.specs.Contents.{contents_of, each_within, layout_of, layout_near, layout_within, with_table, child_range};
ghost use Rattle.chunk.specs.Time.{earlier, at_or_below};
ghost use Rattle.chunk.specs.Check.{checked_of};
ghost use Rattle.chunk.specs.Answer.{number_of};
ghost use Rattle.chunk.specs.Refusal.{first, malformed, unsettled, empty};
ghost use Rattle.chunk.specs.Entry.{every};
ghost use Rattle.chunk.specs.Words.{rises, ends_rise, ends_step, lists, all_or_none, well_formed, settled, nt};
ghost use Rattle.chunk.specs.Falls.{fall, falls_of, falls_at, Ahead};
ghost use Rattle.chunk.specs.Rows.{counts_up, Rows, Level, Counted};
ghost use Rattle.chunk.specs.Beside.{standing, changes_hold};

use beside::times_hold;
pub use lent::Chunk;

mod beside;
mod lent;

// What the contents table says: the four counts, where each body starts, and the chunk's size.
#[derive(Clone, Copy)]
pub struct Contents {
    pub nk: usize,
    pub nv: usize,
    pub nt: usize,
    pub nd: usize,
    pub keys_at: usize,
    pub val_ends_at: usize,
    pub vals_at: usize,
    pub time_ends_at: usize,
    pub times_at: usize,
    pub diff_ends_at: usize,
    pub diffs_at: usize,
    pub size: usize,
}

// The items of one list: from `lower` to `upper`, which is excluded.
#[derive(Clone, Copy)]
pub struct Range {
    pub lower: usize,
    pub upper: usize,
}

// What `check` says of a chunk that is well formed: whether every time has its diff, and the contents.
#[derive(Clone, Copy)]
pub struct Checked {
    pub settled: bool,
    pub contents: Contents,
}

// Why a call refuses what it is lent, by document 01's numbers.
#[derive(Clone, Copy, Debug, PartialEq, Eq)]
pub enum Refusal {
    // The words of the updates are not four each.
    Ragged = 1,
    // Too many updates, or too many times in two chunks together.
    TooMany = 2,
    // The updates of a sorted form fall.
    Falls = 3,
    // The diff of an update is too large either way.
    OutOfRange = 4,
    // The words are no chunk.
    Malformed = 5,
    // Some time of the chunk has no diff.
    Unsettled = 6,
    // The chunk is empty.
    Empty = 7,
    // The cursor is not that of a time of the chunk.
    BadCursor = 8,
    // The frontier has too many corners, or they are out of order.
    BadFrontier = 9,
    // The frontier of the kept times has too many corners.
    TooManyCorners = 10,
    // The second chunk doesn't start past the end of the first.
    Overlaps = 11,
    // The scratch, or the records for reports, are fewer than asked.
    ScratchShort = 12,
    // An output is shorter than asked.
    OutputShort = 13,
    // A sum of two diffs doesn't fit 64 bits.
    Overflows = 14,
}

impl Refusal {
    // The number that document 01 gives it.
    pub fn number(self) -> u64
        ensures { result ≡ number_of self }
    {
        self as u64
    }
}

// The most times that a chunk may have.
const LIMIT: usize = 1048576;

// The greatest count whose places are summed up.
const NEAR: usize = 1 << 60;

// How many lists are tested together.
const PART: usize = 512;

// The words before the first body.
const TABLE: usize = 4;

// The places of the bodies for these counts, which are known to be small.
// Kept: four counts, as the definitions and LayoutSettles and TableSettles name them.
fn summed(nk: usize, nv: usize, nt: usize, nd: usize) -> Contents
    requires { (nk ≤ 2 ^ 60) × (nv ≤ 2 ^ 60) × (nt ≤ 2 ^ 60) × (nd ≤ 2 ^ 60) }
    ensures { result ≡ layout_of nk nv nt nd }
{
    let keys_at = TABLE;
    let val_ends_at = keys_at + nk;
    let vals_at = val_ends_at + nk;
    let time_ends_at = vals_at + nv;
    let times_at = time_ends_at + nv;
    let diff_ends_at = times_at + nt;
    let diffs_at = diff_ends_at + nt;
    let size = diffs_at + nd;
    Contents {
        nk,
        nv,
        nt,
        nd,
        keys_at,
        val_ends_at,
        vals_at,
        time_ends_at,
        times_at,
        diff_ends_at,
        diffs_at,
        size,
    }
}

// Whether each count is `most` at most.
fn each_within(most: usize, nk: usize, nv: usize, nt: usize, nd: usize) -> bool
    ensures { result ≡ each_within most nk nv nt nd }
{
    nk <= most && nv <= most && nt <= most && nd <= most
}

// The places of the bodies for these counts, where none is over 2^60; of no items where one is.
pub fn places(nk: usize, nv: usize, nt: usize, nd: usize) -> Contents
    ensures value { result ≡ layout_near nk nv nt nd }
    ensures near { (nk ≤ 2 ^ 60) × (nv ≤ 2 ^ 60) × (nt ≤ 2 ^ 60) × (nd ≤ 2 ^ 60) → result ≡ layout_of nk nv nt nd }
{
    if each_within(NEAR, nk, nv, nt, nd) {
        return summed(nk, nv, nt, nd);
    }
    summed(0, 0, 0, 0)
}

// The contents of a slice whose table fits it; none where it doesn't. No count is added up before it is known to be small.
pub fn read_contents(words: &[u64]) -> Option<Contents>
    ensures { result ≡ contents_of words.now }
{
    let room = words.len();
    if room < TABLE {
        return None;
    }
    let nk = words[0] as usize;
    let nv = words[1] as usize;
    let nt = words[2] as usize;
    let nd = words[3] as usize;
    if room < nk || room < nv || room < nt || room < nd {
        return None;
    }
    let found = summed(nk, nv, nt, nd);
    if room < found.size {
        return None;
    }
    Some(found)
}

// The places of the bodies of an output with these counts; none where a count is above what a chunk can have.
pub fn layout(nk: usize, nv: usize, nt: usize, nd: usize) -> Option<Contents>
    ensures { result ≡ layout_within nk nv nt nd }
{
    if each_within(LIMIT, nk, nv, nt, nd) {
        return Some(summed(nk, nv, nt, nd));
    }
    None
}

// Writes the contents table at the front of `out`; leaves a slice that is too short for it as it was.
pub fn write_table(out: &mut [u64], nk: usize, nv: usize, nt: usize, nd: usize)
    ensures { out.new ≡ with_table nk nv nt nd out.old }
{
    if out.len() < TABLE {
        return;
    }
    out[0] = nk as u64;
    out[1] = nv as u64;
    out[2] = nt as u64;
    out[3] = nd as u64;
}

// The items of list `i`, by the ends of its layer; the empty range where there is no such list.
pub fn child_range(ends: &[u64], i: usize) -> Range
    ensures { result ≡ child_range ends.now i }
{
    if ends.len() <= i {
        return Range { lower: 0, upper: 0 };
    }
    let lower = if i == 0 { 0 } else { ends[i - 1] as usize };
    Range {
        lower,
        upper: ends[i] as usize,
    }
}

// Whether time `s` sorts before time `t`: by ignition, then by tick, which is the order of the numbers.
pub fn sorts_before(s: u64, t: u64) -> bool
    ensures { result ≡ earlier s t }
{
    s < t
}

// Whether time `s` is at or below time `t` in ignition and in tick.
pub fn at_or_below(s: u64, t: u64) -> bool
    ensures { result ≡ at_or_below s t }
{
    s / 0x1_0000_0000 <= t / 0x1_0000_0000 && s % 0x1_0000_0000 <= t % 0x1_0000_0000
}

// Whether the ends are 1, 2 and so on: only so do ends rise strictly from above 0 to their own count. A bit that an end has wrong stays in `wrong`. It reads every end, so that no read waits for the one before it.
fn counts_up(ends: &[u64]) -> bool
    ensures { result ≡ ends_rise 0 ends.now (length ends.now) }
{
    let mut wrong = 0;
    for (i, end) in ends.iter().enumerate() {
        wrong |= *end ^ (i as u64 + 1);
    }
    wrong == 0
}

// Whether the ends rise strictly from above 0 to `top`. It reads every end, with no exit before the last.
fn ends_rise(ends: &[u64], top: usize) -> bool
    ensures { result ≡ ends_rise 0 ends.now top }
{
    let mut good = true;
    let mut low = 0;
    for end in ends {
        good &= low < *end;
        low = *end;
    }
    (low == top as u64) & good
}

// 1 where the next item is at or below the last, which is a fall, else 0.
fn fall_of(last: u64, next: u64) -> usize
    ensures { result ≡ fall last next }
{
    (next <= last) as usize
}

// How many falls there are among the items.
fn falls(items: &[u64]) -> usize
    ensures { result ≡ falls_of items.now }
{
    let Some((first, others)) = items.split_first() else {
        return 0;
    };
    let mut count = 0;
    let mut last = *first;
    for next in others {
        count += fall_of(last, *next);
        last = *next;
    }
    count
}

// Whether the items rise strictly: then none of them is a fall.
fn items_rise(items: &[u64]) -> bool
    ensures { result ≡ rises items.now }
{
    falls(items) == 0
}

// How many of the items that a list starts with are falls, of all lists but the first.
// Kept: `falls` reads each item once, and these are read two by two wherever a list ends; one function for both would look up each place.
fn falls_at(ends: &[u64], items: &[u64]) -> usize
    requires { Ahead ends.now items.now }
    ensures { result ≡ falls_at ends.now items.now }
{
    let mut count = 0;
    for end in &ends[..ends.len() - 1] {
        let start = *end as usize;
        count += fall_of(items[start - 1], items[start]);
    }
    count
}

// Whether the ends rise strictly from above 0 to the count of the items, and the items rise strictly within each list: where every fall is at the start of a list none is within one. No branch depends on where a list ends. The lists are taken part by part, so that a part's items are at hand when its starts are read.
fn lists_rise(ends: &[u64], items: &[u64]) -> bool
    ensures { result ≡ (ends_rise 0 ends.now (length items.now) && every rises (lists 0 ends.now items.now)) }
{
    if !ends_rise(ends, items.len()) {
        return false;
    }
    let mut low = 0;
    for part in ends.chunks(PART) {
        let high = part[part.len() - 1] as usize;
        if falls(&items[low..high]) != falls_at(part, &items[..high]) {
            return false;
        }
        low = high;
    }
    true
}

// What `lists_rise` says. Where there are as many items as ends each list can have one item only, and the ends alone tell.
fn layer_rises(ends: &[u64], items: &[u64]) -> bool
    ensures { result ≡ (ends_rise 0 ends.now (length items.now) && every rises (lists 0 ends.now items.now)) }
{
    if ends.len() == items.len() {
        return counts_up(ends);
    }
    lists_rise(ends, items)
}

// Whether an end is the previous one or one more.
fn steps(low: u64, end: u64) -> bool
    ensures { result ≡ (eqb end low || eqb end (suc low)) }
{
    low <= end && end - low <= 1
}

// Whether each end is the previous one or one more, the first one after `low`, and the last is `top`. It reads every end, with no exit before the last.
// Kept: `ends_rise` asks another test of each end; one function for both would take the test as a closure, and its contract a third definition beside the two that document 01 has.
fn ends_near(low: u64, ends: &[u64], top: u64) -> bool
    ensures { result ≡ ends_step low ends.now top }
{
    let mut good = true;
    let mut last = low;
    for end in ends {
        good &= steps(last, *end);
        last = *end;
    }
    (last == top) & good
}

// Whether no diff is 0. It reads every diff, with no exit before the last.
fn diffs_stand(diffs: &[u64]) -> bool
    ensures { result ≡ standing diffs.now }
{
    let mut good = true;
    for diff in diffs {
        good &= *diff != 0;
    }
    good
}

// Whether the diff ends step up to the count of the diffs and no diff is 0, where there are no more diffs than ends. The two are read side by side as far as both go.
fn steps_hold(ends: &[u64], diffs: &[u64]) -> bool
    requires { length diffs.now ≤ length ends.now }
    ensures { result ≡ changes_hold 0 ends.now diffs.now (length diffs.now) }
{
    let count = diffs.len();
    let mut good = true;
    let mut low = 0;
    for (i, diff) in diffs.iter().enumerate() {
        let end = ends[i];
        good &= steps(low, end) & (*diff != 0);
        low = end;
    }
    good & ends_near(low, &ends[count..], count as u64)
}

// What `steps_hold` says, of any ends and diffs. As many ends as diffs step by one each, and fewer can't reach their count.
fn changes_hold(ends: &[u64], diffs: &[u64]) -> bool
    ensures { result ≡ changes_hold 0 ends.now diffs.now (length diffs.now) }
{
    if ends.len() == diffs.len() {
        return counts_up(ends) & diffs_stand(diffs);
    }
    diffs.len() < ends.len() && steps_hold(ends, diffs)
}

// Whether the lists of times rise and the changes hold. Where each list can have one time only, the ends alone tell of the times.
fn lower_holds(time_ends: &[u64], times: &[u64], diff_ends: &[u64], diffs: &[u64]) -> bool
    requires { length diff_ends.now ≡ length times.now }
    ensures { result ≡ (changes_hold 0 diff_ends.now diffs.now (length diffs.now) && (ends_rise 0 time_ends.now (length times.now) && every rises (lists 0 time_ends.now times.now))) }
{
    if time_ends.len() == times.len() {
        return changes_hold(diff_ends, diffs) & counts_up(time_ends);
    }
    diffs.len() <= times.len() && times_hold(time_ends, times, diff_ends, diffs)
}

// Whether keys with one value, one time and one diff each hold: the keys rise, each of the ends is one more than the one before it, and no diff is 0. The five bodies are read side by side, so that their words come in at once.
// Kept: the five tests side by side took 1.53 ns for each record of a flat chunk of 1,048,576, and one after another 3.82 (docs/DECISIONS.md).
fn rows_hold(
    keys: &[u64],
    val_ends: &[u64],
    time_ends: &[u64],
    diff_ends: &[u64],
    diffs: &[u64],
) -> bool
    requires { Rows keys.now val_ends.now time_ends.now diff_ends.now diffs.now }
    ensures { result ≡ (rises keys.now && (counts_up val_ends.now && (counts_up time_ends.now && (counts_up diff_ends.now && standing diffs.now)))) }
{
    let mut fell = 0;
    let mut last = 0;
    let mut vals = 0;
    let mut times = 0;
    let mut ends = 0;
    let mut good = true;
    for (i, key) in keys.iter().enumerate() {
        fell += fall_of(last, *key);
        last = *key;
        vals |= val_ends[i] ^ (i as u64 + 1);
        times |= time_ends[i] ^ (i as u64 + 1);
        ends |= diff_ends[i] ^ (i as u64 + 1);
        good &= diffs[i] != 0;
    }
    (fell == fall_of(0, keys[0])) & ((vals == 0) & ((times == 0) & ((ends == 0) & good)))
}

// Whether all three counts are zero, or none is.
fn all_or_none(nk: usize, nv: usize, nt: usize) -> bool
    ensures { result ≡ all_or_none nk nv nt }
{
    (nk == 0) == (nv == 0) && (nv == 0) == (nt == 0)
}

// Whether the bodies of a chunk hold, whose counts do. The layers are read from the last to the first, so that a call that goes on from the first has that at hand.
fn layers_hold(chunk: Chunk) -> bool
    requires { Counted chunk.contents }
    ensures { result ≡ well_formed chunk.entry.words.now }
{
    if !lower_holds(
        chunk.time_ends(),
        chunk.times(),
        chunk.diff_ends(),
        chunk.diffs(),
    ) {
        return false;
    }
    if !layer_rises(chunk.val_ends(), chunk.vals()) {
        return false;
    }
    items_rise(chunk.keys())
}

// The same where there are as many keys, values, times and diffs.
fn level_holds(chunk: Chunk) -> bool
    requires { Counted chunk.contents × Level chunk.contents }
    ensures { result ≡ well_formed chunk.entry.words.now }
{
    rows_hold(
        chunk.keys(),
        chunk.val_ends(),
        chunk.time_ends(),
        chunk.diff_ends(),
        chunk.diffs(),
    )
}

// Whether there are as many keys, values, times and diffs, and some.
fn is_level(found: Contents) -> bool
    ensures { result ≡ true → Level found }
{
    (0 < found.nk) & ((found.nk == found.nv) & ((found.nv == found.nt) & (found.nt == found.nd)))
}

// Whether the counts and the bodies of words whose table fits them are those of a chunk.
fn bodies_hold(chunk: Chunk) -> bool
    ensures { result ≡ well_formed chunk.entry.words.now }
{
    let found = chunk.contents;
    if LIMIT < found.nt || !all_or_none(found.nk, found.nv, found.nt) {
        return false;
    }
    if is_level(found) {
        return level_holds(chunk);
    }
    layers_hold(chunk)
}

// The chunk that words hold at their front, or 5 exactly where they aren't well formed.
pub fn formed(words: &[u64]) -> Result<Chunk, Refusal>
    ensures { MatchResult result (λ c. (c.words.now ≡ words.now) × (well_formed words.now ≡ true)) (λ e. (e ≡ Refusal.Malformed) × (well_formed words.now ≡ false)) }
{
    let contents = read_contents(words).ok_or(Refusal::Malformed)?;
    let chunk = Chunk { words, contents };
    if !bodies_hold(chunk) {
        return Err(Refusal::Malformed);
    }
    Ok(chunk)
}

// The settled chunk that words hold at their front; 5 where they aren't well formed, 6 where some time has no diff.
pub fn settled(words: &[u64]) -> Result<Chunk, Refusal>
    ensures { MatchResult result (λ c. (c.words.now ≡ words.now) × (well_formed words.now ≡ true) × (settled words.now ≡ true)) (λ e. number_of e ≡ first (malformed words.now ∷ unsettled words.now ∷ [])) }
{
    let chunk = formed(words)?;
    if chunk.contents.nd != chunk.contents.nt {
        return Err(Refusal::Unsettled);
    }
    Ok(chunk)
}

// The settled chunk that words hold at their front, which has something; 5 and 6 as for `settled`, 7 where it is empty.
pub fn filled(words: &[u64]) -> Result<Chunk, Refusal>
    ensures { MatchResult result (λ c. (c.words.now ≡ words.now) × (well_formed words.now ≡ true) × (settled words.now ≡ true) × (0 < nt words.now)) (λ e. number_of e ≡ first (malformed words.now ∷ unsettled words.now ∷ empty words.now ∷ [])) }
{
    let chunk = settled(words)?;
    if chunk.contents.nt == 0 {
        return Err(Refusal::Empty);
    }
    Ok(chunk)
}

// The check of a chunk: 5 exactly where the slice isn't well formed; else the contents, and whether it is settled.
pub fn check(words: &[u64]) -> Result<Checked, Refusal>
    ensures { result ≡ checked_of words.now }
{
    let contents = formed(words)?.contents;
    Ok(Checked {
        settled: contents.nd == contents.nt,
        contents,
    })
}
