#![tactic(auto)]

ghost use Rattle.std.specs.Prelude.{◌≡◌, ◌+◌, ◌-◌, ◌*◌, ◌<◌, ◌≤◌, true, false, [], ◌∷◌, length, drop, slice_index};
ghost use Rattle.chunk.specs.Words.{entries, over, rises, val_end_body, val_body, time_end_body, time_body};
ghost use Rattle.chunk.specs.Bodies.{chunk_of};
ghost use Rattle.chunk.specs.Answer.{answer_number};
ghost use Rattle.chunk.specs.Contents.{start_of};
ghost use Rattle.reports.specs.Merge.{sound_at, suffix_number, suffix_out};
ghost use Rattle.merge.specs.Suffix.{place_of, Ready};
ghost use Rattle.reports.specs.Read.{Read};
ghost use Rattle.reports.specs.Run.{part_of, run_of};
ghost use Rattle.merge.specs.Outcome.{MergeAnswers, joined_of};
ghost use Rattle.reports.specs.Layers.{LayersRoom};
ghost use Rattle.merge.specs.Surveyed.{LayersSurveyed};
ghost use Rattle.reports.specs.Gallop.{below_at, settled, Reached};
ghost use Rattle.merge.specs.Strode.{Strode};
ghost use Rattle.reports.specs.Survey.{below};
ghost use Rattle.reports.specs.Scratch.{placed, words_of, report_words, PairRoom, OneRoom, SurveyRoom, survey_of, surveyed, reports_at};
ghost use Rattle.merge.specs.Said.{said};
ghost use Rattle.merge.specs.Spots.{spot_after, head_report, reports_left};

mod pair;
mod report;
mod row;
mod weft;
mod write;

use chunk::{Chunk, Contents, Range, Refusal};
use report::{Kind, Report};

// Where the doubling steps stand: at an item of the run, and the step that would have left it.
#[derive(Clone, Copy)]
struct Stride {
    lower: usize,
    step: usize,
}

// Whether there is an item at `at` that is below `target`.
fn below_at(items: &[u64], at: usize, target: u64) -> bool
    ensures { result ≡ below_at items.now (length items.now) target at }
{
    at < items.len() && items[at] < target
}

// Doubling steps from the front, as long as they land below `target`.
// Kept: doubling and halving steps from the front, which are the Rust's `gallop`: a run is short beside what is left, and few items are read.
fn gallop_up(items: &[u64], target: u64) -> Stride
    requires { below_at items.now (length items.now) target 0 ≡ true }
    ensures { Strode items.now 0 (length items.now) target result }
{
    let mut lower = 0;
    let mut step: usize = 1;
    while below_at(items, lower + step, target) {
        lower += step;
        step *= 2;
    }
    Stride { lower, step }
}

// One halving step: taken where it lands below `target`.
fn settle(items: &[u64], lower: usize, step: usize, target: u64) -> usize
    requires { (lower < length items.now) × (step ≤ length items.now) }
    ensures { result ≡ settled items.now lower step (length items.now) target }
{
    if below_at(items, lower + step, target) {
        return lower + step;
    }
    lower
}

// Halving steps from where the doubling ones stand, down to the last item below `target`.
fn gallop_down(items: &[u64], stride: Stride, target: u64) -> usize
    requires { Strode items.now 0 (length items.now) target stride }
    ensures { Reached items.now 0 (length items.now) target result }
{
    let mut lower = stride.lower;
    let mut step = stride.step / 2;
    while 0 < step {
        lower = settle(items, lower, step, target);
        step /= 2;
    }
    lower
}

// How many items from the front of rising ones are below `target`.
fn gallop(items: &[u64], target: u64) -> usize
    requires { rises items.now ≡ true }
    ensures { result ≡ below target items.now }
{
    if !below_at(items, 0, target) {
        return 0;
    }
    let stride = gallop_up(items, target);
    gallop_down(items, stride, target) + 1
}

// How far a survey has come in each input.
#[derive(Clone, Copy)]
struct Spot {
    lower0: usize,
    lower1: usize,
}

// Writes the report of the two items where a survey stands, and answers where it stands past them.
// Kept: the scratch and the place go on by themselves, as the output and the place do in write.rt.
fn survey_step(items0: &[u64], items1: &[u64], spot: Spot, scratch: &mut [u64], at: usize) -> Spot
    requires pair_room { PairRoom items0.now spot.lower0 (length items0.now) items1.now spot.lower1 (length items1.now) scratch.old at }
    requires left { (spot.lower0 < length items0.now) × (spot.lower1 < length items1.now) }
    ensures value { result ≡ spot_after (head_report items0.now items1.now spot) spot.lower0 spot.lower1 }
    ensures scratch_after { scratch.new ≡ placed at (words_of (head_report items0.now items1.now spot)) scratch.old }
{
    let Spot { lower0, lower1 } = spot;
    let val0 = items0[lower0];
    let val1 = items1[lower1];
    if val0 == val1 {
        Report::both(lower0, lower1).write(scratch, at);
        return Spot {
            lower0: lower0 + 1,
            lower1: lower1 + 1,
        };
    }
    if val0 < val1 {
        let end = lower0 + 1 + gallop(&items0[lower0 + 1..], val1);
        Report::this(lower0, end).write(scratch, at);
        return Spot {
            lower0: end,
            lower1,
        };
    }
    let end = lower1 + 1 + gallop(&items1[lower1 + 1..], val0);
    Report::that(lower1, end).write(scratch, at);
    Spot {
        lower0,
        lower1: end,
    }
}

// Writes the reports of two lists from `start` on, and answers the place past them.
fn survey_pair(
    items0: &[u64],
    items1: &[u64],
    start: Spot,
    scratch: &mut [u64],
    from: usize,
) -> usize
    requires { PairRoom items0.now start.lower0 (length items0.now) items1.now start.lower1 (length items1.now) scratch.old from }
    ensures value { result ≡ from + 3 * length (reports_left items0.now items1.now start) }
    ensures scratch_after { scratch.new ≡ placed from (report_words (reports_left items0.now items1.now start)) scratch.old }
{
    let mut spot = start;
    let mut at = from;
    // Kept: a report says how far both indices go on, which no range or iterator does.
    while spot.lower0 < items0.len() {
        if items1.len() <= spot.lower1 {
            Report::this(spot.lower0, items0.len()).write(scratch, at);
            return at + 3;
        }
        spot = survey_step(items0, items1, spot, scratch, at);
        at += 3;
    }
    if spot.lower1 < items1.len() {
        Report::that(spot.lower1, items1.len()).write(scratch, at);
        return at + 3;
    }
    at
}

// A layer of one input: the ends of its lists, and the items.
#[derive(Clone, Copy)]
struct Layer<'a> {
    ends: &'a [u64],
    items: &'a [u64],
}

impl<'a> Layer<'a> {
    // The values of a chunk, by their keys.
    fn vals(chunk: Chunk<'a>) -> Layer<'a>
        ensures ends { result.ends.now ≡ val_end_body chunk.entry.words.now }
        ensures items { result.items.now ≡ val_body chunk.entry.words.now }
    {
        Layer {
            ends: chunk.val_ends(),
            items: chunk.vals(),
        }
    }

    // The times of a chunk, by their values.
    fn times(chunk: Chunk<'a>) -> Layer<'a>
        ensures ends { result.ends.now ≡ time_end_body chunk.entry.words.now }
        ensures items { result.items.now ≡ time_body chunk.entry.words.now }
    {
        Layer {
            ends: chunk.time_ends(),
            items: chunk.times(),
        }
    }
}

// From where to where the lists of a run of one input have their items.
fn items_of(ends: &[u64], run: Report) -> Range
    requires { (run.low < run.high) × (run.high ≤ length ends.now) }
    ensures { result ≡ record { lower = start_of ends.now run.low; upper = slice_index ends.now (run.high - 1) } }
{
    Range {
        lower: chunk::child_range(ends, run.low).lower,
        upper: chunk::child_range(ends, run.high - 1).upper,
    }
}

// Writes what one report of the layer above becomes, and answers the place past it.
fn survey_one(first: Layer, second: Layer, report: Report, scratch: &mut [u64], at: usize) -> usize
    requires { OneRoom first.ends.now first.items.now second.ends.now second.items.now (said report) scratch.old at }
    ensures value { result ≡ at + 3 * length (survey_of first.entry.ends.now first.entry.items.now second.entry.ends.now second.entry.items.now (said report)) }
    ensures scratch_after { scratch.new ≡ placed at (report_words (survey_of first.entry.ends.now first.entry.items.now second.entry.ends.now second.entry.items.now (said report))) scratch.old }
{
    match report.kind {
        Kind::This => {
            let run = items_of(first.ends, report);
            Report::this(run.lower, run.upper).write(scratch, at);
            at + 3
        }
        Kind::That => {
            let run = items_of(second.ends, report);
            Report::that(run.lower, run.upper).write(scratch, at);
            at + 3
        }
        Kind::Both => {
            let one = chunk::child_range(first.ends, report.low);
            let two = chunk::child_range(second.ends, report.high);
            let start = Spot {
                lower0: one.lower,
                lower1: two.lower,
            };
            survey_pair(
                &first.items[..one.upper],
                &second.items[..two.upper],
                start,
                scratch,
                at,
            )
        }
    }
}

// Surveys a layer: for each of the `count` reports at `from`, what it becomes, from `start` on. Answers the place past them.
fn survey(
    first: Layer,
    second: Layer,
    scratch: &mut [u64],
    from: usize,
    count: usize,
    start: usize,
) -> usize
    requires { SurveyRoom first.ends.now first.items.now second.ends.now second.items.now scratch.old from count start }
    ensures value { result ≡ start + 3 * length (surveyed first.entry.ends.now first.entry.items.now second.entry.ends.now second.entry.items.now (reports_at scratch.old from count)) }
    ensures scratch_after { scratch.new ≡ placed start (report_words (surveyed first.entry.ends.now first.entry.items.now second.entry.ends.now second.entry.items.now (reports_at scratch.old from count))) scratch.old }
{
    let mut at = start;
    // Kept: no row lends the reports, since the scratch that they stand in is written; with `split_at_mut` the places of this layer's reports
    // would be told from another start than those of the layer above.
    for n in 0..count {
        let report = Report::read(scratch, from + 3 * n);
        at = survey_one(first, second, report, scratch, at);
    }
    at
}

// The places past the reports of each layer.
#[derive(Clone, Copy)]
struct Surveys {
    keys: usize,
    vals: usize,
    times: usize,
}

// Surveys the three layers of two chunks, each layer by the reports of the one above.
fn survey_layers(first: Chunk, second: Chunk, scratch: &mut [u64]) -> Surveys
    requires { LayersRoom first.words.now first.contents second.words.now second.contents scratch.old }
    ensures { LayersSurveyed (entries first.entry.words.now) (entries second.entry.words.now) scratch.old scratch.new result }
{
    let front = Spot {
        lower0: 0,
        lower1: 0,
    };
    let keys = survey_pair(first.keys(), second.keys(), front, scratch, 0);
    let vals = survey(
        Layer::vals(first),
        Layer::vals(second),
        scratch,
        0,
        keys / 3,
        keys,
    );
    let times = survey(
        Layer::times(first),
        Layer::times(second),
        scratch,
        keys,
        (vals - keys) / 3,
        vals,
    );
    Surveys { keys, vals, times }
}

// A place in a chunk: the indices of a key, of a value and of a time.
#[derive(Clone, Copy, PartialEq, Eq)]
pub struct Cursor {
    pub k: usize,
    pub v: usize,
    pub t: usize,
}

// Who survives a merge, and from which key, value and time on.
#[derive(Clone, Copy)]
pub enum Survivor {
    Nobody,
    First(Cursor),
    Second(Cursor),
}

// Where the reports of each layer stand in scratch: the keys' from 0 on, and how many of each there are.
#[derive(Clone, Copy)]
struct Spans {
    keys: usize,
    vals_at: usize,
    vals: usize,
    times_at: usize,
    times: usize,
}

// Whether the cursor is a time index of the chunk with its own value and key.
fn sound_at(chunk: Chunk, cursor: Cursor) -> bool
    requires { Read chunk.words.now chunk.contents }
    ensures { result ≡ sound_at (entries chunk.entry.words.now) (place_of cursor) }
{
    cursor.t < chunk.contents.nt && pair::place_at(chunk, cursor.t) == cursor
}

// Writes the chunk of the entries from the cursor on: one report for each layer, of all that is left there. No report names the second input.
fn write_suffix(chunk: Chunk, cursor: Cursor, out: &mut [u64])
    requires { Ready chunk.words.now chunk.contents cursor out.old }
    ensures { out.new ≡ over (chunk_of (drop cursor.t (entries chunk.entry.words.now))) out.old }
{
    let Cursor { k, v, t } = cursor;
    let Contents { nk, nv, nt, .. } = chunk.contents;
    let mut reports = [0; 9];
    Report::this(k, nk).write(&mut reports, 0);
    Report::this(v, nv).write(&mut reports, 3);
    Report::this(t, nt).write(&mut reports, 6);
    let spans = Spans {
        keys: 1,
        vals_at: 3,
        vals: 1,
        times_at: 6,
        times: 1,
    };
    weft::write_from_surveys(chunk, chunk, &reports, spans, out);
}

// The settled chunk of the records from the cursor's time on: refused as document 01 orders it, by 5, 6, 7, 8 or 13, or `out` written.
pub fn suffix_chunk(cursor: Cursor, words: &[u64], out: &mut [u64]) -> Result<(), Refusal>
    ensures value { answer_number result ≡ suffix_number (place_of cursor) words.now out.old }
    ensures out_after { out.new ≡ suffix_out (place_of cursor) words.now out.old }
{
    let chunk = chunk::filled(words)?;
    if !sound_at(chunk, cursor) {
        return Err(Refusal::BadCursor);
    }
    if out.len() < chunk.contents.size {
        return Err(Refusal::OutputShort);
    }
    write_suffix(chunk, cursor, out);
    Ok(())
}

// Merges two settled chunks up to the smaller of their last positions: refused by 5, 6 or 7 for the first, the same for the second, 2, 12, 13 or 14,
// or `out` written and the survivor. Scratch is the call's own once nothing before 14 refuses.
pub fn merge_pair(
    words0: &[u64],
    words1: &[u64],
    scratch: &mut [u64],
    out: &mut [u64],
) -> Result<Survivor, Refusal>
    ensures { MergeAnswers words0.now words1.now scratch.old out.old (joined_of result) out.new scratch.new }
{
    let first = chunk::filled(words0)?;
    let second = chunk::filled(words1)?;
    pair::admit(first.contents, second.contents, scratch.len(), out.len())?;
    pair::merge_settled(first, second, scratch, out)
}

// The part of a body from `low` to `high`, which is excluded; the empty part where that range isn't in it.
fn part_of(body: &[u64], low: usize, high: usize) -> &[u64]
    ensures { result.now ≡ part_of body.now low high }
{
    body.get(low..high).unwrap_or(&[])
}

// The item of both inputs that stands at `low` in the first and at `high` in the second, as a part of the first; the empty part where either isn't there.
fn shared_of<'a>(first: &'a [u64], low: usize, second: &[u64], high: usize) -> &'a [u64]
    ensures { result.now ≡ run_of 2 low high first.now second.now }
{
    if second.len() <= high || first.len() <= low {
        return &[];
    }
    &first[low..low + 1]
}

// The run that a report names, as a part of the input it names; a report that can't be served gets the empty part.
// Kept: the kind is a word, since a caller's report is three words of any value, and one of another kind names nothing (document 01, "the run named by a report").
pub fn run_of<'a>(
    kind: u64,
    low: usize,
    high: usize,
    first: &'a [u64],
    second: &'a [u64],
) -> &'a [u64]
    ensures { result.now ≡ run_of kind low high first.now second.now }
{
    match kind {
        0 => part_of(first, low, high),
        1 => part_of(second, low, high),
        2 => shared_of(first, low, second, high),
        _ => &[],
    }
}
