ghost use Rattle.std.specs.Prelude.{◌≡◌, ◌+◌, ◌-◌, ◌*◌, ◌/◌, ◌<◌, ◌≤◌, true, false, not, [], ◌∷◌, length};
ghost use Rattle.chunk.specs.Words.{entries};
ghost use Rattle.chunk.specs.Sums.{sum_fits};
ghost use Rattle.chunk.specs.Answer.{answer_number};
ghost use Rattle.reports.specs.Merge.{place_at, overflows};
ghost use Rattle.merge.specs.Suffix.{place_of};
ghost use Rattle.reports.specs.Read.{Read};
ghost use Rattle.reports.specs.Scratch.{reports_at};
ghost use Rattle.reports.specs.Write.{AllServe};
ghost use Rattle.reports.specs.Tail.{trimmed, overflows_by, survivor_by};
ghost use Rattle.merge.specs.Outcome.{survivor_of, joined_of};
ghost use Rattle.reports.specs.Refusals.{room_of, SmallEach};
ghost use Rattle.reports.specs.Mergeable.{Mergeable, Trailing};
ghost use Rattle.merge.specs.Said.{said};
ghost use Rattle.merge.specs.Rows.{reports_of};
ghost use Rattle.merge.specs.Surveyed.{Surveyed, SurveysStand, trimmed_spans, SettledMerge};

use crate::report::{Kind, Report};
use crate::row::Row;
use crate::write::Bodies;
use crate::{Cursor, Spans, Surveys, Survivor, weft};
use chunk::{Chunk, Contents, Refusal};

// How many reports of a row are left without the runs of one input that they end with.
fn trim(row: Row) -> usize
    ensures { result ≡ length (trimmed (reports_of row.entry)) }
{
    let Row {
        words,
        from,
        count,
        ..
    } = row;
    if count == 0 {
        return 0;
    }
    let kind = Report::read(words, from + 3 * (count - 1)).kind;
    if kind == Kind::Both {
        return count;
    }
    for i in (0..count).rev() {
        if Report::read(words, from + 3 * i).kind != kind {
            return i + 1;
        }
    }
    0
}

// Whether the sum of two diffs, as signed numbers of 64 bits, is one.
fn sum_fits(x: u64, y: u64) -> bool
    ensures { result ≡ sum_fits x y }
{
    x.cast_signed().checked_add(y.cast_signed()).is_some()
}

// Whether a report of times has no sum that is too large.
fn report_fits(diffs: Bodies, report: Report) -> bool
    requires { AllServe (length diffs.first.now) (length diffs.second.now) (said report ∷ []) }
    ensures { result ≡ not (overflows_by diffs.entry.first.now diffs.entry.second.now (said report ∷ [])) }
{
    match report.kind {
        Kind::Both => sum_fits(diffs.first[report.low], diffs.second[report.high]),
        _ => true,
    }
}

// Whether every sum at a shared time fits, of the reports of times in a row.
fn sums_fit(diffs: Bodies, row: Row) -> bool
    requires { AllServe (length diffs.first.now) (length diffs.second.now) (reports_of row) }
    ensures { result ≡ not (overflows_by diffs.entry.first.now diffs.entry.second.now (reports_of row.entry)) }
{
    for report in row {
        if !report_fits(diffs, report) {
            return false;
        }
    }
    true
}

// Where the entry at index `t` stands: with its own value and key.
pub(crate) fn place_at(chunk: Chunk, t: usize) -> Cursor
    requires read { Read chunk.words.now chunk.contents }
    requires t_in_bounds { t < length (entries chunk.words.now) }
    ensures { place_of result ≡ place_at (entries chunk.entry.words.now) t }
{
    let v = crate::gallop(chunk.time_ends(), t as u64 + 1);
    let k = crate::gallop(chunk.val_ends(), v as u64 + 1);
    Cursor { k, v, t }
}

// Refuses two chunks that have too many times together, too little scratch, or too little room.
pub(crate) fn admit(
    found0: Contents,
    found1: Contents,
    scratch: usize,
    out: usize,
) -> Result<(), Refusal>
    requires { SmallEach found0 found1 }
    ensures { answer_number result ≡ room_of found0 found1 scratch out }
{
    if chunk::layout(0, 0, found0.nt + found1.nt, 0).is_none() {
        return Err(Refusal::TooMany);
    }
    if scratch < 3 * (found0.nk + found0.nv + found0.nt + (found1.nk + found1.nv + found1.nt)) {
        return Err(Refusal::ScratchShort);
    }
    if out < found0.size + (found1.size - found1.keys_at) {
        return Err(Refusal::OutputShort);
    }
    Ok(())
}

// Who survives, by the first of the runs that the surveyed times end with.
fn survivor_of(first: Chunk, second: Chunk, mut runs: Row) -> Survivor
    requires { Trailing first.words.now first.contents second.words.now second.contents (reports_of runs) }
    ensures { result ≡ survivor_of (survivor_by (entries first.entry.words.now) (entries second.entry.words.now) (reports_of runs.entry)) }
{
    let Some(run) = runs.next() else {
        return Survivor::Nobody;
    };
    match run.kind {
        Kind::This => Survivor::First(place_at(first, run.low)),
        _ => Survivor::Second(place_at(second, run.low)),
    }
}

// The reports of a survey that stand between two places of scratch.
fn row_between(scratch: &[u64], from: usize, to: usize) -> Row
    requires { (from ≤ to) × (to ≤ length scratch.now) }
    ensures { reports_of result ≡ reports_at scratch.now from ((to - from) / 3) }
{
    Row {
        words: scratch,
        from,
        count: (to - from) / 3,
    }
}

// The reports of each layer without the runs that they end with.
fn trim_surveys(scratch: &[u64], surveys: Surveys) -> Spans
    requires { SurveysStand scratch.now surveys }
    ensures { result ≡ trimmed_spans scratch.now surveys }
{
    let Surveys {
        keys: vals_at,
        vals: times_at,
        times: end,
    } = surveys;
    let keys = trim(row_between(scratch, 0, vals_at));
    let vals = trim(row_between(scratch, vals_at, times_at));
    let times = trim(row_between(scratch, times_at, end));
    Spans {
        keys,
        vals_at,
        vals,
        times_at,
        times,
    }
}

// Whether the diffs of two surveyed chunks add up in 64 bits at every shared time.
fn adds_up(first: Chunk, second: Chunk, scratch: &[u64], surveys: Surveys) -> bool
    requires { Surveyed first.words.now first.contents second.words.now second.contents scratch.now surveys }
    ensures { result ≡ not (overflows (entries first.entry.words.now) (entries second.entry.words.now)) }
{
    let diffs = Bodies {
        first: first.diffs(),
        second: second.diffs(),
    };
    sums_fit(diffs, row_between(scratch, surveys.vals, surveys.times))
}

// Merges two settled chunks that have something, with room for the surveys and for what is written; refused where a sum of two diffs overflows.
pub(crate) fn merge_settled(
    first: Chunk,
    second: Chunk,
    scratch: &mut [u64],
    out: &mut [u64],
) -> Result<Survivor, Refusal>
    requires { Mergeable first.words.now first.contents second.words.now second.contents (length scratch.old) (length out.old) }
    ensures { SettledMerge (entries first.entry.words.now) (entries second.entry.words.now) out.old (joined_of result) out.new }
{
    let surveys = crate::survey_layers(first, second, scratch);
    if !adds_up(first, second, scratch, surveys) {
        return Err(Refusal::Overflows);
    }
    let spans = trim_surveys(scratch, surveys);
    weft::write_from_surveys(first, second, scratch, spans, out);
    let times = row_between(scratch, surveys.vals, surveys.times);
    Ok(survivor_of(first, second, times.past(spans.times)))
}
