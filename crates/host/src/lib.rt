#![tactic(auto)]

ghost use Rattle.std.specs.Prelude.{◌≡◌, [], ◌∷◌, ◌++◌, ◌+◌, ◌*◌, ◌≤◌, length, take, drop};
ghost use Rattle.chunk.specs.Answer.{answer_number};
ghost use Rattle.chunk.specs.Words.{over};
ghost use Rattle.form.specs.Form.{FormAnswers, UnsortedAnswers};
ghost use Rattle.meld.specs.Meld.{Melded};
ghost use Rattle.retain.specs.Cut.{filter_number, filter_out};
ghost use Rattle.split.specs.Cut.{Split};
ghost use Rattle.reports.specs.Survey.{reports};
ghost use Rattle.survey.specs.Reports.{keys_of};
ghost use Rattle.reports.specs.Merge.{suffix_number, suffix_out};
ghost use Rattle.merge.specs.Outcome.{joined_of};
ghost use Rattle.host.specs.Answers.{check_number, check_answer, check_words, walker_words, start_number, start_answer, Answers};
ghost use Rattle.host.specs.Extracts.{frontier_in, answer_words, ExtractAnswers};
ghost use Rattle.host.specs.Listing.{report_words, SurveyAnswers};
ghost use Rattle.host.specs.Merges.{survivor_words, Said, PairAnswers, AllAnswers};
ghost use Rattle.host.specs.Steps.{walker_in, StepAnswers};

use chunk::{Checked, Refusal};
use merge::{Cursor, Survivor};
use retain::{Extracted, Frontier};
use survey::{Report, Spot};
use walk::Walker;

// The words of a check's answer, of a walker and of a record.
const CHECK_WORDS: usize = 5;

const WALKER_WORDS: usize = 7;

const RECORD_WORDS: usize = 4;

// The words of a frontier, a count and 128 places, and of an extract's answer, a verdict and a frontier.
const FRONTIER_WORDS: usize = 129;

const EXTRACT_WORDS: usize = 130;

// The words of a report, and of a survey's answer.
const REPORT_WORDS: usize = 3;

const SURVEY_WORDS: usize = 1;

// The words of a merge's answer: a survivor and its cursor.
const MERGE_WORDS: usize = 4;

// What a step returns where no record is left.
// Kept: the C interface has this number beside document 01's.
const DONE: u64 = 100;

// What a call returns where the slice for its answer has too few words.
const SHORT: u64 = Refusal::OutputShort as u64;

// What a call returns: 0 where it is accepted, else its refusal's number.
// Kept: each `rl_` call returns a number, and not the answer itself, since C reads it; and it matches where it writes what it was answered, since `map` with a closure that writes
// would need its contract in each call.
fn number(answer: Result<(), Refusal>) -> u64
    ensures { result ≡ answer_number answer }
{
    match answer {
        Ok(()) => 0,
        Err(refusal) => refusal.number(),
    }
}

// Words at the front of a slice.
fn write_front(out: &mut [u64], words: &[u64])
    requires { length words.now ≤ length out.old }
    ensures { out.new ≡ over words.now out.old }
{
    out[..words.len()].copy_from_slice(words);
}

// A check's words at the front of a slice.
fn write_checked(out: &mut [u64], found: Checked)
    requires { 5 ≤ length out.old }
    ensures { out.new ≡ over (check_words found) out.old }
{
    let contents = found.contents;
    write_front(
        out,
        &[
            found.settled as u64,
            contents.nk as u64,
            contents.nv as u64,
            contents.nt as u64,
            contents.nd as u64,
        ],
    );
}

// The check of a chunk; its answer is settled (0 or 1), nk, nv, nt, nd.
#[tactic(auto, unfolding(crate::specs::Answers::check_number, crate::specs::Answers::check_answer))]
pub fn rl_check(words: &[u64], answer: &mut [u64]) -> u64
    ensures { Answers (check_number words.now answer.old) (check_answer words.now answer.old) result answer.new }
{
    if answer.len() < CHECK_WORDS {
        return SHORT;
    }
    match chunk::check(words) {
        Ok(found) => {
            write_checked(answer, found);
            0
        }
        Err(refusal) => refusal.number(),
    }
}

// The settled chunk of updates that never fall.
pub fn rl_form(updates: &[u64], out: &mut [u64]) -> u64
    ensures { FormAnswers updates.now out.old result out.new }
{
    number(form::form(updates, out))
}

// The settled chunk of updates in any order, which are left sorted.
pub fn rl_form_unsorted(updates: &mut [u64], out: &mut [u64]) -> u64
    ensures { UnsortedAnswers updates.old out.old result updates.new out.new }
{
    number(form::form_unsorted(updates, out))
}

// Chunk `b` behind chunk `a`.
pub fn rl_meld(a: &[u64], b: &[u64], out: &mut [u64]) -> u64
    ensures { Melded a.now b.now out.old result out.new }
{
    number(meld::meld(a, b, out))
}

// The chunk without the times that have no diff.
pub fn rl_filter_zero(words: &[u64], out: &mut [u64]) -> u64
    ensures { (result ≡ filter_number words.now out.old) × (out.new ≡ filter_out words.now out.old) }
{
    number(retain::filter_zero(words, out))
}

// The first n records, and the rest.
pub fn rl_split_at(words: &[u64], n: u64, first: &mut [u64], rest: &mut [u64]) -> u64
    ensures { Split result first.new rest.new words.now n first.old rest.old }
{
    number(split::split_at(words, n, first, rest))
}

// The chunk of the records from the time at index t on, whose key and value are at k and v.
pub fn rl_suffix_chunk(k: u64, v: u64, t: u64, words: &[u64], out: &mut [u64]) -> u64
    ensures value { result ≡ suffix_number (record { k = k; v = v; t = t }) words.now out.old }
    ensures out_after { out.new ≡ suffix_out (record { k = k; v = v; t = t }) words.now out.old }
{
    let cursor = Cursor {
        k: k as usize,
        v: v as usize,
        t: t as usize,
    };
    number(merge::suffix_chunk(cursor, words, out))
}

// A walker's words at the front of a slice.
fn write_walker(out: &mut [u64], w: Walker)
    requires { 7 ≤ length out.old }
    ensures { out.new ≡ over (walker_words w) out.old }
{
    write_front(out, &[w.k, w.v, w.t, w.d, w.v_end, w.t_end, w.d_end]);
}

// The walker that seven words say.
// Kept: seven reads of seven words are plainer than a slice pattern, whose `else` can't come, or an iterator, whose every `next` may have none.
fn read_walker(words: &[u64]) -> Walker
    requires { 7 ≤ length words.now }
    ensures { result ≡ walker_in words.now }
{
    Walker {
        k: words[0],
        v: words[1],
        t: words[2],
        d: words[3],
        v_end: words[4],
        t_end: words[5],
        d_end: words[6],
    }
}

// Where a walk starts: the walker's seven words.
#[tactic(auto, unfolding(crate::specs::Answers::start_number, crate::specs::Answers::start_answer))]
pub fn rl_walk_start(words: &[u64], walker: &mut [u64]) -> u64
    ensures { Answers (start_number words.now walker.old) (start_answer words.now walker.old) result walker.new }
{
    if walker.len() < WALKER_WORDS {
        return SHORT;
    }
    match walk::walk_start(words) {
        Ok(start) => {
            write_walker(walker, start);
            0
        }
        Err(refusal) => refusal.number(),
    }
}

// One step of a walk: the walker's words go past the next record, whose words are given; or DONE, or 5, and nothing changes.
#[tactic(auto, unfolding(crate::specs::Steps::went_from))]
pub fn rl_walk_step(words: &[u64], walker: &mut [u64], found: &mut [u64]) -> u64
    ensures { StepAnswers words.now walker.old found.old result walker.new found.new }
{
    if walker.len() < WALKER_WORDS {
        return SHORT;
    }
    if found.len() < RECORD_WORDS {
        return SHORT;
    }
    match walk::walk_step(words, read_walker(walker)) {
        Ok(Some((record, past))) => {
            write_walker(walker, past);
            write_front(found, &[record.key, record.val, record.time, record.diff]);
            0
        }
        Ok(None) => DONE,
        Err(refusal) => refusal.number(),
    }
}

// The frontier that 129 words say.
fn read_frontier(words: &[u64]) -> Frontier
    requires { 129 ≤ length words.now }
    ensures { result ≡ frontier_in words.now }
{
    let mut corners = [0; 128];
    corners.copy_from_slice(&words[1..FRONTIER_WORDS]);
    Frontier {
        count: words[0],
        corners,
    }
}

// An extract's words at the front of a slice; its verdict is 0 all kept, 1 all shipped, 2 mixed.
fn write_extracted(out: &mut [u64], found: Extracted)
    requires { 130 ≤ length out.old }
    ensures { out.new ≡ over (answer_words found) out.old }
{
    out[0] = found.verdict as u64;
    out[1] = found.frontier.count;
    out[2..EXTRACT_WORDS].copy_from_slice(&found.frontier.corners);
}

// The open records of a chunk kept and the others shipped; the answer is the verdict and the kept times' frontier.
pub fn rl_extract(
    words: &[u64],
    upper: &[u64],
    answer: &mut [u64],
    kept: &mut [u64],
    shipped: &mut [u64],
) -> u64
    ensures { ExtractAnswers words.now upper.now answer.old kept.old shipped.old result answer.new kept.new shipped.new }
{
    if upper.len() < FRONTIER_WORDS {
        return SHORT;
    }
    if answer.len() < EXTRACT_WORDS {
        return SHORT;
    }
    let frontier = read_frontier(upper);
    match retain::extract(words, frontier, kept, shipped) {
        Ok(found) => {
            write_extracted(answer, found);
            0
        }
        Err(refusal) => refusal.number(),
    }
}

// A report's three words from an index on.
fn write_report(out: &mut [u64], at: usize, report: Report)
    requires { at + 3 ≤ length out.old }
    ensures { out.new ≡ take at out.old ++ (report.kind ∷ report.low ∷ report.high ∷ drop (at + 3) out.old) }
{
    out[at..at + REPORT_WORDS].copy_from_slice(&[report.kind, report.low, report.high]);
}

// All reports of two chunks' keys, `count` of them, at the front of a slice.
fn write_reports(a: &[u64], b: &[u64], count: usize, out: &mut [u64])
    requires { (count ≡ length (reports (keys_of a.now) (keys_of b.now))) × (3 * count ≤ length out.old) }
    ensures { out.new ≡ over (report_words (reports (keys_of a.now) (keys_of b.now))) out.old }
{
    let mut spot = Spot { i: 0, j: 0 };
    for at in 0..count {
        let next = survey::next_report(a, b, spot).unwrap();
        write_report(out, REPORT_WORDS * at, next.report);
        spot = next.spot;
    }
}

// The survey of two chunks' keys: three words to a report in the lent words, and their number in the answer.
pub fn rl_survey(a: &[u64], b: &[u64], lent: &mut [u64], answer: &mut [u64]) -> u64
    ensures { SurveyAnswers a.now b.now lent.old answer.old result lent.new answer.new }
{
    if answer.len() < SURVEY_WORDS {
        return SHORT;
    }
    match survey::plan(a, b, lent.len() / REPORT_WORDS) {
        Ok(count) => {
            write_reports(a, b, count, lent);
            answer[0] = count as u64;
            0
        }
        Err(refusal) => refusal.number(),
    }
}

// A survivor's words at the front of a slice: 0 nobody, 1 the first, 2 the second, and its cursor.
fn write_survivor(out: &mut [u64], survivor: Survivor)
    requires { 4 ≤ length out.old }
    ensures { out.new ≡ over (survivor_words survivor) out.old }
{
    match survivor {
        Survivor::Nobody => write_front(out, &[0; MERGE_WORDS]),
        Survivor::First(c) => write_front(out, &[1, c.k as u64, c.v as u64, c.t as u64]),
        Survivor::Second(c) => write_front(out, &[2, c.k as u64, c.v as u64, c.t as u64]),
    }
}

// A merge's number, and its survivor's words where that is 0.
fn say_merged(merged: Result<Survivor, Refusal>, answer: &mut [u64]) -> u64
    requires { 4 ≤ length answer.old }
    ensures { Said (joined_of merged) answer.old result answer.new }
{
    match merged {
        Ok(survivor) => {
            write_survivor(answer, survivor);
            0
        }
        Err(refusal) => refusal.number(),
    }
}

// Two chunks merged up to the smaller of their last positions; the answer is the survivor and its cursor.
pub fn rl_merge_pair(
    words0: &[u64],
    words1: &[u64],
    scratch: &mut [u64],
    out: &mut [u64],
    answer: &mut [u64],
) -> u64
    ensures { PairAnswers words0.now words1.now scratch.old out.old answer.old result answer.new out.new scratch.new }
{
    if answer.len() < MERGE_WORDS {
        return SHORT;
    }
    say_merged(merge::merge_pair(words0, words1, scratch, out), answer)
}

// The whole merge: into `out`, that without the times that have no diff into `clean`, and the survivor's suffix into `rest`.
pub fn rl_merge_whole(
    words0: &[u64],
    words1: &[u64],
    scratch: &mut [u64],
    out: &mut [u64],
    clean: &mut [u64],
    rest: &mut [u64],
    answer: &mut [u64],
) -> u64
    ensures { AllAnswers words0.now words1.now scratch.old out.old clean.old rest.old answer.old result answer.new out.new clean.new rest.new scratch.new }
{
    if answer.len() < MERGE_WORDS {
        return SHORT;
    }
    let merged = whole::merge_whole(words0, words1, scratch, out, clean, rest);
    say_merged(merged, answer)
}
