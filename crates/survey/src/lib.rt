// The survey of two chunks' keys, one report at a time.
#![tactic(auto)]

ghost use Rattle.std.specs.Prelude.{◌≡◌, ◌+◌, ◌^◌, ◌<◌, ◌≤◌, length};
ghost use Rattle.reports.specs.Gallop.{run_end};
ghost use Rattle.reports.specs.Survey.{reports, this, that, both};
ghost use Rattle.survey.specs.Reports.{next_by, next_in, keys_of, next_of, surveyed_of, filled_of, listed_of};

use chunk::{Chunk, Refusal};

// What a report is of: a run of the first input's keys, a run of the second's, or a key that both have.
#[derive(Clone, Copy, Debug, PartialEq, Eq)]
pub enum Kind {
    This = 0,
    That = 1,
    Both = 2,
}

// A report: a run goes from `low` up to `high`; a shared key is at `low` in the first input and at `high` in the second. Its kind is a `Kind`'s number.
// Kept: the kind is a word, since a caller may lend records of any kind, and those past the last report stay as they were.
#[derive(Clone, Copy, Debug, PartialEq, Eq)]
pub struct Report {
    pub kind: u64,
    pub low: u64,
    pub high: u64,
}

// How far a survey has come in each input.
#[derive(Clone, Copy, Debug, PartialEq, Eq)]
pub struct Spot {
    pub i: usize,
    pub j: usize,
}

// The reports of a spot, each with where both inputs stand past it.
// Kept: the two runs differ in the input whose index is read and moved; one function that is told the side is no plainer.
impl Spot {
    // The run of the first input's keys up to `end`.
    fn this(self, end: usize) -> Next
        ensures { result ≡ next_by self.i self.j (this self.i end) }
    {
        Next {
            report: Report {
                kind: Kind::This as u64,
                low: self.i as u64,
                high: end as u64,
            },
            spot: Spot { i: end, ..self },
        }
    }

    // The run of the second input's keys up to `end`.
    fn that(self, end: usize) -> Next
        ensures { result ≡ next_by self.i self.j (that self.j end) }
    {
        Next {
            report: Report {
                kind: Kind::That as u64,
                low: self.j as u64,
                high: end as u64,
            },
            spot: Spot { j: end, ..self },
        }
    }

    // The key that both inputs have here.
    fn both(self) -> Next
        requires { (self.i + 1 < 2 ^ 64) × (self.j + 1 < 2 ^ 64) }
        ensures { result ≡ next_by self.i self.j (both self.i self.j) }
    {
        Next {
            report: Report {
                kind: Kind::Both as u64,
                low: self.i as u64,
                high: self.j as u64,
            },
            spot: Spot {
                i: self.i + 1,
                j: self.j + 1,
            },
        }
    }
}

// A report, and where both inputs stand past it.
#[derive(Clone, Copy, Debug, PartialEq, Eq)]
pub struct Next {
    pub report: Report,
    pub spot: Spot,
}

// The keys of a chunk, and none of words whose table doesn't fit.
fn keys(words: &[u64]) -> &[u64]
    ensures { result.now ≡ keys_of words.now }
{
    match chunk::read_contents(words) {
        Some(contents) => Chunk { words, contents }.keys(),
        None => &[],
    }
}

// Where the keys below `target` end, from `from` on.
// Kept: one after another, since on any words the keys may not rise, and a search by halves would end elsewhere.
fn run_end(keys: &[u64], from: usize, target: u64) -> usize
    requires { from ≤ length keys.now }
    ensures { result ≡ run_end keys.now from (length keys.now) target }
{
    for at in from..keys.len() {
        if target <= keys[at] {
            return at;
        }
    }
    keys.len()
}

// The report of two lists of keys from an index of each on, if anything is left of either.
// Kept: beside merge's survey, which gallops over settled chunks into scratch; this one gives one report at a time, of any words.
#[tactic(auto, using(crate::proofs::Nexts::next_none, crate::proofs::Nexts::next_that_left, crate::proofs::Nexts::next_this_left, crate::proofs::Nexts::next_both, crate::proofs::Nexts::next_this, crate::proofs::Nexts::next_that))]
fn next_in(xs: &[u64], ys: &[u64], spot: Spot) -> Option<Next>
    ensures { result ≡ next_in xs.now ys.now spot.i spot.j }
{
    match (xs.get(spot.i), ys.get(spot.j)) {
        (Some(x), Some(y)) if x == y => Some(spot.both()),
        (Some(x), Some(y)) if x < y => Some(spot.this(run_end(xs, spot.i, *y))),
        (Some(x), Some(_)) => Some(spot.that(run_end(ys, spot.j, *x))),
        (Some(_), None) => Some(spot.this(xs.len())),
        (None, Some(_)) => Some(spot.that(ys.len())),
        (None, None) => None,
    }
}

// The next report of two chunks from a spot on, on any words and any spot; none where nothing is left.
pub fn next_report(a: &[u64], b: &[u64], spot: Spot) -> Option<Next>
    ensures { result ≡ next_of a.now b.now spot }
{
    next_in(keys(a), keys(b), spot)
}

// How many reports two lists of keys have.
// Kept: a loop, since an iterator of reports would hold both inputs and the spot for the sake of this count.
fn count_reports(xs: &[u64], ys: &[u64]) -> usize
    ensures { result ≡ length (reports xs.now ys.now) }
{
    let mut at = Spot { i: 0, j: 0 };
    let mut count = 0;
    while let Some(next) = next_in(xs, ys, at) {
        at = next.spot;
        count += 1;
    }
    count
}

// What a survey answers with room for `lent` reports: how many there are, or 5, 6 or 7 for the first input or the second, or 12.
pub fn plan(a: &[u64], b: &[u64], lent: usize) -> Result<usize, Refusal>
    ensures { result ≡ surveyed_of a.now b.now lent }
{
    let first = chunk::filled(a)?;
    let second = chunk::filled(b)?;
    let xs = first.keys();
    let ys = second.keys();
    if lent < xs.len() + ys.len() {
        return Err(Refusal::ScratchShort);
    }
    Ok(count_reports(xs, ys))
}

// The survey of two chunks' keys: the reports stand in the lent records in order, and the records past the last are as they were.
pub fn survey(a: &[u64], b: &[u64], reports: &mut [Report]) -> Result<usize, Refusal>
    ensures { (result ≡ surveyed_of a.now b.now (length reports.old)) × (reports.new ≡ filled_of a.now b.now reports.old) }
{
    let count = plan(a, b, reports.len())?;
    let xs = keys(a);
    let ys = keys(b);
    let mut spot = Spot { i: 0, j: 0 };
    for report in &mut reports[..count] {
        let next = next_in(xs, ys, spot).unwrap();
        *report = next.report;
        spot = next.spot;
    }
    Ok(count)
}

// What a survey answers, and the sixteen records that it filled.
#[derive(Clone, Copy)]
pub struct Listed {
    pub answer: Result<usize, Refusal>,
    pub reports: [Report; 16],
}

// The survey into sixteen records of its own, handed back by value: those past the last report read zero.
pub fn survey_listed(a: &[u64], b: &[u64]) -> Listed
    ensures { result ≡ listed_of a.now b.now }
{
    let mut held = [Report {
        kind: Kind::This as u64,
        low: 0,
        high: 0,
    }; 16];
    let answer = survey(a, b, &mut held);
    Listed {
        answer,
        reports: held,
    }
}
