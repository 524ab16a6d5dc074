ghost use Rattle.std.specs.Prelude.{◌≡◌, ◌+◌, ◌-◌, ◌≤◌, true, [], ◌∷◌, ◌++◌, length, take, drop};
ghost use Rattle.chunk.specs.Sums.{plus};
ghost use Rattle.chunk.specs.Words.{limit, rises};
ghost use Rattle.meld.specs.Copy.{shifted_all};
ghost use Rattle.reports.specs.Scratch.{placed};
ghost use Rattle.reports.specs.Write.{Room, RunRoom, RunsRoom, named, items_by, width, widths, starts_in, inside_from, group_size, Serves, low_of, wrapped, list_ends, ends_by, Rising, Counting, ListRoom, EndsRoom, InRow, diff_of, diffs_by, diff_ends_by, DiffsRoom, layer_by};
ghost use Rattle.merge.specs.Said.{of_kind, said};
ghost use Rattle.merge.specs.Rows.{reports_of};

use crate::report::{Kind, Report};
use crate::row::Row;

// One body of each input.
#[derive(Clone, Copy)]
pub(crate) struct Bodies<'a> {
    pub(crate) first: &'a [u64],
    pub(crate) second: &'a [u64],
}

impl<'a> Bodies<'a> {
    // That of the input that a run is of.
    fn of(self, kind: Kind) -> &'a [u64]
        ensures { result.now ≡ of_kind kind self.entry.first.now self.entry.second.now }
    {
        match kind {
            Kind::That => self.second,
            _ => self.first,
        }
    }
}

// Copies items into the output from `at` on, and answers the place past them.
// Kept: the output and the place go on by themselves in these writers; one struct would need a clause in each that the words before the place stay.
fn put_items(out: &mut [u64], at: usize, items: &[u64]) -> usize
    requires { at + length items.now ≤ length out.old }
    ensures value { result ≡ at + length items.now }
    ensures out_after { out.new ≡ placed at items.now out.old }
{
    let end = at + items.len();
    meld::copy_into(&mut out[at..end], items);
    end
}

// Fewer ends than this are copied also where they follow one another.
const MANY: usize = 16;

// Whether ends are many that follow one another, by the first and the last of them.
// Kept: that the ends rise is a clause of the three functions that copy ends; a type for it would hold one slice and nothing else.
fn in_row(ends: &[u64]) -> bool
    requires { rises ends.now ≡ true }
    ensures { result ≡ true → InRow ends.now }
{
    if ends.len() < MANY {
        return false;
    }
    let last = ends.len() - 1;
    ends[last] - ends[0] == last as u64
}

// Writes ends into the output from `at` on, each with `by` added; ends that follow one another aren't read.
fn put_ends(out: &mut [u64], at: usize, ends: &[u64], by: u64)
    requires room { at + length ends.now ≤ length out.old }
    requires ends_value { rises ends.now ≡ true }
    ensures { out.new ≡ placed at (shifted_all by ends.now) out.old }
{
    let end = at + ends.len();
    if in_row(ends) {
        meld::count_on(&mut out[at..end], ends[0].wrapping_add(by));
        return;
    }
    meld::copy_shifted(&mut out[at..end], ends, by);
}

// Writes the items that a report names, and answers the place past them.
fn write_run(bodies: Bodies, report: Report, out: &mut [u64], at: usize) -> usize
    requires { RunRoom (length bodies.first.now) (length bodies.second.now) (said report) at (length out.old) }
    ensures value { result ≡ at + width (said report) }
    ensures out_after { out.new ≡ placed at (named bodies.entry.first.now bodies.entry.second.now (said report)) out.old }
{
    match report.kind {
        Kind::Both => {
            out[at] = bodies.first[report.low];
            at + 1
        }
        _ => put_items(out, at, &bodies.of(report.kind)[report.low..report.high]),
    }
}

// Writes the items that the reports of a row name, one after another.
pub(crate) fn write_items(bodies: Bodies, row: Row, out: &mut [u64], at: usize)
    requires { RunsRoom (length bodies.first.now) (length bodies.second.now) (reports_of row) at (length out.old) }
    ensures { out.new ≡ placed at (items_by bodies.entry.first.now bodies.entry.second.now (reports_of row.entry)) out.old }
{
    let mut end = at;
    for report in row {
        end = write_run(bodies, report, out, end);
    }
}

// The items so far, and those that the reports of a row name.
pub(crate) fn count_items(row: Row, base: usize) -> usize
    requires { Counting (reports_of row) base }
    ensures { result ≡ base + widths (reports_of row.entry) }
{
    let mut total = base;
    for report in row {
        total += report.width();
    }
    total
}

// Whether a report starts short of the ends of two lists.
fn starts_in(report: Report, end0: usize, end1: usize) -> bool
    ensures { result ≡ starts_in end0 end1 (said report) }
{
    match report.kind {
        Kind::That => report.low < end1,
        _ => report.low < end0,
    }
}

// How many reports of a row, from its first on, lie in two lists.
// Kept: it stops with the report that it has at hand; `take_while` and `count` read no less, and need the test's contract at a closure.
fn inside(row: Row, end0: usize, end1: usize) -> usize
    ensures { result ≡ length (inside_from end0 end1 (reports_of row.entry)) }
{
    let mut size = 0;
    for report in row {
        if !starts_in(report, end0, end1) {
            return size;
        }
        size += 1;
    }
    size
}

// How many reports of items, from the first of a row on, lie under a report of lists.
fn group_size(ends: Bodies, list: Report, items: Row) -> usize
    requires { Serves (length ends.first.now) (length ends.second.now) (said list) }
    ensures { result ≡ group_size ends.entry.first.now ends.entry.second.now (said list) (reports_of items.entry) }
{
    match list.kind {
        Kind::Both => inside(
            items,
            ends.first[list.low] as usize,
            ends.second[list.high] as usize,
        ),
        _ => 1,
    }
}

// Writes the ends of the lists from `low` to `high`, and answers the place past them: `by` is added to each but the last, which is `next`.
fn put_lists(
    out: &mut [u64],
    at: usize,
    ends: &[u64],
    low: usize,
    high: usize,
    by: u64,
    next: usize,
) -> usize
    requires room { Room low (high - 1) at (length ends.now) (length out.old - 1) }
    requires le_high { (1 ≤ high) × (1 ≤ length out.old) }
    requires ends_value { rises ends.now ≡ true }
    ensures value { result ≡ at + (high - low) }
    ensures out_after { out.new ≡ placed at (shifted_all by (take (high - 1 - low) (drop low ends.now)) ++ (next ∷ [])) out.old }
{
    let last = high - 1;
    put_ends(out, at, &ends[low..last], by);
    let end = at + (last - low);
    out[end] = next as u64;
    end + 1
}

// Writes the ends of the lists of a report, whose items start at `start`, and answers the place past them.
#[inline(always)]
fn write_list(
    ends: Bodies,
    list: Report,
    start: usize,
    base: usize,
    next: usize,
    out: &mut [u64],
    at: usize,
) -> usize
    requires { ListRoom ends.first.now ends.second.now (said list) base next at (length out.old) }
    ensures value { result ≡ at + width (said list) }
    ensures out_after { out.new ≡ placed at (list_ends ends.entry.first.now ends.entry.second.now (said list) start base next) out.old }
{
    let by = (base as u64).wrapping_sub(start as u64);
    match list.kind {
        Kind::Both => {
            out[at] = next as u64;
            at + 1
        }
        _ => put_lists(out, at, ends.of(list.kind), list.low, list.high, by, next),
    }
}

// Writes the ends of the lists that the reports of one row name, by the reports of their items, which are those of another.
fn write_ends(ends: Bodies, lists: Row, items: Row, out: &mut [u64], start: usize)
    requires { EndsRoom ends.first.now ends.second.now (reports_of lists) (reports_of items) 0 start (length out.old) }
    ensures { out.new ≡ placed start (ends_by ends.entry.first.now ends.entry.second.now 0 (reports_of lists.entry) (reports_of items.entry)) out.old }
{
    let mut left = items;
    let mut base = 0;
    let mut at = start;
    for list in lists {
        let size = group_size(ends, list, left);
        let next = count_items(left.front(size), base);
        at = write_list(ends, list, left.low(), base, next, out, at);
        base = next;
        left = left.past(size);
    }
}

// The sum of two diffs, as signed numbers of 64 bits.
fn sum(x: u64, y: u64) -> u64
    ensures { result ≡ plus x y }
{
    x.wrapping_add(y)
}

// Writes the diffs that a report names, a sum only where it isn't 0, and answers the place past them.
fn write_diff(diffs: Bodies, report: Report, out: &mut [u64], at: usize) -> usize
    requires { RunRoom (length diffs.first.now) (length diffs.second.now) (said report) at (length out.old) }
    ensures value { result ≡ at + length (diff_of diffs.entry.first.now diffs.entry.second.now (said report)) }
    ensures out_after { out.new ≡ placed at (diff_of diffs.entry.first.now diffs.entry.second.now (said report)) out.old }
{
    if report.kind != Kind::Both {
        return write_run(diffs, report, out, at);
    }
    let change = sum(diffs.first[report.low], diffs.second[report.high]);
    if change == 0 {
        return at;
    }
    out[at] = change;
    at + 1
}

// Writes the diffs that the reports of a row name, and answers the place past them.
// Kept: three lines like those of `write_items`: one loop for both would take a closure for each report, with its contract, and be longer than the two.
pub(crate) fn write_diffs(diffs: Bodies, row: Row, out: &mut [u64], at: usize) -> usize
    requires { RunsRoom (length diffs.first.now) (length diffs.second.now) (reports_of row) at (length out.old) }
    ensures value { result ≡ at + length (diffs_by diffs.entry.first.now diffs.entry.second.now (reports_of row.entry)) }
    ensures out_after { out.new ≡ placed at (diffs_by diffs.entry.first.now diffs.entry.second.now (reports_of row.entry)) out.old }
{
    let mut end = at;
    for report in row {
        end = write_diff(diffs, report, out, end);
    }
    end
}

// The diffs so far, and those that a report names.
fn count_diff(diffs: Bodies, report: Report, base: usize) -> usize
    requires { RunRoom (length diffs.first.now) (length diffs.second.now) (said report) base limit }
    ensures { result ≡ base + length (diff_of diffs.entry.first.now diffs.entry.second.now (said report)) }
{
    if report.kind != Kind::Both {
        return base + (report.high - report.low);
    }
    if sum(diffs.first[report.low], diffs.second[report.high]) == 0 {
        return base;
    }
    base + 1
}

// Writes an end for each time that the reports of a row name: how many diffs stand up to it.
pub(crate) fn write_diff_ends(ends: Bodies, diffs: Bodies, row: Row, out: &mut [u64], start: usize)
    requires { DiffsRoom ends.first.now ends.second.now diffs.first.now diffs.second.now (reports_of row) 0 start (length out.old) }
    ensures { out.new ≡ placed start (diff_ends_by ends.entry.first.now ends.entry.second.now diffs.entry.first.now diffs.entry.second.now 0 (reports_of row.entry)) out.old }
{
    let mut base = 0;
    let mut at = start;
    for report in row {
        let next = count_diff(diffs, report, base);
        at = write_list(ends, report, report.low, base, next, out, at);
        base = next;
    }
}

// Writes a layer: the ends of the lists that the reports of one row name at `edge`, and their items, which those of another name, at `body`.
pub(crate) fn write_layer(
    ends: Bodies,
    items: Bodies,
    lists: Row,
    row: Row,
    out: &mut [u64],
    edge: usize,
    body: usize,
)
    requires ends_room { EndsRoom ends.first.now ends.second.now (reports_of lists) (reports_of row) 0 edge (length out.old) }
    requires runs_room { RunsRoom (length items.first.now) (length items.second.now) (reports_of row) body (length out.old) }
    ensures { out.new ≡ layer_by ends.entry.first.now items.entry.first.now ends.entry.second.now items.entry.second.now (reports_of lists.entry) (reports_of row.entry) edge body out.old }
{
    write_ends(ends, lists, row, out, edge);
    write_items(items, row, out, body);
}
