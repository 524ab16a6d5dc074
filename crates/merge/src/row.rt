ghost use Rattle.std.specs.Prelude.{◌≡◌, ◌+◌, ◌*◌, ◌<◌, ◌≤◌, length, take, drop};

use crate::report::Report;

// Reports that stand one after another in scratch: `count` of them, from `from` on.
// Kept: a place and a count, since the reports of a layer are found by their place in scratch, where the next layer's begin.
#[derive(Clone, Copy)]
pub(crate) struct Row<'a> {
    pub(crate) words: &'a [u64],
    pub(crate) from: usize,
    pub(crate) count: usize,
    ghost stands: { from + 3 * count ≤ length words.now },
}

impl<'a> Row<'a> {
    ghost use Rattle.reports.specs.Write.{first_low};
    ghost use Rattle.merge.specs.Rows.{reports_of};

    // The first `size` of them.
    pub(crate) fn front(self, size: usize) -> Row<'a>
        requires { size ≤ self.count }
        ensures { reports_of result ≡ take size (reports_of self.entry) }
    {
        Row {
            words: self.words,
            from: self.from,
            count: size,
        }
    }

    // Those past the first `size`.
    pub(crate) fn past(self, size: usize) -> Row<'a>
        requires { size ≤ self.count }
        ensures { reports_of result ≡ drop size (reports_of self.entry) }
    {
        Row {
            words: self.words,
            from: self.from + 3 * size,
            count: self.count - size,
        }
    }

    // Where the range of the first starts.
    pub(crate) fn low(self) -> usize
        requires { 0 < self.count }
        ensures { result ≡ first_low (reports_of self.entry) }
    {
        Report::read(self.words, self.from).low
    }
}

impl<'a> Iterator for Row<'a> {
    ghost use Rattle.std.specs.Iterator.{YieldsFirstBy, item_count};
    ghost use Rattle.merge.specs.Said.{said};
    ghost use Rattle.merge.specs.Rows.{reports_of};

    type Item = Report;

    ghost next_gives = { YieldsFirstBy said reports_of };

    ghost remaining = { item_count reports_of };

    #[inline(always)]
    fn next(&mut self) -> Option<Report> {
        if self.count == 0 {
            return None;
        }
        let report = Report::read(self.words, self.from);
        self.from += 3;
        self.count -= 1;
        Some(report)
    }
}
