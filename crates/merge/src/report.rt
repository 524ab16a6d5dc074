ghost use Rattle.std.specs.Prelude.{◌≡◌, ◌+◌, ◌≤◌, length};
ghost use Rattle.reports.specs.Scratch.{placed, report_at, words_of};
ghost use Rattle.reports.specs.Write.{Rising, width};
ghost use Rattle.reports.specs.Survey.{this, that, both};
ghost use Rattle.merge.specs.Said.{said};

// What a report names: a run of the first input, a run of the second, an item of both.
// Kept: beside the kind and report of `survey`, whose report is document 01's public record of three 64-bit words; these go by indices, and stand in scratch.
#[derive(Clone, Copy, PartialEq, Eq)]
pub(crate) enum Kind {
    This,
    That,
    Both,
}

// A report of a survey: a run from `low` to `high`, which is excluded; or a shared item's index in each input.
#[derive(Clone, Copy)]
pub(crate) struct Report {
    pub(crate) kind: Kind,
    pub(crate) low: usize,
    pub(crate) high: usize,
}

impl Report {
    // Kept: three names, for the three of the definitions `this`, `that` and `both` that they make.
    // A run of the first input.
    pub(crate) fn this(low: usize, high: usize) -> Report
        ensures { said result ≡ this low high }
    {
        Report {
            kind: Kind::This,
            low,
            high,
        }
    }

    // A run of the second input.
    pub(crate) fn that(low: usize, high: usize) -> Report
        ensures { said result ≡ that low high }
    {
        Report {
            kind: Kind::That,
            low,
            high,
        }
    }

    // An item of both, by its index in each.
    pub(crate) fn both(low: usize, high: usize) -> Report
        ensures { said result ≡ both low high }
    {
        Report {
            kind: Kind::Both,
            low,
            high,
        }
    }

    // Kept: read and written by hand, since any word is read as a kind, where TryFrom would refuse what scratch never holds.
    // The report that stands at `at`.
    pub(crate) fn read(scratch: &[u64], at: usize) -> Report
        requires { at + 3 ≤ length scratch.now }
        ensures { said result ≡ report_at scratch.now at }
    {
        let kind = match scratch[at] {
            0 => Kind::This,
            1 => Kind::That,
            _ => Kind::Both,
        };
        let low = scratch[at + 1] as usize;
        let high = scratch[at + 2] as usize;
        Report { kind, low, high }
    }

    // Writes the report at `at`.
    pub(crate) fn write(self, scratch: &mut [u64], at: usize)
        requires { at + 3 ≤ length scratch.old }
        ensures { scratch.new ≡ placed at (words_of (said self)) scratch.old }
    {
        let kind = match self.kind {
            Kind::This => 0,
            Kind::That => 1,
            Kind::Both => 2,
        };
        scratch[at] = kind;
        scratch[at + 1] = self.low as u64;
        scratch[at + 2] = self.high as u64;
    }

    // How many items it names.
    pub(crate) fn width(self) -> usize
        requires { Rising (said self) }
        ensures { result ≡ width (said self) }
    {
        match self.kind {
            Kind::Both => 1,
            _ => self.high - self.low,
        }
    }
}
