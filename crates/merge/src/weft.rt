ghost use Rattle.std.specs.Prelude.{◌≡◌, ◌+◌, length};
ghost use Rattle.chunk.specs.Words.{entries, over, table_size};
ghost use Rattle.chunk.specs.Bodies.{chunk_of, diffs};
ghost use Rattle.chunk.specs.Contents.{layout_of};
ghost use Rattle.reports.specs.Write.{Counting, widths, entries_by};
ghost use Rattle.merge.specs.Weft.{Weft, Laid, named};
ghost use Rattle.merge.specs.Rows.{reports_of};
ghost use Rattle.reports.specs.Scratch.{placed};
ghost use Rattle.reports.specs.Whole.{places_for, upper_of, middle_of, lower_of};

use crate::row::Row;
use crate::write::Bodies;
use crate::{Spans, write};
use chunk::{Chunk, Contents};

// What a chunk is written from: two chunks, and the reports of each layer.
// Kept: the two inputs stand beside each other, as document 01 has them; a pair would be taken apart at each body.
#[derive(Clone, Copy)]
struct Weave<'a> {
    first: Chunk<'a>,
    second: Chunk<'a>,
    keys: Row<'a>,
    vals: Row<'a>,
    times: Row<'a>,
}

impl<'a> Weave<'a> {
    // Where the bodies of the output stand: a count for each layer, and as many diffs at most as times.
    fn places(self) -> Contents
        requires keys_count { Counting (reports_of self.keys) 0 }
        requires vals_count { Counting (reports_of self.vals) 0 }
        requires times_count { Counting (reports_of self.times) 0 }
        ensures { result ≡ layout_of (widths (reports_of self.entry.keys)) (widths (reports_of self.entry.vals)) (widths (reports_of self.entry.times)) (widths (reports_of self.entry.times)) }
    {
        let nk = write::count_items(self.keys, 0);
        let nv = write::count_items(self.vals, 0);
        let nt = write::count_items(self.times, 0);
        chunk::places(nk, nv, nt, nt)
    }

    // Writes the keys, and the values of each key.
    // Kept: what is laid also names the output's length, which a Weave doesn't hold, so it is a clause of the three writers.
    fn write_upper(self, out: &mut [u64], to: Contents)
        requires laid { Laid self.first.words.now self.first.contents self.second.words.now self.second.contents (reports_of self.keys) (reports_of self.vals) (reports_of self.times) (length out.old) }
        requires to_value { to ≡ places_for (entries_by (entries self.first.words.now) (entries self.second.words.now) (reports_of self.times)) }
        ensures { out.new ≡ placed table_size (upper_of (entries_by (entries self.entry.first.words.now) (entries self.entry.second.words.now) (reports_of self.entry.times))) out.old }
    {
        let keys = Bodies {
            first: self.first.keys(),
            second: self.second.keys(),
        };
        let ends = Bodies {
            first: self.first.val_ends(),
            second: self.second.val_ends(),
        };
        let vals = Bodies {
            first: self.first.vals(),
            second: self.second.vals(),
        };
        write::write_items(keys, self.keys, out, to.keys_at);
        write::write_layer(
            ends,
            vals,
            self.keys,
            self.vals,
            out,
            to.val_ends_at,
            to.vals_at,
        );
    }

    // Writes the times of each value.
    fn write_middle(self, out: &mut [u64], to: Contents)
        requires laid { Laid self.first.words.now self.first.contents self.second.words.now self.second.contents (reports_of self.keys) (reports_of self.vals) (reports_of self.times) (length out.old) }
        requires to_value { to ≡ places_for (entries_by (entries self.first.words.now) (entries self.second.words.now) (reports_of self.times)) }
        ensures { out.new ≡ placed to.time_ends_at (middle_of (entries_by (entries self.entry.first.words.now) (entries self.entry.second.words.now) (reports_of self.entry.times))) out.old }
    {
        let ends = Bodies {
            first: self.first.time_ends(),
            second: self.second.time_ends(),
        };
        let times = Bodies {
            first: self.first.times(),
            second: self.second.times(),
        };
        write::write_layer(
            ends,
            times,
            self.vals,
            self.times,
            out,
            to.time_ends_at,
            to.times_at,
        );
    }

    // Writes the diffs of each time, and answers the place past them.
    fn write_lower(self, out: &mut [u64], to: Contents) -> usize
        requires laid { Laid self.first.words.now self.first.contents self.second.words.now self.second.contents (reports_of self.keys) (reports_of self.vals) (reports_of self.times) (length out.old) }
        requires to_value { to ≡ places_for (entries_by (entries self.first.words.now) (entries self.second.words.now) (reports_of self.times)) }
        ensures value { result ≡ to.diffs_at + length (diffs (entries_by (entries self.entry.first.words.now) (entries self.entry.second.words.now) (reports_of self.entry.times))) }
        ensures out_after { out.new ≡ placed to.diff_ends_at (lower_of (entries_by (entries self.entry.first.words.now) (entries self.entry.second.words.now) (reports_of self.entry.times))) out.old }
    {
        let ends = Bodies {
            first: self.first.diff_ends(),
            second: self.second.diff_ends(),
        };
        let diffs = Bodies {
            first: self.first.diffs(),
            second: self.second.diffs(),
        };
        write::write_diff_ends(ends, diffs, self.times, out, to.diff_ends_at);
        write::write_diffs(diffs, self.times, out, to.diffs_at)
    }
}

// Writes the chunk of the entries that the reports of the times name, layer by layer.
pub(crate) fn write_from_surveys<'a>(
    first: Chunk<'a>,
    second: Chunk<'a>,
    scratch: &'a [u64],
    spans: Spans,
    out: &mut [u64],
)
    requires { Weft first.words.now first.contents second.words.now second.contents scratch.now spans (length out.old) }
    ensures { out.new ≡ over (chunk_of (named first.entry.words.now second.entry.words.now scratch.now spans)) out.old }
{
    let keys = Row {
        words: scratch,
        from: 0,
        count: spans.keys,
    };
    let vals = Row {
        words: scratch,
        from: spans.vals_at,
        count: spans.vals,
    };
    let times = Row {
        words: scratch,
        from: spans.times_at,
        count: spans.times,
    };
    let weave = Weave {
        first,
        second,
        keys,
        vals,
        times,
    };
    let to = weave.places();
    weave.write_upper(out, to);
    weave.write_middle(out, to);
    let end = weave.write_lower(out, to);
    chunk::write_table(out, to.nk, to.nv, to.nt, end - to.diffs_at);
}
