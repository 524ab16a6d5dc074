// Words with a contents table at their front that fits them, and the bodies of these words by name.
ghost use Rattle.std.specs.Prelude.{◌≡◌, take};
ghost use Rattle.chunk.specs.Words.{size, key_body, val_end_body, val_body, time_end_body, time_body, diff_end_body, diff_body};
ghost use Rattle.chunk.specs.Contents.{Placed};

use crate::Contents;

// Lent words, and what the table at their front says, which fits them.
#[derive(Clone, Copy)]
pub struct Chunk<'a> {
    pub words: &'a [u64],
    pub contents: Contents,
    pub ghost placed: { Placed contents words.now },
}

impl<'a> Chunk<'a> {
    // The keys.
    pub fn keys(self) -> &'a [u64]
        ensures { result.now ≡ key_body self.entry.words.now }
    {
        &self.words[self.contents.keys_at..self.contents.val_ends_at]
    }

    // The ends of the keys' lists of values.
    pub fn val_ends(self) -> &'a [u64]
        ensures { result.now ≡ val_end_body self.entry.words.now }
    {
        &self.words[self.contents.val_ends_at..self.contents.vals_at]
    }

    // The values.
    pub fn vals(self) -> &'a [u64]
        ensures { result.now ≡ val_body self.entry.words.now }
    {
        &self.words[self.contents.vals_at..self.contents.time_ends_at]
    }

    // The ends of the values' lists of times.
    pub fn time_ends(self) -> &'a [u64]
        ensures { result.now ≡ time_end_body self.entry.words.now }
    {
        &self.words[self.contents.time_ends_at..self.contents.times_at]
    }

    // The times.
    pub fn times(self) -> &'a [u64]
        ensures { result.now ≡ time_body self.entry.words.now }
    {
        &self.words[self.contents.times_at..self.contents.diff_ends_at]
    }

    // The ends of the times' lists of diffs.
    pub fn diff_ends(self) -> &'a [u64]
        ensures { result.now ≡ diff_end_body self.entry.words.now }
    {
        &self.words[self.contents.diff_ends_at..self.contents.diffs_at]
    }

    // The diffs.
    pub fn diffs(self) -> &'a [u64]
        ensures { result.now ≡ diff_body self.entry.words.now }
    {
        &self.words[self.contents.diffs_at..self.contents.size]
    }

    // The chunk's own words, without those past its size.
    pub fn whole(self) -> &'a [u64]
        ensures { result.now ≡ take (size self.entry.words.now) self.entry.words.now }
    {
        &self.words[..self.contents.size]
    }
}
