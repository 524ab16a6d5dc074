// Which times stay, and how many values and keys have one with a diff.
ghost use Rattle.std.specs.Prelude.{◌≡◌, true, ◌-◌, ◌≤◌, length};
ghost use Rattle.retain.specs.Keep.{all_times, keeps, ListsOf};
ghost use Rattle.retain.specs.Layers.{bit, has_diff, EndsStep, ListsLeft};
ghost use Rattle.laws.specs.Picked.{count_kept, list_kept, RisesTo};
ghost use Rattle.chunk.specs.Words.{well_formed};
ghost use Rattle.chunk.specs.Contents.{start_of};

use crate::{Keep, Lists};
use chunk::Chunk;

impl<'a> Keep<'a> {
    // 1 where a time that has a diff stays, else 0.
    pub(crate) fn bit(self, time: u64) -> usize
        ensures { result ≡ bit (keeps self.entry time) }
    {
        // Kept: a match of three arms; a closure would make Source and the four functions that take it generic, and each contract say what it computes.
        match self {
            Keep::All => 1,
            Keep::Open(corners) => corners.open_bit(time),
            Keep::Shut(corners) => 1 - corners.open_bit(time),
        }
    }
}

// How many of the values from one index to another have a time with a diff, which is where more diffs end than before. So many end before the first.
// Kept: that ends rise to their count is a clause of the four functions that count lists, of two layers' ends; a type for it would hold one slice and nothing else.
#[tactic(auto, using(crate::proofs::Parting::end_within, crate::proofs::Stairs::byte_one))]
fn count_values(
    diff_ends: &[u64],
    time_ends: &[u64],
    from: usize,
    to: usize,
    before: usize,
) -> usize
    requires ends_step { EndsStep diff_ends.now × RisesTo time_ends.now (length diff_ends.now) }
    requires to_in_bounds { (to ≤ length time_ends.now) × (before ≡ start_of diff_ends.now (start_of time_ends.now from)) }
    ensures { result ≡ count_kept (list_kept (has_diff diff_ends.now) time_ends.now) from (to - from) }
{
    let mut count = 0;
    let mut below = before;
    for i in from..to {
        let end = time_ends[i] as usize;
        let reach = diff_ends[end - 1] as usize;
        count += (below < reach) as usize;
        below = reach;
    }
    count
}

// How many keys have a value with a diff, and how many values do.
#[tactic(auto, using(crate::proofs::Parting::end_within, crate::proofs::Stairs::byte_one))]
fn count_lists(diff_ends: &[u64], time_ends: &[u64], val_ends: &[u64]) -> Lists
    requires { EndsStep diff_ends.now × (RisesTo time_ends.now (length diff_ends.now) × RisesTo val_ends.now (length time_ends.now)) }
    ensures { ListsLeft (list_kept (has_diff diff_ends.now) time_ends.now) val_ends.now result.keys result.vals }
{
    let mut keys = 0;
    let mut vals = 0;
    let mut lower = 0;
    let mut below = 0;
    for upper in val_ends {
        let upper = *upper as usize;
        let left = count_values(diff_ends, time_ends, lower, upper, below);
        keys += (0 < left) as usize;
        vals += left;
        let end = time_ends[upper - 1] as usize;
        below = diff_ends[end - 1] as usize;
        lower = upper;
    }
    Lists { keys, vals }
}

// The same of a chunk.
pub(crate) fn lists_of(chunk: Chunk) -> Lists
    requires { well_formed chunk.words.now ≡ true }
    ensures { ListsOf all_times chunk.entry.words.now result.keys result.vals }
{
    count_lists(chunk.diff_ends(), chunk.time_ends(), chunk.val_ends())
}
