// What an extract leaves on either side, counted in one look over the times: of a settled chunk a time that isn't open is shut.
ghost use Rattle.std.specs.Prelude.{◌≡◌, ◌-◌, ◌≤◌, length, true};
ghost use Rattle.retain.specs.Frontier.{is_open};
ghost use Rattle.chunk.specs.Words.{well_formed, settled};
ghost use Rattle.retain.specs.Keep.{is_shut, time_passes, ListsOf};
ghost use Rattle.laws.specs.Picked.{count_kept, list_kept, RisesTo};
ghost use Rattle.retain.specs.Layers.{ListsLeft};
ghost use Rattle.chunk.specs.Contents.{start_of};

use crate::corners::Corners;
use crate::{Both, Lists};
use chunk::Chunk;

// How many values have an open time, and how many one that isn't.
// Kept: beside `Both`, which has two lists where this has two counts; one with a type parameter is no plainer.
#[derive(Clone, Copy)]
struct Values {
    open: usize,
    shut: usize,
}

// How many of the values from one index to another have an open time, and how many one that isn't. The times of the first start at `at`.
#[tactic(auto, using(crate::proofs::Parting::end_within, crate::proofs::Stairs::byte_one))]
fn both_values(
    times: &[u64],
    corners: Corners,
    time_ends: &[u64],
    from: usize,
    to: usize,
    at: usize,
) -> Values
    requires { RisesTo time_ends.now (length times.now) × ((to ≤ length time_ends.now) × (at ≡ start_of time_ends.now from)) }
    ensures open_values { result.open ≡ count_kept (list_kept (time_passes (is_open corners.entry.times.now) times.now) time_ends.now) from (to - from) }
    ensures shut_values { result.shut ≡ count_kept (list_kept (time_passes (is_shut corners.entry.times.now) times.now) time_ends.now) from (to - from) }
{
    let mut open = 0;
    let mut shut = 0;
    let mut lower = at;
    for i in from..to {
        let upper = time_ends[i] as usize;
        let number = corners.count_open(&times[lower..upper]);
        open += (0 < number) as usize;
        shut += (number < upper - lower) as usize;
        lower = upper;
    }
    Values { open, shut }
}

// How many keys and values are left with an open time, and how many with one that isn't.
// Kept: it counts two ways in one look, where `count_lists` of stay.rt counts one way by the ends alone; in one function a filter would count twice.
#[tactic(auto, using(crate::proofs::Parting::end_within, crate::proofs::Stairs::byte_one))]
fn count_both(times: &[u64], corners: Corners, time_ends: &[u64], val_ends: &[u64]) -> Both
    requires { RisesTo time_ends.now (length times.now) × RisesTo val_ends.now (length time_ends.now) }
    ensures open_lists { ListsLeft (list_kept (time_passes (is_open corners.entry.times.now) times.now) time_ends.now) val_ends.now result.open.keys result.open.vals }
    ensures shut_lists { ListsLeft (list_kept (time_passes (is_shut corners.entry.times.now) times.now) time_ends.now) val_ends.now result.shut.keys result.shut.vals }
{
    let mut open = Lists { keys: 0, vals: 0 };
    let mut shut = Lists { keys: 0, vals: 0 };
    let mut lower = 0;
    let mut at = 0;
    for upper in val_ends {
        let upper = *upper as usize;
        let left = both_values(times, corners, time_ends, lower, upper, at);
        open.keys += (0 < left.open) as usize;
        open.vals += left.open;
        shut.keys += (0 < left.shut) as usize;
        shut.vals += left.shut;
        at = time_ends[upper - 1] as usize;
        lower = upper;
    }
    Both { open, shut }
}

// The same of a settled chunk.
pub(crate) fn both_of(chunk: Chunk, corners: Corners) -> Both
    requires { (well_formed chunk.words.now ≡ true) × (settled chunk.words.now ≡ true) }
    ensures open_lists { ListsOf (is_open corners.entry.times.now) chunk.entry.words.now result.open.keys result.open.vals }
    ensures shut_lists { ListsOf (is_shut corners.entry.times.now) chunk.entry.words.now result.shut.keys result.shut.vals }
{
    count_both(chunk.times(), corners, chunk.time_ends(), chunk.val_ends())
}
