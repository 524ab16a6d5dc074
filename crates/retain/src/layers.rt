// What stays of a chunk's bodies, written in one walk over its lists: the times of a value, the values of a key, the keys. What is written of an
// item that goes is written over by the next that stays.
ghost use Rattle.std.specs.Prelude.{◌≡◌, ◌+◌, ◌≤◌, ◌<◌, length};
ghost use Rattle.retain.specs.Source.{LeavingOf, WovenOf, LeftOf, bodies_of};

use crate::source::Source;
use crate::{Lists, Reached};

// Writes the times of a range that stay, each with its diff, behind those that are written; so many are afterwards.
fn write_list(
    source: Source,
    from: usize,
    to: usize,
    done: usize,
    n: usize,
    out: &mut [u64],
) -> usize
    requires range { (from < to) × (to ≤ length source.times.now) }
    requires leaving { LeavingOf source n out.old done from }
    ensures { LeavingOf source.entry n out.new result to }
{
    let list = chunk::child_range(source.diff_ends, from);
    let mut lower = list.lower;
    let mut at = done;
    for i in from..to {
        if n <= at {
            return at;
        }
        let time = source.times[i];
        let upper = source.diff_ends[i] as usize;
        out[at] = time;
        out[n + n + at] = source.diffs[lower];
        let stays = source.keep.bit(time);
        at += (upper - lower) * stays;
        lower = upper;
    }
    at
}

// Writes the values of a range that stay, each with the end of its times, and behind them those times.
fn write_values(
    source: Source,
    from: usize,
    to: usize,
    reached: Reached,
    nv: usize,
    nt: usize,
    out: &mut [u64],
) -> Reached
    requires range { (from ≤ to) × (to ≤ length source.vals.now) }
    requires woven { WovenOf source nv nt out.old reached from }
    ensures { WovenOf source.entry nv nt out.new result to }
{
    let mut at = reached.vals;
    let mut start = reached.time;
    let mut total = reached.times;
    for i in from..to {
        let end = source.time_ends[i] as usize;
        let done = write_list(source, start, end, total, nt, &mut out[nv + nv..]);
        if at < nv {
            out[at] = source.vals[i];
            out[nv + at] = done as u64;
        }
        at += (total < done) as usize;
        total = done;
        start = end;
    }
    Reached {
        vals: at,
        time: start,
        times: total,
    }
}

// Writes the keys that stay, each with the end of its values, behind them those values, and behind these their times.
pub(crate) fn write_layers(source: Source, lists: Lists, nt: usize, out: &mut [u64])
    requires left { LeftOf source lists nt }
    requires room { length out.old ≡ (lists.keys + lists.keys) + ((lists.vals + lists.vals) + (nt + (nt + nt))) }
    ensures { out.new ≡ bodies_of source.entry }
{
    let nk = lists.keys;
    let nv = lists.vals;
    let mut start = 0;
    let mut reached = Reached {
        vals: 0,
        time: 0,
        times: 0,
    };
    let mut at = 0;
    let mut i = 0;
    // Kept: it ends where the last key that stays is written, which may be before the keys end; a `for` over the keys would test both.
    while at < nk {
        let end = source.val_ends[i] as usize;
        let total = reached.vals;
        reached = write_values(source, start, end, reached, nv, nt, &mut out[nk + nk..]);
        let after = reached.vals;
        out[at] = source.keys[i];
        out[nk + at] = after as u64;
        at += (total < after) as usize;
        start = end;
        i += 1;
    }
    let ends_at = nk + nk + nv + nv + nt;
    meld::count_on(&mut out[ends_at..ends_at + nt], 1);
}
