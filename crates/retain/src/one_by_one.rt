// The corners of the open times one by one, for where too many stand on the way.
ghost use Rattle.std.specs.Prelude.{◌≡◌};
ghost use Rattle.retain.specs.Frontier.{is_open, least_of};
ghost use Rattle.retain.specs.Found.{least_from, better_than, corners_of};
ghost use Rattle.chunk.specs.Entry.{keep};

use crate::Frontier;
use crate::corners::Corners;

// Of the open times with a tick below `limit`, the one that sorts first, where there is one.
fn least_open(times: &[u64], corners: Corners, limit: u64) -> Option<u64>
    ensures { result ≡ least_from corners.entry.times.now limit times.now None }
{
    let mut best = None;
    for time in times {
        if better(corners, limit, best, *time) {
            best = Some(*time);
        }
    }
    best
}

// Whether an open time with a tick below `limit` sorts before the best so far.
fn better(corners: Corners, limit: u64, best: Option<u64>, time: u64) -> bool
    ensures { result ≡ better_than corners.entry.times.now limit best time }
{
    if limit <= time % 0x1_0000_0000 {
        return false;
    }
    match best {
        Some(best) => chunk::sorts_before(time, best) && corners.is_open(time),
        None => corners.is_open(time),
    }
}

// The frontier of the open times, where it holds them: the least of them, then the least of those with a lower tick, and so on.
pub(crate) fn scan_corners(times: &[u64], upper: Corners) -> Option<Frontier>
    ensures { result ≡ corners_of (least_of (keep (is_open upper.entry.times.now) times.now)) }
{
    let mut corners = [0; 128];
    let mut limit = 0x1_0000_0000;
    for count in 0..Frontier::MOST {
        let Some(time) = least_open(times, upper, limit) else {
            return Some(Frontier {
                count: count as u64,
                corners,
            });
        };
        corners[count] = time;
        limit = time % 0x1_0000_0000;
    }
    match least_open(times, upper, limit) {
        Some(_) => None,
        None => Some(Frontier {
            count: Frontier::MOST as u64,
            corners,
        }),
    }
}
