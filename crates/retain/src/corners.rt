// Corners in order, and whether a time is open under them: no branch depends on the time, so that it costs the same whatever the times are.
ghost use Rattle.std.specs.Prelude.{◌≡◌, true, ◌<◌, length};
ghost use Rattle.chunk.specs.Entry.{keep};
ghost use Rattle.retain.specs.Frontier.{is_open, ordered};
ghost use Rattle.retain.specs.Found.{LastAt, PartedAt};
ghost use Rattle.retain.specs.Layers.{bit};

use crate::look::not_above;

// The corners of a frontier: ignitions rise strictly and ticks fall strictly.
#[derive(Clone, Copy)]
pub struct Corners<'a> {
    pub times: &'a [u64],
    pub ghost in_order: { ordered times.now ≡ true },
}

impl<'a> Corners<'a> {
    // The last corner that has an ignition at or below a time's, or the first corner.
    // Kept: halves with no branch, where the library's search would branch on each test; what such a branch costs stands at `not_above`.
    fn last_at(self, t: u64) -> usize
        requires { 0 < length self.times.now }
        ensures { LastAt self.entry.times.now t result }
    {
        let ignition = t / 0x1_0000_0000;
        let mut at = 0;
        let mut left = self.times.len() - 1;
        while 0 < left {
            let half = left / 2 + left % 2;
            let corner = self.times[at + half];
            let past = not_above(corner / 0x1_0000_0000, ignition) as usize;
            at += half * past;
            left -= half;
        }
        at
    }

    // How many corners have an ignition at or below a time's.
    pub(crate) fn place_of(self, t: u64) -> usize
        ensures { PartedAt self.entry.times.now t result }
    {
        if self.times.is_empty() {
            return 0;
        }
        let at = self.last_at(t);
        let corner = self.times[at];
        let past = not_above(corner / 0x1_0000_0000, t / 0x1_0000_0000) as usize;
        at + past
    }

    // 1 where some corner is at or below a time, else 0. Of the corners whose ignition is at or below the time's the last has the least tick.
    pub(crate) fn open_bit(self, t: u64) -> usize
        ensures { result ≡ bit (is_open self.entry.times.now t) }
    {
        if self.times.is_empty() {
            return 0;
        }
        let at = self.last_at(t);
        let corner = self.times[at];
        let below = chunk::at_or_below(corner, t);
        below as usize
    }

    // Whether some corner is at or below a time.
    pub(crate) fn is_open(self, t: u64) -> bool
        ensures { result ≡ is_open self.entry.times.now t }
    {
        let open = self.open_bit(t);
        open == 1
    }

    // How many times are open.
    pub(crate) fn count_open(self, times: &[u64]) -> usize
        ensures { result ≡ length (keep (is_open self.entry.times.now) times.now) }
    {
        let mut number = 0;
        for time in times {
            number += self.open_bit(*time);
        }
        number
    }
}
