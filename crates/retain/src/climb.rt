// The corners of the times so far, while they are looked over: where a time belongs among them, and which of them it takes the place of.
ghost use Rattle.std.specs.Prelude.{◌≡◌, false, ◌≤◌, length, take};
ghost use Rattle.retain.specs.Frontier.{is_open};
ghost use Rattle.retain.specs.Found.{Before, Passed, Standing, Joined};

use crate::Frontier;
use crate::corners::Corners;

// Where a time belongs that no corner is at or below: behind the corners of a lower ignition.
fn first_at(corners: Corners, t: u64) -> usize
    requires { is_open corners.times.now t ≡ false }
    ensures { Before corners.entry.times.now t result }
{
    let place = corners.place_of(t);
    if place == 0 {
        return 0;
    }
    let last = place - 1;
    let corner = corners.times[last];
    if t / 0x1_0000_0000 <= corner / 0x1_0000_0000 {
        return last;
    }
    place
}

// Where the corners end, from `at` on, whose tick is not below the time's.
// Kept: one after another, since few corners go at once, and they stand where it starts.
fn run_end(corners: &[u64], at: usize, t: u64) -> usize
    requires { at ≤ length corners.now }
    ensures { Passed corners.now t at result }
{
    for end in at..corners.len() {
        let corner = corners[end];
        if corner % 0x1_0000_0000 < t % 0x1_0000_0000 {
            return end;
        }
    }
    corners.len()
}

// Puts a time among the corners, in the place of those that it is at or below, and answers how many there are then.
// Kept: the count tells of too many, as `Joined` states it for any count; an Option would need a second statement for the corners that are given up.
pub(crate) fn add_corner(corners: &mut [u64], count: usize, t: u64) -> usize
    requires { Standing corners.old count × (is_open (take count corners.old) t ≡ false) }
    ensures { Joined t (take count corners.old) result corners.new }
{
    let so_far = Corners {
        times: &corners[..count],
    };
    let at = first_at(so_far, t);
    let end = run_end(&corners[..count], at, t);
    let top = count - end + at + 1;
    if Frontier::MOST < top {
        return top;
    }
    // Where one goes and one comes, none of the others moves.
    if end != at + 1 {
        corners.copy_within(end..count, at + 1);
    }
    corners[at] = t;
    if top < count {
        corners[top..count].fill(0);
    }
    top
}
