// Extract: the open records kept, the others shipped, and the frontier of the kept times.
ghost use Rattle.std.specs.Prelude.{◌≤◌};

use chunk::Refusal;
use retain::{Extracted, Frontier};
use std::io;

// A frontier of up to two corners.
fn corners(count: u64, first: u64, second: u64) -> Frontier {
    let mut places = [0; 128];
    places[0] = first;
    places[1] = second;
    Frontier {
        count,
        corners: places,
    }
}

// The number, the verdict (0 all kept, 1 all shipped, 2 mixed), and the frontier's count with its first three places; after a refusal's number zeros.
// Kept: as numbers, as document 01 gives the answers.
fn numbers(got: Result<Extracted, Refusal>) -> [u64; 6] {
    match got {
        Ok(Extracted { verdict, frontier }) => {
            let places = frontier.corners;
            [
                0,
                verdict as u64,
                frontier.count,
                places[0],
                places[1],
                places[2],
            ]
        }
        Err(refusal) => [refusal.number(), 0, 0, 0, 0, 0],
    }
}

fn extracted(
    a: &[u64],
    upper: Frontier,
    told: [u64; 6],
    kept: [u64; 64],
    shipped: [u64; 64],
) -> bool {
    let mut one = [5; 64];
    let mut two = [5; 64];
    let got = retain::extract(a, upper, &mut one[..26], &mut two[..26]);
    numbers(got) == told && one == kept && two == shipped
}

pub fn extracts(rt: &impl Print) -> io::Result<()> {
    let a = crate::chunk_a();
    two_corners(rt, &a)?;
    one_corner(rt, &a)?;
    no_corner(rt, &a)?;
    stairs(rt)
}

// At (1, 9) and (2, 0).
fn two_corners(rt: &impl Print, a: &[u64]) -> io::Result<()> {
    let kept = [
        1,
        2,
        2,
        2,
        7,
        2,
        3,
        4,
        1,
        2,
        4294967305,
        8589934592,
        1,
        2,
        18446744073709551615,
        1,
    ];
    let shipped = [
        2, 2, 2, 2, 7, 9, 1, 2, 3, 3, 1, 2, 4294967301, 4294967301, 1, 2, 1, 2,
    ];
    let right = extracted(
        a,
        corners(2, 4294967305, 8589934592),
        [0, 2, 2, 4294967305, 8589934592, 0],
        crate::front(&kept),
        crate::front(&shipped),
    );
    crate::say(rt, "extract: A at (1, 9) and (2, 0)", right)
}

// At (1, 9) alone: (2, 0) is later in the sort order, and not at or above it in tick.
fn one_corner(rt: &impl Print, a: &[u64]) -> io::Result<()> {
    let kept = [1, 1, 1, 1, 7, 1, 3, 1, 4294967305, 1, 18446744073709551615];
    let shipped = [
        2, 3, 3, 3, 7, 9, 2, 3, 3, 4, 3, 1, 2, 3, 4294967301, 8589934592, 4294967301, 1, 2, 3, 1,
        1, 2,
    ];
    let right = extracted(
        a,
        corners(1, 4294967305, 8589934592),
        [0, 2, 1, 4294967305, 0, 0],
        crate::front(&kept),
        crate::front(&shipped),
    );
    crate::say(rt, "extract: A at (1, 9) alone", right)
}

// With the empty frontier nothing is open; a frontier out of order is refused.
fn no_corner(rt: &impl Print, a: &[u64]) -> io::Result<()> {
    let empty = [0, 0, 0, 0];
    let right = extracted(
        a,
        Frontier::new(),
        [0, 1, 0, 0, 0, 0],
        crate::front(&empty),
        crate::front(a),
    );
    crate::say(rt, "extract: A at no corner", right)?;
    let fallen = extracted(
        a,
        corners(2, 8589934592, 4294967305),
        [9, 0, 0, 0, 0, 0],
        [5; 64],
        [5; 64],
    );
    crate::say(rt, "extract: corners out of order", fallen)?;
    let many = extracted(a, corners(129, 0, 0), [9, 0, 0, 0, 0, 0], [5; 64], [5; 64]);
    crate::say(rt, "extract: a count of 129", many)
}

// A chunk of n times of one fault, ignitions rising and ticks falling: none is at or below another.
// Kept: an iterator for each of the three parts that the loop fills would hold three cuts of the words, and read no plainer.
fn stair(n: usize) -> [u64; 400]
    requires { n ≤ 130 }
{
    let mut out = [0; 400];
    let count = n as u64;
    out[..8].copy_from_slice(&[1, 1, count, count, 7, 1, 3, count]);
    for i in 0..n {
        out[8 + i] = (i as u64 + 1) * 0x1_0000_0000 + (200 - i as u64);
        out[8 + n + i] = i as u64 + 1;
        out[8 + n + n + i] = 1;
    }
    out
}

// All of it kept: its number and how many corners there are.
fn climbed(n: usize, number: u64, count: u64) -> bool
    requires { n ≤ 130 }
{
    let words = stair(n);
    let mut kept = [5; 400];
    let mut shipped = [5; 400];
    let got = retain::extract(&words, corners(1, 0, 0), &mut kept, &mut shipped);
    let said = numbers(got);
    said[0] == number && said[2] == count
}

fn stairs(rt: &impl Print) -> io::Result<()> {
    crate::say(rt, "extract: 128 kept corners", climbed(128, 0, 128))?;
    crate::say(rt, "extract: 129 kept corners", climbed(129, 10, 0))
}
