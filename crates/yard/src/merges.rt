// Merges: the number, the survivor with its cursor, every word of the output, and the scratch where a refusal leaves it as it was.
ghost use Rattle.std.specs.Prelude.{◌≤◌};

use chunk::Refusal;
use merge::Survivor;
use std::io;

// The number, who survives (0 nobody, 1 the first, 2 the second), and its cursor; after a refusal's number zeros.
// Kept: as numbers, as document 01 gives the answers.
fn numbers(got: Result<Survivor, Refusal>) -> [u64; 5] {
    match got {
        Ok(Survivor::Nobody) => [0; 5],
        Ok(Survivor::First(c)) => [0, 1, c.k as u64, c.v as u64, c.t as u64],
        Ok(Survivor::Second(c)) => [0, 2, c.k as u64, c.v as u64, c.t as u64],
        Err(refusal) => [refusal.number(), 0, 0, 0, 0],
    }
}

// Merges with so many words of scratch, which hold `held`, and so many of output, which hold 5.
fn merged(
    a: &[u64],
    b: &[u64],
    scratch: usize,
    held: u64,
    room: usize,
    told: [u64; 5],
    out: [u64; 64],
) -> bool
    requires { (scratch ≤ 64) × (room ≤ 64) }
{
    let mut words = [5; 64];
    let mut reports = [held; 64];
    let got = merge::merge_pair(a, b, &mut reports[..scratch], &mut words[..room]);
    numbers(got) == told && (uses_scratch(got) || reports == [held; 64]) && words == out
}

// Whether a merge that answers this may have changed the scratch.
fn uses_scratch(got: Result<Survivor, Refusal>) -> bool {
    matches!(got, Ok(_) | Err(Refusal::Overflows))
}

// One record of truck 7.
fn one(diff: u64) -> [u64; 11] {
    [1, 1, 1, 1, 7, 1, 3, 1, 4294967301, 1, diff]
}

pub fn merges(rt: &impl Print) -> io::Result<()> {
    let a = crate::chunk_a();
    let b = crate::surveys::chunk_b();
    pair(rt, &a, &b)?;
    rooms(rt, &a, &b)?;
    let most = one(0x7fff_ffff_ffff_ffff);
    let near = one(0x7fff_ffff_ffff_fffe);
    let step = one(1);
    sums(rt, &most, &near, &step)?;
    let none = crate::ground::unsettled();
    orders(rt, &a, &none)
}

// A with B, either way round.
fn pair(rt: &impl Print, a: &[u64], b: &[u64]) -> io::Result<()> {
    let both = crate::ground::cancelled();
    crate::say(
        rt,
        "merge_pair: A and B, A survives at (0, 1, 2)",
        merged(a, b, 42, 0, 38, [0, 1, 0, 1, 2], crate::front(&both)),
    )?;
    let both = crate::ground::cancelled();
    crate::say(
        rt,
        "merge_pair: B and A, over other scratch",
        merged(
            b,
            a,
            42,
            0xffff_ffff_ffff_ffff,
            38,
            [0, 2, 0, 1, 2],
            crate::front(&both),
        ),
    )
}

// Scratch and room a word short of what is asked.
fn rooms(rt: &impl Print, a: &[u64], b: &[u64]) -> io::Result<()> {
    crate::say(
        rt,
        "merge_pair: a word short of scratch",
        merged(a, b, 41, 9, 38, [12, 0, 0, 0, 0], [5; 64]),
    )?;
    crate::say(
        rt,
        "merge_pair: a word short of room",
        merged(a, b, 42, 9, 37, [13, 0, 0, 0, 0], [5; 64]),
    )
}

// Sums at the edge of 64 bits.
fn sums(rt: &impl Print, most: &[u64], near: &[u64], step: &[u64]) -> io::Result<()> {
    crate::say(
        rt,
        "merge_pair: 2^63 - 1 with 1",
        merged(most, step, 18, 0, 18, [14, 0, 0, 0, 0], [5; 64]),
    )?;
    crate::say(
        rt,
        "merge_pair: 2^63 - 2 with 1",
        merged(near, step, 18, 0, 18, [0, 0, 0, 0, 0], crate::front(most)),
    )
}

// The tests of the first input come before those of the second.
fn orders(rt: &impl Print, a: &[u64], none: &[u64]) -> io::Result<()> {
    let empty = [0, 0, 0, 0];
    let bad = [1, 0, 0, 0];
    crate::say(
        rt,
        "merge_pair: an empty chunk before one that is none",
        merged(&empty, &bad, 60, 9, 60, [7, 0, 0, 0, 0], [5; 64]),
    )?;
    let bad = [1, 0, 0, 0];
    crate::say(
        rt,
        "merge_pair: all diffs cancelled, before one that is none",
        merged(none, &bad, 60, 9, 60, [6, 0, 0, 0, 0], [5; 64]),
    )?;
    let bad = [1, 0, 0, 0];
    crate::say(
        rt,
        "merge_pair: words that are no chunk second",
        merged(a, &bad, 60, 9, 60, [5, 0, 0, 0, 0], [5; 64]),
    )
}

// The whole merge with so many words for the filter's output and for the suffix's; the merge's own output is compared too.
fn wholly(
    a: &[u64],
    b: &[u64],
    clean: usize,
    rest: usize,
    told: [u64; 5],
    cleaned: [u64; 64],
    left: [u64; 64],
) -> bool
    requires { (clean ≤ 64) × (rest ≤ 64) }
{
    let mut reports = [9; 64];
    let mut one = [5; 64];
    let mut two = [5; 64];
    let mut three = [5; 64];
    let got = whole::merge_whole(
        a,
        b,
        &mut reports[..42],
        &mut one[..38],
        &mut two[..clean],
        &mut three[..rest],
    );
    let both = crate::ground::cancelled();
    numbers(got) == told && one == crate::front(&both) && two == cleaned && three == left
}

pub fn wholes(rt: &impl Print) -> io::Result<()> {
    let a = crate::chunk_a();
    let b = crate::surveys::chunk_b();
    let clean = crate::cuts::cleaned();
    let rest = crate::cuts::later();
    whole_pair(rt, &a, &b, crate::front(&clean), crate::front(&rest))
}

// What was written before a refusal stays.
fn whole_pair(
    rt: &impl Print,
    a: &[u64],
    b: &[u64],
    clean: [u64; 64],
    rest: [u64; 64],
) -> io::Result<()> {
    crate::say(
        rt,
        "merge_whole: A and B, filtered, and A's suffix",
        wholly(a, b, 18, 26, [0, 1, 0, 1, 2], clean, rest),
    )?;
    crate::say(
        rt,
        "merge_whole: a word short for the filter",
        wholly(a, b, 17, 26, [13, 0, 0, 0, 0], [5; 64], [5; 64]),
    )?;
    crate::say(
        rt,
        "merge_whole: a word short for the suffix",
        wholly(a, b, 18, 25, [13, 0, 0, 0, 0], clean, [5; 64]),
    )
}
