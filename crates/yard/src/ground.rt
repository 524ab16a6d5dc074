// Check and walk. An answer is laid out as words and compared with the words that the document gives.
use chunk::Checked;
use std::io;
use walk::Walker;

// The number, whether it is settled, and the four counts; after a refusal's number zeros.
// Kept: as numbers, as document 01 gives the answers.
fn checked(words: &[u64], told: [u64; 6]) -> bool {
    let got = match chunk::check(words) {
        Ok(Checked { settled, contents }) => [
            0,
            settled as u64,
            contents.nk as u64,
            contents.nv as u64,
            contents.nt as u64,
            contents.nd as u64,
        ],
        Err(refusal) => [refusal.number(), 0, 0, 0, 0, 0],
    };
    got == told
}

pub fn checks(rt: &impl Print) -> io::Result<()> {
    let a = crate::chunk_a();
    crate::say(rt, "check: A", checked(&a, [0, 1, 2, 3, 4, 4]))?;
    let empty = [0, 0, 0, 0, 5, 5];
    crate::say(
        rt,
        "check: the empty chunk, with words after it",
        checked(&empty, [0, 1, 0, 0, 0, 0]),
    )?;
    let unsettled = unsettled();
    crate::say(
        rt,
        "check: a time without a diff",
        checked(&unsettled, [0, 0, 1, 1, 1, 0]),
    )?;
    crate::say(rt, "check: no word at all", cut(&a, 0))?;
    crate::say(rt, "check: three words", cut(&empty, 3))?;
    crate::say(rt, "check: A without its last word", cut(&a, 25))?;
    let wraps = [0x8000_0000_0000_0000, 0x8000_0000_0000_0000, 0, 0];
    crate::say(
        rt,
        "check: counts that would wrap",
        checked(&wraps, [5, 0, 0, 0, 0, 0]),
    )?;
    damages(rt)
}

// A with one word changed.
fn changed(at: usize, word: u64) -> [u64; 26] {
    let mut a = crate::chunk_a();
    if let Some(place) = a.get_mut(at) {
        *place = word;
    }
    a
}

fn damaged(at: usize, word: u64) -> bool {
    let a = changed(at, word);
    checked(&a, [5, 0, 0, 0, 0, 0])
}

// Whether the first words of a slice are refused.
fn cut(words: &[u64], count: usize) -> bool {
    match words.get(..count) {
        Some(first) => checked(first, [5, 0, 0, 0, 0, 0]),
        None => false,
    }
}

fn damages(rt: &impl Print) -> io::Result<()> {
    crate::say(rt, "check: a value end that stays", damaged(7, 2))?;
    crate::say(rt, "check: keys that fall", damaged(4, 9))?;
    crate::say(rt, "check: values that fall within a key", damaged(9, 3))?;
    crate::say(
        rt,
        "check: times that stay within a value",
        damaged(15, 4294967301),
    )?;
    crate::say(rt, "check: a last time end past the times", damaged(13, 5))?;
    crate::say(rt, "check: a diff end two on", damaged(18, 2))?;
    crate::say(rt, "check: a diff of 0", damaged(25, 0))?;
    crate::say(
        rt,
        "check: a count near 2^64",
        damaged(2, 0xffff_ffff_ffff_fffc),
    )
}

// A time with no diff.
pub fn unsettled() -> [u64; 10] {
    [1, 1, 1, 0, 7, 1, 3, 1, 5, 0]
}

// A merged with B, as the document gives it: one of its times has no diff.
pub fn cancelled() -> [u64; 18] {
    [
        1, 2, 3, 2, 7, 2, 3, 4, 2, 3, 4294967301, 4294967305, 4294967296, 1, 1, 2, 1, 1,
    ]
}

// The seven numbers of a walker.
// Kept: as numbers, as document 01 gives the answers.
fn numbers(w: Walker) -> [u64; 7] {
    [w.k, w.v, w.t, w.d, w.v_end, w.t_end, w.d_end]
}

// Whether a walk of these words starts with this number, at a walker as told; a refusal says zeros.
fn starts(words: &[u64], number: u64, told: [u64; 7]) -> bool {
    let answer = walk::walk_start(words);
    crate::number(answer) == number && answer.map_or([0; 7], numbers) == told
}

// Takes one step, says whether it went as told (0 with a record, 1 done, 5 refused), and hands the walker on.
fn steps(
    rt: &impl Print,
    name: &str,
    words: &[u64],
    w: Walker,
    told: [u64; 5],
) -> io::Result<Walker> {
    let (how, next) = match walk::walk_step(words, w) {
        Ok(Some((r, to))) => ([0, r.key, r.val, r.time, r.diff], to),
        Ok(None) => ([1, 0, 0, 0, 0], w),
        Err(refusal) => ([refusal.number(), 0, 0, 0, 0], w),
    };
    crate::say(rt, name, how == told)?;
    Ok(next)
}

pub fn walks(rt: &impl Print) -> io::Result<()> {
    let a = crate::chunk_a();
    crate::say(rt, "walk: start of A", starts(&a, 0, [0, 0, 0, 0, 2, 2, 1]))?;
    four_records(rt, &a)?;
    let m = cancelled();
    over_a_gap(rt, &m)?;
    odd_walks(rt)
}

fn four_records(rt: &impl Print, a: &[u64]) -> io::Result<()> {
    let Ok(w) = walk::walk_start(a) else {
        return crate::say(rt, "walk: A", false);
    };
    let w = steps(rt, "walk: A, first record", a, w, [0, 7, 3, 4294967301, 1])?;
    let w = steps(
        rt,
        "walk: A, second record",
        a,
        w,
        [0, 7, 3, 4294967305, 18446744073709551615],
    )?;
    let w = steps(rt, "walk: A, third record", a, w, [0, 7, 4, 8589934592, 1])?;
    let w = steps(rt, "walk: A, fourth record", a, w, [0, 9, 3, 4294967301, 2])?;
    let w = steps(rt, "walk: A, done", a, w, [1, 0, 0, 0, 0])?;
    steps(rt, "walk: A, done for good", a, w, [1, 0, 0, 0, 0])?;
    Ok(())
}

fn over_a_gap(rt: &impl Print, m: &[u64]) -> io::Result<()> {
    let Ok(w) = walk::walk_start(m) else {
        return crate::say(rt, "walk: over a time without a diff", false);
    };
    let w = steps(
        rt,
        "walk: before a time without a diff",
        m,
        w,
        [0, 7, 3, 4294967301, 1],
    )?;
    let w = steps(
        rt,
        "walk: after a time without a diff",
        m,
        w,
        [0, 7, 4, 4294967296, 1],
    )?;
    steps(rt, "walk: done after it", m, w, [1, 0, 0, 0, 0])?;
    Ok(())
}

// Walkers and words that no start gives.
fn odd_walks(rt: &impl Print) -> io::Result<()> {
    let a = crate::chunk_a();
    let none = unsettled();
    crate::say(
        rt,
        "walk: start with times and no diffs",
        starts(&none, 0, [0, 0, 0, 0, 1, 1, 0]),
    )?;
    let unsorted = changed(4, 9);
    crate::say(
        rt,
        "walk: start of words that are no chunk",
        starts(&unsorted, 5, [0, 0, 0, 0, 0, 0, 0]),
    )?;
    let last = Walker {
        k: 0xffff_ffff_ffff_ffff,
        v: 0xffff_ffff_ffff_ffff,
        t: 0xffff_ffff_ffff_ffff,
        d: 0,
        v_end: 0,
        t_end: 0,
        d_end: 0,
    };
    steps(
        rt,
        "walk: an index at 2^64 - 1 that must move",
        &a,
        last,
        [5, 0, 0, 0, 0],
    )?;
    let past = Walker {
        k: 0xffff_ffff_ffff_ffff,
        v: 0,
        t: 0,
        d: 4,
        v_end: 0,
        t_end: 0,
        d_end: 0,
    };
    steps(rt, "walk: done before any read", &a, past, [1, 0, 0, 0, 0])?;
    let wraps = [0x8000_0000_0000_0000, 0x8000_0000_0000_0000, 0, 0];
    steps(
        rt,
        "walk: a table that does not fit",
        &wraps,
        past,
        [5, 0, 0, 0, 0],
    )?;
    Ok(())
}
