// A walker that is lent and advanced in place, over the records of a chunk.
use chunk::Refusal;
use std::io;
use walk::{Record, Walker};

// How a step went, and its record: 0 with a record, 1 done, 5 refused.
// Kept: as numbers, as document 01 gives the answers.
fn said(taken: Result<Option<Record>, Refusal>) -> [u64; 5] {
    match taken {
        Ok(Some(r)) => [0, r.key, r.val, r.time, r.diff],
        Ok(None) => [1, 0, 0, 0, 0],
        Err(refusal) => [refusal.number(), 0, 0, 0, 0],
    }
}

// Lends the walker for one step, says whether it went as told, and hands the walker on.
// Kept: beside the steps by value, since the two calls differ in what they are handed and hand back; a closure over both would be longer.
fn steps(
    rt: &impl Print,
    name: &str,
    words: &[u64],
    w: Walker,
    told: [u64; 5],
) -> io::Result<Walker> {
    let after = walker::step_lent(words, w);
    let taken = after.taken;
    crate::say(rt, name, said(taken) == told)?;
    Ok(after.walker)
}

pub fn walks(rt: &impl Print) -> io::Result<()> {
    let a = crate::chunk_a();
    records(rt, &a)
}

fn records(rt: &impl Print, a: &[u64]) -> io::Result<()> {
    let Ok(w) = walk::walk_start(a) else {
        return crate::say(rt, "lent walker: A", false);
    };
    let w = steps(
        rt,
        "lent walker: A, first record",
        a,
        w,
        [0, 7, 3, 4294967301, 1],
    )?;
    let w = steps(
        rt,
        "lent walker: A, second record",
        a,
        w,
        [0, 7, 3, 4294967305, 18446744073709551615],
    )?;
    let w = steps(
        rt,
        "lent walker: A, third record",
        a,
        w,
        [0, 7, 4, 8589934592, 1],
    )?;
    let w = steps(
        rt,
        "lent walker: A, fourth record",
        a,
        w,
        [0, 9, 3, 4294967301, 2],
    )?;
    steps(rt, "lent walker: A, done", a, w, [1, 0, 0, 0, 0])?;
    Ok(())
}
