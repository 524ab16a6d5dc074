// Filter, split, suffix and meld: chunks out of chunks. Every word of each lent output is compared.
use std::io;

// A without its first two records.
pub fn later() -> [u64; 18] {
    [
        2, 2, 2, 2, 7, 9, 1, 2, 4, 3, 1, 2, 8589934592, 4294967301, 1, 2, 1, 2,
    ]
}

// The first two records of A.
fn earlier() -> [u64; 14] {
    [
        1,
        1,
        2,
        2,
        7,
        1,
        3,
        2,
        4294967301,
        4294967305,
        1,
        2,
        1,
        18446744073709551615,
    ]
}

// A merged with B, filtered, as the document gives it.
pub fn cleaned() -> [u64; 16] {
    [
        1, 2, 2, 2, 7, 2, 3, 4, 1, 2, 4294967301, 4294967296, 1, 2, 1, 1,
    ]
}

fn filtered(words: &[u64], room: usize, number: u64, told: [u64; 64]) -> bool {
    crate::writes(
        |out| crate::number(retain::filter_zero(words, out)),
        room,
        number,
        told,
    )
}

pub fn filters(rt: &impl Print) -> io::Result<()> {
    let m = crate::ground::cancelled();
    let clean = cleaned();
    crate::say(
        rt,
        "filter_zero: A merged with B",
        filtered(&m, 18, 0, crate::front(&clean)),
    )?;
    short_filter(rt, &m)?;
    let none = crate::ground::unsettled();
    let empty = [0, 0, 0, 0];
    crate::say(
        rt,
        "filter_zero: a truck whose only fault cancelled",
        filtered(&none, 10, 0, crate::front(&empty)),
    )
}

fn short_filter(rt: &impl Print, m: &[u64]) -> io::Result<()> {
    crate::say(
        rt,
        "filter_zero: a word short of room",
        filtered(m, 17, 13, [5; 64]),
    )
}

fn split(words: &[u64], n: u64, first: [u64; 64], rest: [u64; 64]) -> bool {
    let mut one = [5; 64];
    let mut two = [5; 64];
    let got = split::split_at(words, n, &mut one[..26], &mut two[..26]);
    got.is_ok() && one == first && two == rest
}

pub fn splits(rt: &impl Print) -> io::Result<()> {
    let a = crate::chunk_a();
    split_a(rt, &a)
}

fn split_a(rt: &impl Print, a: &[u64]) -> io::Result<()> {
    let empty = [0, 0, 0, 0];
    let none = crate::front(&empty);
    let all = crate::front(a);
    crate::say(rt, "split_at: A at 0", split(a, 0, none, all))?;
    crate::say(rt, "split_at: A at 4", split(a, 4, all, none))?;
    crate::say(
        rt,
        "split_at: A at 2^64 - 1",
        split(a, 0xffff_ffff_ffff_ffff, all, none),
    )?;
    let first = earlier();
    let rest = later();
    crate::say(
        rt,
        "split_at: A at 2",
        split(a, 2, crate::front(&first), crate::front(&rest)),
    )
}

fn suffixed(words: &[u64], k: usize, v: usize, t: usize, number: u64, told: [u64; 64]) -> bool {
    let cursor = merge::Cursor { k, v, t };
    crate::writes(
        |out| crate::number(merge::suffix_chunk(cursor, words, out)),
        26,
        number,
        told,
    )
}

pub fn suffixes(rt: &impl Print) -> io::Result<()> {
    let a = crate::chunk_a();
    suffix_a(rt, &a)
}

fn suffix_a(rt: &impl Print, a: &[u64]) -> io::Result<()> {
    let rest = later();
    crate::say(
        rt,
        "suffix_chunk: A from (0, 1, 2)",
        suffixed(a, 0, 1, 2, 0, crate::front(&rest)),
    )?;
    crate::say(
        rt,
        "suffix_chunk: A from its first position",
        suffixed(a, 0, 0, 0, 0, crate::front(a)),
    )?;
    crate::say(
        rt,
        "suffix_chunk: the value list after",
        suffixed(a, 0, 2, 2, 8, [5; 64]),
    )?;
    crate::say(
        rt,
        "suffix_chunk: a time past the last",
        suffixed(a, 1, 2, 4, 8, [5; 64]),
    )
}

fn melded(a: &[u64], b: &[u64], room: usize, number: u64, told: [u64; 64]) -> bool {
    crate::writes(
        |out| crate::number(meld::meld(a, b, out)),
        room,
        number,
        told,
    )
}

pub fn melds(rt: &impl Print) -> io::Result<()> {
    let a = crate::chunk_a();
    let first = earlier();
    let rest = later();
    meld_parts(rt, &a, &first, &rest)
}

fn meld_parts(rt: &impl Print, a: &[u64], first: &[u64], rest: &[u64]) -> io::Result<()> {
    crate::say(rt, "meld: A with itself", melded(a, a, 64, 11, [5; 64]))?;
    crate::say(
        rt,
        "meld: the two parts of A",
        melded(first, rest, 28, 0, crate::front(a)),
    )?;
    crate::say(
        rt,
        "meld: the same a word short of room",
        melded(first, rest, 27, 13, [5; 64]),
    )?;
    let empty = [0, 0, 0, 0];
    crate::say(
        rt,
        "meld: A after the empty chunk",
        melded(&empty, a, 26, 0, crate::front(a)),
    )
}
