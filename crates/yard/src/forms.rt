// Form, sorted and unsorted. A run is right where its number, every word of the lent output and, for the unsorted entry, every word of the lent
// updates are what the document says.
use std::io;

// The four updates of chunk A.
fn four() -> [u64; 16] {
    [
        7,
        3,
        4294967301,
        1,
        7,
        3,
        4294967305,
        18446744073709551615,
        7,
        4,
        8589934592,
        1,
        9,
        3,
        4294967301,
        2,
    ]
}

// Forms `updates` into the first `room` of 64 words of 5, and compares all of them afterwards.
fn formed(updates: &[u64], room: usize, number: u64, told: [u64; 64]) -> bool {
    crate::writes(
        |out| crate::number(form::form(updates, out)),
        room,
        number,
        told,
    )
}

// One update.
fn one(key: u64, val: u64, time: u64, diff: u64, number: u64) -> bool {
    let update = [key, val, time, diff];
    let chunk = [1, 1, 1, 1, key, 1, val, 1, time, 1, diff];
    let told = if number == 0 {
        crate::front(&chunk)
    } else {
        [5; 64]
    };
    formed(&update, 11, number, told)
}

pub fn forms(rt: &impl Print) -> io::Result<()> {
    let us = four();
    let untouched = [5; 64];
    let empty = crate::front(&[0, 0, 0, 0]);
    crate::say(rt, "form: no updates", none(&us, empty))?;
    let cancel = [7, 3, 1, 1, 7, 3, 1, 18446744073709551615];
    crate::say(
        rt,
        "form: +1 and -1 at one position",
        formed(&cancel, 18, 0, empty),
    )?;
    crate::say(
        rt,
        "form: the same in 17 words",
        formed(&cancel, 17, 13, untouched),
    )?;
    whole(rt, &us)?;
    refusals(rt)?;
    ranges(rt)
}

// The four updates, with room and a word short of it.
fn whole(rt: &impl Print, us: &[u64]) -> io::Result<()> {
    let a = crate::chunk_a();
    crate::say(rt, "form: A", formed(us, 32, 0, crate::front(&a)))?;
    crate::say(rt, "form: A in 31 words", formed(us, 31, 13, [5; 64]))
}

// No updates at all, in exactly four words.
fn none(us: &[u64], told: [u64; 64]) -> bool {
    formed(&us[0..0], 4, 0, told)
}

fn refusals(rt: &impl Print) -> io::Result<()> {
    let untouched = [5; 64];
    let ragged = [7, 3, 1, 1, 7, 3, 1];
    crate::say(
        rt,
        "form: three words over",
        formed(&ragged, 64, 1, untouched),
    )?;
    let keys = [9, 3, 1, 1, 7, 3, 1, 1];
    crate::say(rt, "form: a key falls", formed(&keys, 64, 3, untouched))?;
    let vals = [7, 4, 1, 1, 7, 3, 1, 1];
    crate::say(rt, "form: a value falls", formed(&vals, 64, 3, untouched))?;
    let times = [7, 3, 2, 1, 7, 3, 1, 1];
    crate::say(rt, "form: a time falls", formed(&times, 64, 3, untouched))
}

fn ranges(rt: &impl Print) -> io::Result<()> {
    crate::say(rt, "form: a diff of 2^40", one(7, 3, 1, 0x100_0000_0000, 0))?;
    crate::say(
        rt,
        "form: a diff of 2^40 + 1",
        one(7, 3, 1, 0x100_0000_0001, 4),
    )?;
    crate::say(
        rt,
        "form: a diff of -2^40",
        one(7, 3, 1, 0xffff_ff00_0000_0000, 0),
    )?;
    crate::say(
        rt,
        "form: a diff of -2^40 - 1",
        one(7, 3, 1, 0xffff_feff_ffff_ffff, 4),
    )?;
    crate::say(
        rt,
        "form: any ignition and tick",
        one(
            0xffff_ffff_ffff_ffff,
            0xffff_ffff_ffff_ffff,
            0xffff_ffff_ffff_ffff,
            1,
            0,
        ),
    )
}

// The four updates in another order.
fn shuffled() -> [u64; 16] {
    [
        9,
        3,
        4294967301,
        2,
        7,
        3,
        4294967305,
        18446744073709551615,
        7,
        4,
        8589934592,
        1,
        7,
        3,
        4294967301,
        1,
    ]
}

// Forms the shuffled updates, and compares both lent slices afterwards.
fn unsorted(room: usize, number: u64, left: [u64; 64], told: [u64; 64]) -> bool {
    let mut lent = crate::front(&shuffled());
    crate::writes(
        |out| crate::number(form::form_unsorted(&mut lent[..16], out)),
        room,
        number,
        told,
    ) && lent == left
}

pub fn unsorted_forms(rt: &impl Print) -> io::Result<()> {
    let sorted = four();
    let mixed = shuffled();
    let a = crate::chunk_a();
    let chunk = crate::front(&a);
    crate::say(
        rt,
        "form_unsorted: A",
        unsorted(32, 0, crate::front(&sorted), chunk),
    )?;
    crate::say(
        rt,
        "form_unsorted: A in 31 words",
        unsorted(31, 13, crate::front(&mixed), [5; 64]),
    )
}
