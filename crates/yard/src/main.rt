// The yard examples of document 01, run: each line of output names an example and says `ok`, or `DIFFERS` where the library's answer,
// or a lent word afterwards, is not what the document says.
#![tactic(auto)]

use chunk::Refusal;
use std::io;

mod cuts;
mod extracts;
mod forms;
mod ground;
mod lent;
mod merges;
mod recorded;
mod surveys;

fn main(rt: HostRuntime) -> io::Result<()> {
    ground::checks(&rt)?;
    ground::walks(&rt)?;
    lent::walks(&rt)?;
    forms::forms(&rt)?;
    forms::unsorted_forms(&rt)?;
    cuts::filters(&rt)?;
    cuts::splits(&rt)?;
    extracts::extracts(&rt)?;
    merges::merges(&rt)?;
    merges::wholes(&rt)?;
    cuts::suffixes(&rt)?;
    cuts::melds(&rt)?;
    surveys::surveys(&rt)?;
    recorded::replay(&rt)
}

// One line for one example.
fn say(rt: &impl Print, name: &str, right: bool) -> io::Result<()> {
    println!(rt; "{name}: {}", if right { "ok" } else { "DIFFERS" })
}

// These words at the front of 64 that are 5.
fn front(words: &[u64]) -> [u64; 64] {
    let mut out = [5; 64];
    for (place, word) in out.iter_mut().zip(words) {
        *place = *word;
    }
    out
}

// The number of an answer: 0 where the call is accepted, else its refusal's.
// Kept: the examples of document 01 give numbers, so these are compared, and not the refusals' names.
fn number<T: Copy>(answer: Result<T, Refusal>) -> u64 {
    answer.map_or_else(|refusal| refusal.number(), |_| 0)
}

// Whether a call that is lent the first `room` of 64 words of 5 answers this number and leaves all of them as told.
fn writes<F: FnOnce(&mut [u64]) -> u64>(call: F, room: usize, number: u64, told: [u64; 64]) -> bool
    requires { F.IsAlwaysCallable call }
{
    let mut out = [5; 64];
    match out.get_mut(..room) {
        Some(lent) => call(lent) == number && out == told,
        None => false,
    }
}

// Chunk A of the document.
fn chunk_a() -> [u64; 26] {
    [
        2,
        3,
        4,
        4,
        7,
        9,
        2,
        3,
        3,
        4,
        3,
        2,
        3,
        4,
        4294967301,
        4294967305,
        8589934592,
        4294967301,
        1,
        2,
        3,
        4,
        1,
        18446744073709551615,
        1,
        2,
    ]
}
