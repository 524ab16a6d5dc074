// The survey of two chunks' keys into report records.
use std::io;
use survey::{Listed, Report};

// Chunk B of the document: truck 7 alone.
pub fn chunk_b() -> [u64; 16] {
    [
        1, 2, 2, 2, 7, 2, 3, 4, 1, 2, 4294967305, 4294967296, 1, 2, 1, 1,
    ]
}

// A report's three numbers.
// Kept: as numbers, as document 01 gives the answers.
fn told(report: Report, kind: u64, low: u64, high: u64) -> bool {
    [report.kind, report.low, report.high] == [kind, low, high]
}

pub fn surveys(rt: &impl Print) -> io::Result<()> {
    let a = crate::chunk_a();
    let b = chunk_b();
    shared(rt, &a, &b)?;
    let empty = [0, 0, 0, 0];
    refused(rt, &a, &empty)
}

// Truck 7 is in both, truck 9 in A alone.
fn shared(rt: &impl Print, a: &[u64], b: &[u64]) -> io::Result<()> {
    let Listed { answer, reports } = survey::survey_listed(a, b);
    crate::say(rt, "survey: A and B, two reports", answer == Ok(2))?;
    crate::say(rt, "survey: truck 7 in both", told(reports[0], 2, 0, 0))?;
    crate::say(rt, "survey: truck 9 in A alone", told(reports[1], 0, 1, 2))?;
    crate::say(
        rt,
        "survey: the record after the last",
        told(reports[2], 0, 0, 0),
    )
}

fn refused(rt: &impl Print, a: &[u64], empty: &[u64]) -> io::Result<()> {
    let answer = survey::survey_listed(a, empty).answer;
    crate::say(rt, "survey: the empty chunk", crate::number(answer) == 7)
}
