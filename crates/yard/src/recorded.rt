// Answers of the Rust, replayed through the calls for C. A line is one answer: the call's name and number, then what it was given, in two
// fields, and what the Rust gave, in up to three; the words of a field stand after its `|`. A word `i.t` is the time of ignition i and tick
// t, and a negative word is the same in two's complement. `python3 oracle/record.py` has the Rust answer again, and writes the lines anew.
use std::io;

const LINES: &str = "form 0 | | | 0 0 0 0 | |
form 0 | 7 3 1.5 1 7 3 1.9 -1 7 4 2.0 1 9 3 1.5 2 | | 2 3 4 4 7 9 2 3 3 4 3 2 3 4 1.5 1.9 2.0 1.5 1 2 3 4 1 -1 1 2 | |
form 0 | 7 3 1.5 1 7 3 1.5 -1 | | 0 0 0 0 | |
form 0 | -1 -1 -1 256.0 -1 -1 -1 -1099511627775 | | 1 1 1 1 -1 1 -1 1 -1 1 1 | |
form 0 | 0 0 2.1 -1099511627776 0 1 1.1 -1099511627776 0 3 0 -2 0 3 0 1 0 3 2.1 -1099511627776 1 0 2.2 -2 1 1 2.1 -2 1 3 0 1 | | 2 6 7 7 0 1 3 6 0 1 3 0 1 3 1 2 4 5 6 7 2.1 1.1 0 2.1 2.2 2.1 0 1 2 3 4 5 6 7 -1099511627776 -1099511627776 -1 -1099511627776 -2 -2 1 | |
form_unsorted 1 | | | 0 0 0 0 | |
form_unsorted 1 | 9 3 1.5 2 7 4 2.0 1 7 3 1.9 -1 7 3 1.5 1 | | 2 3 4 4 7 9 2 3 3 4 3 2 3 4 1.5 1.9 2.0 1.5 1 2 3 4 1 -1 1 2 | |
form_unsorted 1 | 7 3 1.5 1 7 3 1.9 -1 7 4 2.0 1 9 3 1.5 2 7 3 1.5 -1 | | 2 3 3 3 7 9 2 3 3 4 3 1 2 3 1.9 2.0 1.5 1 2 3 -1 1 2 | |
form_unsorted 1 | -1 -1 -1 256.0 -1 -1 -1 -1099511627775 | | 1 1 1 1 -1 1 -1 1 -1 1 1 | |
form_unsorted 1 | 0 1 1.2 2 0 0 1.2 -1 0 2 1.0 256.0 1 0 2.1 256.0 1 2 2.1 256.0 1 2 2.0 1 1 2 1.2 -1099511627776 1 1 1.1 -2 | | 2 6 8 8 0 1 3 6 0 1 2 0 1 2 1 2 3 4 5 8 1.2 1.2 1.0 2.1 1.1 1.2 2.0 2.1 1 2 3 4 5 6 7 8 -1 2 256.0 256.0 -2 -1099511627776 1 256.0 | |
filter 2 | 0 0 0 0 | | 0 0 0 0 | |
filter 2 | 1 2 3 2 7 2 3 4 2 3 1.5 1.9 1.0 1 1 2 1 1 | | 1 2 2 2 7 2 3 4 1 2 1.5 1.0 1 2 1 1 | |
filter 2 | 2 3 4 0 7 9 2 3 3 4 3 2 3 4 1.5 1.9 2.0 1.5 0 0 0 0 | | 0 0 0 0 | |
filter 2 | 2 3 6 4 0 1 1 3 2 0 2 1 3 6 2 1 2.0 2 1.1 2.0 1 1 2 3 3 4 1 -1 -1 -2 | | 2 3 4 4 0 1 1 3 2 0 2 1 2 4 2 2.0 2 2.0 1 2 3 4 1 -1 -1 -2 | |
filter 2 | 2 5 8 5 0 1 2 5 0 1 0 1 2 1 3 4 5 8 2.0 0 1.1 1.2 1 1.1 1.2 2.0 0 1 2 2 3 4 4 5 -2 -1 1 -1 -1 | | 2 3 5 5 0 1 1 3 1 1 2 2 3 5 0 1.1 1 1.1 2.0 1 2 3 4 5 -2 -1 1 -1 -1 | |
filter 2 | 5 5 5 4 10 20 48 55 72 1 2 3 4 5 2 1 1 0 1 1 2 3 4 5 1 0 2 1 1.1 1 2 2 3 4 1 1 1 2 | | 4 4 4 4 10 20 55 72 1 2 3 4 2 1 0 1 1 2 3 4 1 0 1 1.1 1 2 3 4 1 1 1 2 | |
split 3 | 2 3 4 4 7 9 2 3 3 4 3 2 3 4 1.5 1.9 2.0 1.5 1 2 3 4 1 -1 1 2 | 0 | 0 0 0 0 | 2 3 4 4 7 9 2 3 3 4 3 2 3 4 1.5 1.9 2.0 1.5 1 2 3 4 1 -1 1 2 |
split 3 | 2 3 4 4 7 9 2 3 3 4 3 2 3 4 1.5 1.9 2.0 1.5 1 2 3 4 1 -1 1 2 | 2 | 1 1 2 2 7 1 3 2 1.5 1.9 1 2 1 -1 | 2 2 2 2 7 9 1 2 4 3 1 2 2.0 1.5 1 2 1 2 |
split 3 | 2 3 4 4 7 9 2 3 3 4 3 2 3 4 1.5 1.9 2.0 1.5 1 2 3 4 1 -1 1 2 | 4 | 2 3 4 4 7 9 2 3 3 4 3 2 3 4 1.5 1.9 2.0 1.5 1 2 3 4 1 -1 1 2 | 0 0 0 0 |
split 3 | 2 3 4 4 7 9 2 3 3 4 3 2 3 4 1.5 1.9 2.0 1.5 1 2 3 4 1 -1 1 2 | -1 | 2 3 4 4 7 9 2 3 3 4 3 2 3 4 1.5 1.9 2.0 1.5 1 2 3 4 1 -1 1 2 | 0 0 0 0 |
split 3 | 2 5 8 8 0 1 2 5 0 1 0 1 2 1 3 4 5 8 2.0 0 1.1 1.2 1 1.1 1.2 2.0 1 2 3 4 5 6 7 8 2 -2 -1 -2 1 -1 1 -1 | 3 | 1 2 3 3 0 2 0 1 1 3 2.0 0 1.1 1 2 3 2 -2 -1 | 1 3 5 5 1 3 0 1 2 1 2 5 1.2 1 1.1 1.2 2.0 1 2 3 4 5 -2 1 -1 1 -1 |
split 3 | 6 6 7 7 0 2 7 19 38 84 1 2 3 4 5 6 2 0 2 2 1 2 1 2 3 5 6 7 1.0 1.1 2 0 1.2 1.1 2 1 2 3 4 5 6 7 -1 -1 2 -2 -2 1 1 | 6 | 5 5 6 6 0 2 7 19 38 1 2 3 4 5 2 0 2 2 1 1 2 3 5 6 1.0 1.1 2 0 1.2 1.1 1 2 3 4 5 6 -1 -1 2 -2 -2 1 | 1 1 1 1 84 1 2 1 2 1 1 |
split 3 | 0 0 0 0 | 0 | 0 0 0 0 | 0 0 0 0 |
extract 4 | 2 3 4 4 7 9 2 3 3 4 3 2 3 4 1.5 1.9 2.0 1.5 1 2 3 4 1 -1 1 2 | 1.9 2.0 | 1 2 2 2 7 2 3 4 1 2 1.9 2.0 1 2 -1 1 | 2 2 2 2 7 9 1 2 3 3 1 2 1.5 1.5 1 2 1 2 | 1.9 2.0
extract 4 | 2 3 4 4 7 9 2 3 3 4 3 2 3 4 1.5 1.9 2.0 1.5 1 2 3 4 1 -1 1 2 | 1.9 | 1 1 1 1 7 1 3 1 1.9 1 -1 | 2 3 3 3 7 9 2 3 3 4 3 1 2 3 1.5 2.0 1.5 1 2 3 1 1 2 | 1.9
extract 4 | 2 3 4 4 7 9 2 3 3 4 3 2 3 4 1.5 1.9 2.0 1.5 1 2 3 4 1 -1 1 2 | | 0 0 0 0 | 2 3 4 4 7 9 2 3 3 4 3 2 3 4 1.5 1.9 2.0 1.5 1 2 3 4 1 -1 1 2 |
extract 4 | 2 3 4 4 7 9 2 3 3 4 3 2 3 4 1.5 1.9 2.0 1.5 1 2 3 4 1 -1 1 2 | 0 | 2 3 4 4 7 9 2 3 3 4 3 2 3 4 1.5 1.9 2.0 1.5 1 2 3 4 1 -1 1 2 | 0 0 0 0 | 1.5 2.0
extract 4 | 0 0 0 0 | 0 | 0 0 0 0 | 0 0 0 0 |
extract 4 | 2 3 6 6 0 1 1 3 2 0 2 1 3 6 2 1 2.0 2 1.1 2.0 1 2 3 4 5 6 1 -2 -1 -1 -2 -2 | 2 1.1 | 2 2 3 3 0 1 1 2 2 2 1 3 2 2 1.1 1 2 3 1 -1 -2 | 1 2 3 3 1 2 0 2 2 3 1 2.0 2.0 1 2 3 -2 -1 -2 | 2 1.1
extract 4 | 2 5 8 8 0 1 2 5 0 1 0 1 2 1 3 4 5 8 2.0 0 1.1 1.2 1 1.1 1.2 2.0 1 2 3 4 5 6 7 8 2 -2 -1 -2 1 -1 1 -1 | 2 1.1 2.0 | 2 4 6 6 0 1 2 4 0 1 0 2 1 2 3 6 2.0 1.1 1.2 1.1 1.2 2.0 1 2 3 4 5 6 2 -1 -2 -1 1 -1 | 2 2 2 2 0 1 1 2 1 1 1 2 0 1 1 2 -2 1 | 1.1 2.0
extract 4 | 6 6 7 7 0 2 7 19 38 84 1 2 3 4 5 6 2 0 2 2 1 2 1 2 3 5 6 7 1.0 1.1 2 0 1.2 1.1 2 1 2 3 4 5 6 7 -1 -1 2 -2 -2 1 1 | 0 | 6 6 7 7 0 2 7 19 38 84 1 2 3 4 5 6 2 0 2 2 1 2 1 2 3 5 6 7 1.0 1.1 2 0 1.2 1.1 2 1 2 3 4 5 6 7 -1 -1 2 -2 -2 1 1 | 0 0 0 0 | 0
suffix 5 | 2 3 4 4 7 9 2 3 3 4 3 2 3 4 1.5 1.9 2.0 1.5 1 2 3 4 1 -1 1 2 | 0 0 0 | 2 3 4 4 7 9 2 3 3 4 3 2 3 4 1.5 1.9 2.0 1.5 1 2 3 4 1 -1 1 2 | |
suffix 5 | 2 3 4 4 7 9 2 3 3 4 3 2 3 4 1.5 1.9 2.0 1.5 1 2 3 4 1 -1 1 2 | 0 1 2 | 2 2 2 2 7 9 1 2 4 3 1 2 2.0 1.5 1 2 1 2 | |
suffix 5 | 2 3 4 4 7 9 2 3 3 4 3 2 3 4 1.5 1.9 2.0 1.5 1 2 3 4 1 -1 1 2 | 1 2 3 | 1 1 1 1 9 1 3 1 1.5 1 2 | |
suffix 5 | 2 5 8 8 0 1 2 5 0 1 0 1 2 1 3 4 5 8 2.0 0 1.1 1.2 1 1.1 1.2 2.0 1 2 3 4 5 6 7 8 2 -2 -1 -2 1 -1 1 -1 | 1 4 5 | 1 1 3 3 1 1 2 3 1.1 1.2 2.0 1 2 3 -1 1 -1 | |
suffix 5 | 6 6 7 7 0 2 7 19 38 84 1 2 3 4 5 6 2 0 2 2 1 2 1 2 3 5 6 7 1.0 1.1 2 0 1.2 1.1 2 1 2 3 4 5 6 7 -1 -1 2 -2 -2 1 1 | 1 1 1 | 5 5 6 6 2 7 19 38 84 1 2 3 4 5 0 2 2 1 2 1 2 4 5 6 1.1 2 0 1.2 1.1 2 1 2 3 4 5 6 -1 2 -2 -2 1 1 | |
meld 6 | 1 1 2 2 7 1 3 2 1.5 1.9 1 2 1 -1 | 2 2 2 2 7 9 1 2 4 3 1 2 2.0 1.5 1 2 1 2 | 2 3 4 4 7 9 2 3 3 4 3 2 3 4 1.5 1.9 2.0 1.5 1 2 3 4 1 -1 1 2 | |
meld 6 | 1 2 3 3 7 2 3 4 2 3 1.5 1.9 2.0 1 2 3 1 -1 1 | 1 1 1 1 9 1 3 1 1.5 1 2 | 2 3 4 4 7 9 2 3 3 4 3 2 3 4 1.5 1.9 2.0 1.5 1 2 3 4 1 -1 1 2 | |
meld 6 | 0 0 0 0 | 2 3 4 4 7 9 2 3 3 4 3 2 3 4 1.5 1.9 2.0 1.5 1 2 3 4 1 -1 1 2 | 2 3 4 4 7 9 2 3 3 4 3 2 3 4 1.5 1.9 2.0 1.5 1 2 3 4 1 -1 1 2 | |
meld 6 | 2 3 4 4 7 9 2 3 3 4 3 2 3 4 1.5 1.9 2.0 1.5 1 2 3 4 1 -1 1 2 | 0 0 0 0 | 2 3 4 4 7 9 2 3 3 4 3 2 3 4 1.5 1.9 2.0 1.5 1 2 3 4 1 -1 1 2 | |
meld 6 | 2 3 4 4 0 1 2 3 0 1 0 1 3 4 2.0 0 1.1 1.2 1 2 3 4 2 -2 -1 -2 | 1 2 4 4 1 2 1 2 1 4 1 1.1 1.2 2.0 1 2 3 4 1 -1 1 -1 | 2 5 8 8 0 1 2 5 0 1 0 1 2 1 3 4 5 8 2.0 0 1.1 1.2 1 1.1 1.2 2.0 1 2 3 4 5 6 7 8 2 -2 -1 -2 1 -1 1 -1 | |
meld 6 | 4 4 5 5 0 2 7 19 1 2 3 4 2 0 2 2 1 2 3 5 1.0 1.1 2 0 1.2 1 2 3 4 5 -1 -1 2 -2 -2 | 2 2 2 2 38 84 1 2 1 2 1 2 1.1 2 1 2 1 1 | 6 6 7 7 0 2 7 19 38 84 1 2 3 4 5 6 2 0 2 2 1 2 1 2 3 5 6 7 1.0 1.1 2 0 1.2 1.1 2 1 2 3 4 5 6 7 -1 -1 2 -2 -2 1 1 | |
walk 7 | 2 3 4 4 7 9 2 3 3 4 3 2 3 4 1.5 1.9 2.0 1.5 1 2 3 4 1 -1 1 2 | | 7 3 1.5 1 7 3 1.9 -1 7 4 2.0 1 9 3 1.5 2 | |
walk 7 | 1 2 3 2 7 2 3 4 2 3 1.5 1.9 1.0 1 1 2 1 1 | | 7 3 1.5 1 7 4 1.0 1 | |
walk 7 | 2 5 8 5 0 1 2 5 0 1 0 1 2 1 3 4 5 8 2.0 0 1.1 1.2 1 1.1 1.2 2.0 0 1 2 2 3 4 4 5 -2 -1 1 -1 -1 | | 0 1 0 -2 0 1 1.1 -1 1 1 1 1 1 2 1.1 -1 1 2 2.0 -1 | |
walk 7 | 2 3 4 0 7 9 2 3 3 4 3 2 3 4 1.5 1.9 2.0 1.5 0 0 0 0 | | | |
survey 8 | 2 3 4 4 7 9 2 3 3 4 3 2 3 4 1.5 1.9 2.0 1.5 1 2 3 4 1 -1 1 2 | 1 1 2 2 7 1 3 2 1.5 1.9 1 2 1 -1 | 2 0 0 0 1 2 | |
survey 8 | 1 1 1 1 9 1 3 1 1.5 1 2 | 2 3 4 4 7 9 2 3 3 4 3 2 3 4 1.5 1.9 2.0 1.5 1 2 3 4 1 -1 1 2 | 1 0 1 2 0 1 | |
survey 8 | 2 5 8 8 0 1 2 5 0 1 0 1 2 1 3 4 5 8 2.0 0 1.1 1.2 1 1.1 1.2 2.0 1 2 3 4 5 6 7 8 2 -2 -1 -2 1 -1 1 -1 | 2 3 6 6 0 1 1 3 2 0 2 1 3 6 2 1 2.0 2 1.1 2.0 1 2 3 4 5 6 1 -2 -1 -1 -2 -2 | 2 0 0 2 1 1 | |
survey 8 | 5 5 5 5 10 20 48 55 72 1 2 3 4 5 2 1 1 0 1 1 2 3 4 5 1 0 2 1 1.1 1 2 3 4 5 1 1 1 1 2 | 6 6 7 7 0 2 7 19 38 84 1 2 3 4 5 6 2 0 2 2 1 2 1 2 3 5 6 7 1.0 1.1 2 0 1.2 1.1 2 1 2 3 4 5 6 7 -1 -1 2 -2 -2 1 1 | 1 0 3 0 0 1 1 3 4 0 1 2 1 4 5 0 2 5 1 5 6 | |
merge 9 | 2 3 4 4 7 9 2 3 3 4 3 2 3 4 1.5 1.9 2.0 1.5 1 2 3 4 1 -1 1 2 | 1 2 2 2 7 2 3 4 1 2 1.9 1.0 1 2 1 1 | 1 2 3 2 7 2 3 4 2 3 1.5 1.9 1.0 1 1 2 1 1 | 1 0 1 2 |
merge 9 | 1 2 2 2 7 2 3 4 1 2 1.9 1.0 1 2 1 1 | 2 3 4 4 7 9 2 3 3 4 3 2 3 4 1.5 1.9 2.0 1.5 1 2 3 4 1 -1 1 2 | 1 2 3 2 7 2 3 4 2 3 1.5 1.9 1.0 1 1 2 1 1 | 2 0 1 2 |
merge 9 | 2 3 4 4 7 9 2 3 3 4 3 2 3 4 1.5 1.9 2.0 1.5 1 2 3 4 1 -1 1 2 | 2 3 4 4 7 9 2 3 3 4 3 2 3 4 1.5 1.9 2.0 1.5 1 2 3 4 -1 1 -1 -2 | 2 3 4 0 7 9 2 3 3 4 3 2 3 4 1.5 1.9 2.0 1.5 0 0 0 0 | 0 0 0 0 |
merge 9 | 2 4 4 4 0 1 2 4 0 1 1 2 1 2 3 4 0 2.0 1.1 1 1 2 3 4 1 -2 -1 1 | 2 3 4 4 0 1 1 3 2 0 2 1 3 4 2 1 2.0 2 1 2 3 4 1 -2 -1 -1 | 2 6 7 7 0 1 3 6 0 1 2 0 1 2 1 2 3 5 6 7 0 2.0 2 1 2.0 1.1 1 1 2 3 4 5 6 7 1 -2 1 -2 -1 -1 1 | 2 1 2 3 |
";

// Every answer: how many there are, and how many are the same.
pub fn replay(rt: &impl Print) -> io::Result<()> {
    let cases = LINES.lines().count();
    let same = LINES
        .lines()
        .filter(|line| replayed(line) == Some(true))
        .count();
    println!(rt; "recorded: {cases} answers of the Rust, {same} the same")
}

// A word as the lines have it: a number, or the time `i.t`.
fn word(text: &str) -> Option<u64> {
    if let Ok(number) = text.parse::<i64>() {
        return Some(number.cast_unsigned());
    }
    let (ignition, tick) = text.split_once('.')?;
    let ignition = u64::from(ignition.parse::<u32>().ok()?);
    let tick = u64::from(tick.parse::<u32>().ok()?);
    Some(ignition * 0x1_0000_0000 + tick)
}

// The words of a field, at the front of 64 that are lent for them.
// Kept: the count is not only each word's place but how many there are, which `enumerate` doesn't leave.
fn words<'a>(field: &str, lent: &'a mut [u64; 64]) -> Option<&'a mut [u64]> {
    let mut count = 0;
    for text in field.split_ascii_whitespace() {
        *lent.get_mut(count)? = word(text)?;
        count += 1;
    }
    Some(&mut lent[..count])
}

// Whether the library answers a line as the Rust did; nothing where the line is none.
fn replayed(line: &str) -> Option<bool> {
    let mut fields = line.split('|');
    let call = fields.next()?.split_whitespace().next()?;
    let (mut a, mut b) = ([0; 64], [0; 64]);
    let (mut x, mut y, mut z) = ([0; 64], [0; 64], [0; 64]);
    let a = words(fields.next()?, &mut a)?;
    let b = words(fields.next()?, &mut b)?;
    let x = words(fields.next()?, &mut x)?;
    let y = words(fields.next()?, &mut y)?;
    let z = words(fields.next()?, &mut z)?;
    Some(answered(call, a, b, x, y, z))
}

// By the call's name.
// Kept: each call takes other fields, so a table of closures would say the same with more around it.
fn answered(call: &str, a: &mut [u64], b: &[u64], x: &[u64], y: &[u64], z: &[u64]) -> bool {
    match call {
        "form" => writes(|out| host::rl_form(a, out), x),
        "form_unsorted" => writes(|out| host::rl_form_unsorted(a, out), x),
        "filter" => writes(|out| host::rl_filter_zero(a, out), x),
        "split" => split(a, b, x, y),
        "extract" => extracted(a, b, x, y, z),
        "suffix" => suffixed(a, b, x),
        "meld" => writes(|out| host::rl_meld(a, b, out), x),
        "walk" => walked(a, x),
        "survey" => surveyed(a, b, x),
        "merge" => merged(a, b, x, y),
        _ => false,
    }
}

// Whether a call is accepted, and 64 words lent to it then hold these at their front.
fn writes<F: FnOnce(&mut [u64]) -> u64>(call: F, words: &[u64]) -> bool
    requires { F.IsAlwaysCallable call }
{
    crate::writes(call, 64, 0, crate::front(words))
}

fn split(a: &[u64], b: &[u64], x: &[u64], y: &[u64]) -> bool {
    let [n] = b else {
        return false;
    };
    let mut first = [5; 64];
    let mut rest = [5; 64];
    host::rl_split_at(a, *n, &mut first, &mut rest) == 0
        && first == crate::front(x)
        && rest == crate::front(y)
}

fn extracted(a: &[u64], b: &[u64], x: &[u64], y: &[u64], z: &[u64]) -> bool {
    let upper = frontier(b);
    let mut answer = [5; 130];
    let mut kept = [5; 64];
    let mut shipped = [5; 64];
    host::rl_extract(a, &upper, &mut answer, &mut kept, &mut shipped) == 0
        && answer[1] == z.len() as u64
        && answer[2..].starts_with(z)
        && kept == crate::front(x)
        && shipped == crate::front(y)
}

// A frontier's words.
fn frontier(corners: &[u64]) -> [u64; 129] {
    let mut upper = [5; 129];
    upper[0] = corners.len() as u64;
    for (place, corner) in upper[1..].iter_mut().zip(corners) {
        *place = *corner;
    }
    upper
}

fn suffixed(a: &[u64], b: &[u64], x: &[u64]) -> bool {
    let [k, v, t] = b else {
        return false;
    };
    writes(|out| host::rl_suffix_chunk(*k, *v, *t, a, out), x)
}

// A whole walk: each record, and then done.
fn walked(a: &[u64], x: &[u64]) -> bool {
    let mut walker = [0; 7];
    let mut found = [0; 4];
    if host::rl_walk_start(a, &mut walker) != 0 {
        return false;
    }
    for told in x.chunks(4) {
        if host::rl_walk_step(a, &mut walker, &mut found) != 0 || &found[..] != told {
            return false;
        }
    }
    host::rl_walk_step(a, &mut walker, &mut found) == 100
}

fn surveyed(a: &[u64], b: &[u64], x: &[u64]) -> bool {
    let mut answer = [5; 1];
    writes(|lent| host::rl_survey(a, b, lent, &mut answer), x) && answer == [(x.len() / 3) as u64]
}

fn merged(a: &[u64], b: &[u64], x: &[u64], y: &[u64]) -> bool {
    let mut scratch = [5; 96];
    let mut answer = [5; 4];
    writes(
        |out| host::rl_merge_pair(a, b, &mut scratch, out, &mut answer),
        x,
    ) && &answer[..] == y
}
