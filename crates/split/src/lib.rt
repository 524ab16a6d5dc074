// Split: a settled chunk cut by count, each output written as a range of every layer.
#![tactic(auto)]

ghost use Rattle.chunk.specs.Answer.{answer_number};
ghost use Rattle.split.specs.Cut.{Split};

use chunk::{Range, Refusal};
use ranges::retain_cut;

mod ranges;

// Split: the first n records, and the rest, one output each. 5 where the chunk isn't well formed, 6 where it isn't settled, 13 where an output is short.
pub fn split_at(words: &[u64], n: u64, first: &mut [u64], rest: &mut [u64]) -> Result<(), Refusal>
    ensures { Split (answer_number result) first.new rest.new words.now n first.old rest.old }
{
    let chunk = chunk::settled(words)?;
    let size = chunk.contents.size;
    if first.len() < size || rest.len() < size {
        return Err(Refusal::OutputShort);
    }
    let all = chunk.contents.nt;
    let cut = (n as usize).min(all);
    retain_cut(
        chunk,
        Range {
            lower: 0,
            upper: cut,
        },
        first,
    );
    retain_cut(
        chunk,
        Range {
            lower: cut,
            upper: all,
        },
        rest,
    );
    Ok(())
}
