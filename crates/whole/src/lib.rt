// Merge with its zero filter and the survivor's suffix, for a program that makes the three at once.
#![tactic(auto)]

ghost use Rattle.std.specs.Prelude.{◌≡◌};
ghost use Rattle.chunk.specs.Answer.{answer_number};
ghost use Rattle.merge.specs.Outcome.{joined_of};
ghost use Rattle.whole.specs.Whole.{rest_number, rest_out, survives_of, WholeAnswers};

use chunk::Refusal;
use merge::Survivor;

// Writes the survivor's suffix; where nobody survives there is nothing to write.
fn write_rest(
    survivor: Survivor,
    words0: &[u64],
    words1: &[u64],
    rest: &mut [u64],
) -> Result<(), Refusal>
    ensures value { answer_number result ≡ rest_number (survives_of survivor) words0.now words1.now rest.old }
    ensures rest_after { rest.new ≡ rest_out (survives_of survivor) words0.now words1.now rest.old }
{
    match survivor {
        Survivor::Nobody => Ok(()),
        Survivor::First(cursor) => merge::suffix_chunk(cursor, words0, rest),
        Survivor::Second(cursor) => merge::suffix_chunk(cursor, words1, rest),
    }
}

// Merges into `out`, filters that into `clean`, and writes the survivor's suffix into `rest`. The first refusal ends it and is the answer; what was
// written before it stays. Where nobody survives, `rest` is as it was.
pub fn merge_whole(
    words0: &[u64],
    words1: &[u64],
    scratch: &mut [u64],
    out: &mut [u64],
    clean: &mut [u64],
    rest: &mut [u64],
) -> Result<Survivor, Refusal>
    ensures { WholeAnswers words0.now words1.now scratch.old out.old clean.old rest.old (joined_of result) out.new clean.new rest.new scratch.new }
{
    let survivor = merge::merge_pair(words0, words1, scratch, out)?;
    retain::filter_zero(out, clean)?;
    write_rest(survivor, words0, words1, rest)?;
    Ok(survivor)
}
