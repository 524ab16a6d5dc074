// A walker that the caller lends, started and advanced in place. Each of the two is thin over a covered function that takes the
// walker by value and always hands one back, so that nothing is decided behind the reference.
#![tactic(auto)]

ghost use Rattle.std.specs.Prelude.{◌≡◌};
ghost use Rattle.walk.specs.Answer.{started_of};
ghost use Rattle.walker.specs.Lent.{stepped_from, taken_of, walker_after, advanced_to, begun_of, walker_from, begun_at};

use chunk::Refusal;
use walk::{Record, Walker};

// The walker after a step, and what the step says: a record; that there is none left; or 5.
// Kept: beside `Begun`, since the theorems AdvanceSettles and BeginSettles speak of each.
#[derive(Clone, Copy)]
pub struct Advanced {
    pub walker: Walker,
    pub taken: Result<Option<Record>, Refusal>,
}

// The walker after a start, and whether it is taken or 5.
#[derive(Clone, Copy)]
pub struct Begun {
    pub walker: Walker,
    pub answer: Result<(), Refusal>,
}

// A step by value, with the walker that is then to stand behind the reference: past the record where one is given, else as it was.
pub fn advance(words: &[u64], w: Walker) -> Advanced
    ensures { result ≡ advanced_to w (stepped_from words.now w) }
{
    match walk::walk_step(words, w) {
        Ok(Some((found, past))) => Advanced {
            walker: past,
            taken: Ok(Some(found)),
        },
        Ok(None) => Advanced {
            walker: w,
            taken: Ok(None),
        },
        Err(refusal) => Advanced {
            walker: w,
            taken: Err(refusal),
        },
    }
}

// A start by value, with the walker that is then to stand behind the reference: the new one, or on 5 as it was.
pub fn begin(words: &[u64], w: Walker) -> Begun
    ensures { result ≡ begun_at w (started_of words.now) }
{
    match walk::walk_start(words) {
        Ok(walker) => Begun {
            walker,
            answer: Ok(()),
        },
        Err(refusal) => Begun {
            walker: w,
            answer: Err(refusal),
        },
    }
}

// One step of the walker that the caller lends, on any words and any walker.
pub fn step_in_place(words: &[u64], w: &mut Walker) -> Result<Option<Record>, Refusal>
    ensures { (result ≡ taken_of (stepped_from words.now w.old)) × (w.new ≡ walker_after w.old (stepped_from words.now w.old)) }
{
    let a = advance(words, *w);
    *w = a.walker;
    a.taken
}

// A start of the walker that the caller lends, on any words: it stands at the first place, or on 5 it is as it was.
pub fn start_in_place(words: &[u64], w: &mut Walker) -> Result<(), Refusal>
    ensures { (result ≡ begun_of (started_of words.now)) × (w.new ≡ walker_from w.old (started_of words.now)) }
{
    let s = begin(words, *w);
    *w = s.walker;
    s.answer
}

// A step through the lent form, for callers that hold their walker by value: it is lent here, stepped in place and handed back.
pub fn step_lent(words: &[u64], w: Walker) -> Advanced
    ensures { result ≡ advanced_to w (stepped_from words.now w) }
{
    let mut held = w;
    let taken = step_in_place(words, &mut held);
    Advanced {
        walker: held,
        taken,
    }
}
