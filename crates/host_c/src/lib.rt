// The calls for C (`host/rafterloop.h`): each hands what it is given to the function of the crate `host` that has its name, and has its clauses.
#![tactic(auto)]

ghost use Rattle.std.specs.Prelude.{◌≡◌};
ghost use Rattle.form.specs.Form.{FormAnswers, UnsortedAnswers};
ghost use Rattle.meld.specs.Meld.{Melded};
ghost use Rattle.retain.specs.Cut.{filter_number, filter_out};
ghost use Rattle.split.specs.Cut.{Split};
ghost use Rattle.reports.specs.Merge.{suffix_number, suffix_out};
ghost use Rattle.host.specs.Answers.{check_number, check_answer, start_number, start_answer, Answers};
ghost use Rattle.host.specs.Extracts.{ExtractAnswers};
ghost use Rattle.host.specs.Listing.{SurveyAnswers};
ghost use Rattle.host.specs.Merges.{PairAnswers, AllAnswers};
ghost use Rattle.host.specs.Steps.{StepAnswers};

// The check of a chunk; its answer is settled (0 or 1), nk, nv, nt, nd.
// Kept: each hands on what it is given, since a crate is a library or a static library, and the yard uses the calls as a library.
#[unsafe(no_mangle)]
pub extern "C" fn rl_check(words: &[u64], answer: &mut [u64]) -> u64
    ensures { Answers (check_number words.now answer.old) (check_answer words.now answer.old) result answer.new }
{
    host::rl_check(words, answer)
}

// The settled chunk of updates that never fall.
#[unsafe(no_mangle)]
pub extern "C" fn rl_form(updates: &[u64], out: &mut [u64]) -> u64
    ensures { FormAnswers updates.now out.old result out.new }
{
    host::rl_form(updates, out)
}

// The settled chunk of updates in any order, which are left sorted.
#[unsafe(no_mangle)]
pub extern "C" fn rl_form_unsorted(updates: &mut [u64], out: &mut [u64]) -> u64
    ensures { UnsortedAnswers updates.old out.old result updates.new out.new }
{
    host::rl_form_unsorted(updates, out)
}

// Chunk `b` behind chunk `a`.
#[unsafe(no_mangle)]
pub extern "C" fn rl_meld(a: &[u64], b: &[u64], out: &mut [u64]) -> u64
    ensures { Melded a.now b.now out.old result out.new }
{
    host::rl_meld(a, b, out)
}

// The chunk without the times that have no diff.
#[unsafe(no_mangle)]
pub extern "C" fn rl_filter_zero(words: &[u64], out: &mut [u64]) -> u64
    ensures { (result ≡ filter_number words.now out.old) × (out.new ≡ filter_out words.now out.old) }
{
    host::rl_filter_zero(words, out)
}

// The first n records, and the rest.
#[unsafe(no_mangle)]
pub extern "C" fn rl_split_at(words: &[u64], n: u64, first: &mut [u64], rest: &mut [u64]) -> u64
    ensures { Split result first.new rest.new words.now n first.old rest.old }
{
    host::rl_split_at(words, n, first, rest)
}

// The chunk of the records from the time at index t on, whose key and value are at k and v.
#[unsafe(no_mangle)]
pub extern "C" fn rl_suffix_chunk(k: u64, v: u64, t: u64, words: &[u64], out: &mut [u64]) -> u64
    ensures value { result ≡ suffix_number (record { k = k; v = v; t = t }) words.now out.old }
    ensures out_after { out.new ≡ suffix_out (record { k = k; v = v; t = t }) words.now out.old }
{
    host::rl_suffix_chunk(k, v, t, words, out)
}

// Where a walk starts: the walker's seven words.
#[unsafe(no_mangle)]
pub extern "C" fn rl_walk_start(words: &[u64], walker: &mut [u64]) -> u64
    ensures { Answers (start_number words.now walker.old) (start_answer words.now walker.old) result walker.new }
{
    host::rl_walk_start(words, walker)
}

// One step of a walk: the walker's words go past the next record, whose words are given; or DONE, or 5, and nothing changes.
#[unsafe(no_mangle)]
pub extern "C" fn rl_walk_step(words: &[u64], walker: &mut [u64], found: &mut [u64]) -> u64
    ensures { StepAnswers words.now walker.old found.old result walker.new found.new }
{
    host::rl_walk_step(words, walker, found)
}

// The open records of a chunk kept and the others shipped; the answer is the verdict and the kept times' frontier.
#[unsafe(no_mangle)]
pub extern "C" fn rl_extract(
    words: &[u64],
    upper: &[u64],
    answer: &mut [u64],
    kept: &mut [u64],
    shipped: &mut [u64],
) -> u64
    ensures { ExtractAnswers words.now upper.now answer.old kept.old shipped.old result answer.new kept.new shipped.new }
{
    host::rl_extract(words, upper, answer, kept, shipped)
}

// The survey of two chunks' keys: three words to a report in the lent words, and their number in the answer.
#[unsafe(no_mangle)]
pub extern "C" fn rl_survey(a: &[u64], b: &[u64], lent: &mut [u64], answer: &mut [u64]) -> u64
    ensures { SurveyAnswers a.now b.now lent.old answer.old result lent.new answer.new }
{
    host::rl_survey(a, b, lent, answer)
}

// Two chunks merged up to the smaller of their last positions; the answer is the survivor and its cursor.
#[unsafe(no_mangle)]
pub extern "C" fn rl_merge_pair(
    words0: &[u64],
    words1: &[u64],
    scratch: &mut [u64],
    out: &mut [u64],
    answer: &mut [u64],
) -> u64
    ensures { PairAnswers words0.now words1.now scratch.old out.old answer.old result answer.new out.new scratch.new }
{
    host::rl_merge_pair(words0, words1, scratch, out, answer)
}

// The whole merge: into `out`, that without the times that have no diff into `clean`, and the survivor's suffix into `rest`.
#[unsafe(no_mangle)]
pub extern "C" fn rl_merge_whole(
    words0: &[u64],
    words1: &[u64],
    scratch: &mut [u64],
    out: &mut [u64],
    clean: &mut [u64],
    rest: &mut [u64],
    answer: &mut [u64],
) -> u64
    ensures { AllAnswers words0.now words1.now scratch.old out.old clean.old rest.old answer.old result answer.new out.new clean.new rest.new scratch.new }
{
    host::rl_merge_whole(words0, words1, scratch, out, clean, rest, answer)
}
