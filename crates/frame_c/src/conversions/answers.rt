// Answers as one number each.
ghost use Rattle.std.specs.Prelude.{◌≡◌};
ghost use Rattle.frame_c.specs.CAnswers.{refusal_answer_of, done_answer_of, value_answer_of, test_answer_of, passes_of};

use frame::packed::numbered_bits;
use frame::refusals::Refusal;

pub(crate) fn refusal_answer(refusal: Refusal) -> u64
    ensures { result ≡ refusal_answer_of refusal }
{
    numbered_bits(refusal.number, refusal.place)
}

// The answer of a call that gives nothing else.
pub(crate) fn done_answer(done: Result<(), Refusal>) -> u64
    ensures { result ≡ done_answer_of done }
{
    match done {
        Ok(()) => numbered_bits(0, 0),
        Err(refusal) => refusal_answer(refusal),
    }
}

// That of a call that gives a length or a place.
pub(crate) fn value_answer(found: Result<usize, Refusal>) -> u64
    ensures { result ≡ value_answer_of found }
{
    match found {
        Ok(value) => numbered_bits(0, value),
        Err(refusal) => refusal_answer(refusal),
    }
}

// The answer of a MIC test. passes becomes 1 or 0; where the test is refused it stays.
pub(crate) fn test_answer(test: Result<bool, Refusal>, passes: &mut u8) -> u64
    ensures value { result ≡ test_answer_of test }
    ensures passes_after { passes.new ≡ passes_of test passes.old }
{
    match test {
        Ok(right) => {
            *passes = u8::from(right);
            numbered_bits(0, 0)
        }
        Err(refusal) => refusal_answer(refusal),
    }
}
