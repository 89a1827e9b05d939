// Outcomes as numbers.
ghost use Rattle.std.specs.Prelude.{◌<◌};

use state::outcomes::{Answer, Outcome, REFUSALS};

// The outcomes that are counted apart: five answers, a dispatcher that ran, a best order, then the refusals.
pub const COUNTS: usize = 7 + REFUSALS as usize;

// The code of an answer; 5 is a dispatcher's that ran.
fn answer_code(answer: Answer) -> u16
    ensures { result < 7 }
{
    match answer {
        Answer::Done => 0,
        Answer::Offset(_) => 1,
        Answer::Given(_) => 2,
        Answer::Granted(_) => 3,
        Answer::Pairs(_) => 4,
        Answer::Ordered(_, _, _) => 6,
    }
}

// The code of an outcome: that of its answer, 10 + n for refusal n.
pub fn outcome_code(outcome: Outcome) -> u16 {
    match outcome {
        Ok(answer) => answer_code(answer),
        Err(r) => 10 + u16::from(r.number()),
    }
}

// The number answered, 0 where there is none.
pub fn outcome_number(outcome: Outcome) -> u16 {
    match outcome {
        Ok(Answer::Done) | Err(_) => 0,
        Ok(Answer::Offset(n) | Answer::Given(n) | Answer::Pairs(n)) => n,
        Ok(Answer::Granted(n) | Answer::Ordered(n, _, _)) => u16::from(n),
    }
}

// Which of the counts an outcome adds to.
fn place(outcome: Outcome) -> usize
    ensures { result < 34 }
{
    match outcome {
        Ok(answer) => usize::from(answer_code(answer)),
        Err(r) => 6 + usize::from(r.number()),
    }
}

// The counts with one more at place k. No count passes the number of calls made, so that none wraps.
fn one_more(mut counts: [usize; COUNTS], k: usize) -> [usize; COUNTS]
    requires { k < 34 }
{
    counts[k] = counts[k].wrapping_add(1);
    counts
}

// The counts with one more of an outcome.
pub fn counted(counts: [usize; COUNTS], outcome: Outcome) -> [usize; COUNTS] {
    one_more(counts, place(outcome))
}

// The counts with one more dispatcher that ran.
pub fn counted_ran(counts: [usize; COUNTS]) -> [usize; COUNTS] {
    one_more(counts, 5)
}
