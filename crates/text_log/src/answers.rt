// The lines of answers. specs/Answers.antt says which form an answer has.
ghost use Rattle.std.specs.Prelude.{◌≡◌, ◌∷◌, [], ◌++◌, ◌+◌, ◌*◌, ◌≤◌, length, take};
ghost use Rattle.text_numerals.specs.Decimal.{spaced_texts};
ghost use Rattle.text_numerals.specs.Put.{Put};
ghost use Rattle.text_answers.specs.Printed.{ok};
ghost use Rattle.state.specs.Outcomes.{said};
ghost use Rattle.text_log.specs.Answers.{words_of, answer_text};

use state::outcomes::{Answer, Outcome};
use text_answers::{put_answer, put_ok};
use text_numerals::{put_byte, put_list, put_spaced};

// A number of 16 bits, its high byte first.
fn word(high: u8, low: u8) -> usize
    ensures { result ≡ high * 256 + low }
{
    usize::from(high) * 256 + usize::from(low)
}

// Numbers of 16 bits in decimal, each behind one space.
fn put_words(out: &mut [u8], at: usize, bytes: &[u8]) -> usize
    requires { at + 11 * length bytes.now ≤ length out.old }
    ensures { Put out.old at (spaced_texts (words_of bytes.now))
        out.new result }
{
    let mut next = at;
    for i in 0..bytes.len() / 2 {
        let w = word(bytes[2 * i], bytes[2 * i + 1]);
        next = put_spaced(out, next, w);
    }
    next
}

// ok, and n pairs of offset and length at the front of a buffer.
fn put_places(out: &mut [u8], at: usize, n: u16, buffer: &[u8]) -> usize
    requires { at + 2 + 11 * length buffer.now ≤ length out.old }
    ensures { Put out.old at
        (ok ++ spaced_texts (words_of (take (4 * n) buffer.now))) out.new result }
{
    let next = put_ok(out, at);
    let end = buffer.len().min(4 * usize::from(n));
    put_words(out, next, &buffer[..end])
}

// ok, the grants, the gap, how many orders were tried, and the order.
fn put_best(out: &mut [u8], at: usize, grants: u8, gap: u8, tried: u16, order: &[u8]) -> usize
    requires { at + 65 + 21 * length order.now ≤ length out.old }
    ensures { Put out.old at
        (ok ++ spaced_texts (grants ∷ gap ∷ tried ∷ order.now)) out.new result }
{
    let next = put_ok(out, at);
    let next = put_spaced(out, next, usize::from(grants));
    let next = put_spaced(out, next, usize::from(gap));
    let next = put_spaced(out, next, usize::from(tried));
    put_list(out, next, order)
}

// What was answered, with the buffer for an answer, without the line's end.
#[tactic(auto, unfolding(crate::specs::Answers::answer_text, state::specs::Outcomes::said))]
pub fn put_reply(out: &mut [u8], at: usize, outcome: Outcome, buffer: &[u8]) -> usize
    requires { at + 65 + 21 * length buffer.now ≤ length out.old }
    ensures { Put out.old at (answer_text (said outcome) buffer.now)
        out.new result }
{
    match outcome {
        Ok(Answer::Pairs(n)) => put_places(out, at, n, buffer),
        Ok(Answer::Ordered(grants, gap, tried)) => put_best(out, at, grants, gap, tried, buffer),
        Ok(Answer::Done | Answer::Offset(_) | Answer::Given(_) | Answer::Granted(_)) | Err(_) => {
            put_answer(out, at, outcome, buffer)
        }
    }
}
