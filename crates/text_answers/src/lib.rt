// The line that a trace prints for a reply, put into a lent buffer. Each function answers the place after
// what it put.
#![tactic(auto)]

ghost use Rattle.std.specs.Prelude.{◌+◌, ◌*◌, ◌≤◌, length, take};
ghost use Rattle.state.specs.Outcomes.{said};
ghost use Rattle.text_answers.specs.Printed.{decimal, ok as ok_text, ok_number};
ghost use Rattle.text_numerals.specs.Put.{Put};
ghost use Rattle.text_answers.specs.Printed.{ok_bytes, spelled, printed};

use buffers::parts::copy_to;
use state::outcomes::{Answer, Outcome};
use text_numerals::{put_byte, put_number, put_pairs};

// A number in decimal.
fn put_decimal(out: &mut [u8], at: usize, n: u16) -> usize
    requires { at + length (decimal n) ≤ length out.old }
    ensures { Put out.old at (decimal n) out.new result }
{
    put_number(out, at, usize::from(n))
}

// The two bytes ok.
pub fn put_ok(out: &mut [u8], at: usize) -> usize
    requires { at + 2 ≤ length out.old }
    ensures { Put out.old at ok_text out.new result }
{
    copy_to(out, at, b"ok");
    at + 2
}

// ok, a space and a number.
fn put_ok_number(out: &mut [u8], at: usize, n: u16) -> usize
    requires { at + 8 ≤ length out.old }
    ensures { Put out.old at (ok_number n) out.new result }
{
    let next = put_ok(out, at);
    let next = put_byte(out, next, b' ');
    put_decimal(out, next, n)
}

// ok, and a space and bytes where there are any.
fn put_ok_bytes(out: &mut [u8], at: usize, bytes: &[u8]) -> usize
    requires { at + 3 + 2 * length bytes.now ≤ length out.old }
    ensures { Put out.old at (ok_bytes bytes.now) out.new result }
{
    let next = put_ok(out, at);
    if bytes.len() == 0 {
        return next;
    }
    let next = put_byte(out, next, b' ');
    put_pairs(out, next, bytes)
}

// The bytes of a Read, n at the front of the reader's buffer.
fn put_given(out: &mut [u8], at: usize, n: u16, reader: &[u8]) -> usize
    requires { at + 3 + 2 * length reader.now ≤ length out.old }
    ensures { Put out.old at (ok_bytes (take n reader.now))
        out.new result }
{
    let end = usize::from(n).min(reader.len());
    put_ok_bytes(out, at, &reader[..end])
}

// What was answered, without the line's end.
#[tactic(auto, unfolding(crate::specs::Printed::spelled, state::specs::Outcomes::said))]
pub fn put_answer(out: &mut [u8], at: usize, outcome: Outcome, reader: &[u8]) -> usize
    requires { at + 8 + 2 * length reader.now ≤ length out.old }
    ensures { Put out.old at (spelled (said outcome) reader.now)
        out.new result }
{
    match outcome {
        Ok(Answer::Done) => put_ok(out, at),
        Ok(Answer::Offset(n) | Answer::Pairs(n)) => put_ok_number(out, at, n),
        Ok(Answer::Given(n)) => put_given(out, at, n, reader),
        Ok(Answer::Granted(n) | Answer::Ordered(n, _, _)) => put_ok_number(out, at, u16::from(n)),
        Err(r) => put_decimal(out, at, r.number() as u16),
    }
}

// The line of a reply: what was answered, with the bytes of a Read from the reader's buffer, and the line's
// end.
pub fn print_answer(out: &mut [u8], at: usize, outcome: Outcome, reader: &[u8]) -> usize
    requires { at + 9 + 2 * length reader.now ≤ length out.old }
    ensures { Put out.old at
        (printed (record { answer = said outcome; buffer = reader.now })) out.new result
        × (result ≤ length out.new) }
{
    let next = put_answer(out, at, outcome, reader);
    put_byte(out, next, b'\n')
}
