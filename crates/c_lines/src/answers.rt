// The lines of answers: `= ` and what a call said. The answer comes as the 16 bits that C has of it: 32,768
// and more is a refusal, its number taken from 65,536.
ghost use Rattle.spec.specs.Promises.{lent_mut};
ghost use Rattle.std.specs.Prelude.{◌∷◌, [], ◌++◌, ◌+◌, ◌-◌, ◌*◌, ◌≤◌, length, take};
ghost use Rattle.limits.specs.Limits.{file_bytes};
ghost use Rattle.text_numerals.specs.Decimal.{spaced_texts};
ghost use Rattle.text_numerals.specs.Put.{Put};
ghost use Rattle.text_answers.specs.Printed.{ok};
ghost use Rattle.state.specs.Outcomes.{done_answer, pointer, given, pairs, ordered, refused, said};
ghost use Rattle.c_lines.specs.Lines.{PutsAnswer, said_by, spelled_line};

use crate::Text;
use limits::FILE_BYTES;
use state::outcomes::{Answer, Outcome};
use text_answers::{put_answer, put_ok};
use text_numerals::{put_byte, put_list, put_number, put_spaced};

// What is above 0 in 16 bits with a sign.
const RESULTS: u16 = 32768;

// `= `
fn put_head(out: &mut [u8]) -> usize
    requires { 8238 ≤ length out.old }
    ensures { Put out.old 0 (61 ∷ (32 ∷ [])) out.new result }
{
    let next = put_byte(out, 0, b'=');
    put_byte(out, next, b' ')
}

// A refusal.
fn put_refusal(out: &mut [u8], r: u16) -> usize
    requires { (8238 ≤ length out.old) × (32768 ≤ r) }
    ensures { PutsAnswer (refused (65536 - r)) [] (lent_mut out.old out.new) result }
{
    let next = put_head(out);
    let next = put_number(out, next, 65536 - usize::from(r));
    put_byte(out, next, b'\n')
}

// What was said, with at most 4,096 bytes of an answer.
fn put_said(out: &mut [u8], o: Outcome, buffer: &[u8]) -> usize
    requires { (8238 ≤ length out.old) × (length buffer.now ≤ file_bytes) }
    ensures { Put out.old 0
        (spelled_line (said o) buffer.now) out.new result }
{
    let next = put_head(out);
    let next = put_answer(out, next, o, buffer);
    put_byte(out, next, b'\n')
}

// ok
#[tactic(auto, unfolding(crate::specs::Lines::said_by, crate::specs::Lines::spelled_line, crate::specs::Lines::answer_line, text_log::specs::Answers::answer_text, text_answers::specs::Printed::spelled, state::specs::Outcomes::said))]
#[unsafe(no_mangle)]
pub extern "C" fn luzhanem_parts_line_done(out: &mut Text, r: u16) -> usize
    ensures { PutsAnswer (said_by (λ _. done_answer) r) [] (lent_mut out.old out.new) result }
{
    if RESULTS <= r {
        return put_refusal(out, r);
    }
    put_said(out, Ok(Answer::Done), b"")
}

// ok, and an offset or the octet of those made stale.
#[tactic(auto, unfolding(crate::specs::Lines::said_by, crate::specs::Lines::spelled_line, crate::specs::Lines::answer_line, text_log::specs::Answers::answer_text, text_answers::specs::Printed::spelled, state::specs::Outcomes::said))]
#[unsafe(no_mangle)]
pub extern "C" fn luzhanem_parts_line_number(out: &mut Text, r: u16) -> usize
    ensures { PutsAnswer (said_by pointer r) [] (lent_mut out.old out.new) result }
{
    if RESULTS <= r {
        return put_refusal(out, r);
    }
    put_said(out, Ok(Answer::Offset(r)), b"")
}

// ok, and the bytes of a Read, at the front of its buffer.
#[unsafe(no_mangle)]
pub extern "C" fn luzhanem_parts_line_given(out: &mut Text, r: u16, bytes: &[u8]) -> usize
    ensures { PutsAnswer (said_by given r) (take file_bytes bytes.now) (lent_mut out.old out.new) result }
{
    if RESULTS <= r {
        return put_refusal(out, r);
    }
    put_said(
        out,
        Ok(Answer::Given(r)),
        &bytes[..bytes.len().min(FILE_BYTES)],
    )
}

// ok, and offset and length of each of r places.
fn put_places(out: &mut [u8], r: u16, bytes: &[u8]) -> usize
    requires { (8238 ≤ length out.old) × (length bytes.now ≤ 256) }
    ensures { PutsAnswer (pairs r) bytes.now (lent_mut out.old out.new) result }
{
    let next = put_head(out);
    let next = text_log::put_reply(out, next, Ok(Answer::Pairs(r)), bytes);
    put_byte(out, next, b'\n')
}

// The same of those at the front of a buffer, or a refusal.
#[unsafe(no_mangle)]
pub extern "C" fn luzhanem_parts_line_pairs(out: &mut Text, r: u16, bytes: &[u8]) -> usize
    ensures { PutsAnswer (said_by pairs r) (take 256 bytes.now) (lent_mut out.old out.new) result }
{
    if RESULTS <= r {
        return put_refusal(out, r);
    }
    put_places(out, r, &bytes[..bytes.len().min(256)])
}

// ok, three numbers, and the order.
fn put_best(out: &mut [u8], at: usize, grants: u16, gap: u16, tried: u16, order: &[u8]) -> usize
    requires { at + 65 + 21 * length order.now ≤ length out.old }
    ensures { Put out.old at
        (ok ++ spaced_texts (grants ∷ gap ∷ tried ∷ order.now)) out.new result }
{
    let next = put_ok(out, at);
    let next = put_spaced(out, next, usize::from(grants));
    let next = put_spaced(out, next, usize::from(gap));
    let next = put_spaced(out, next, usize::from(tried));
    put_list(out, next, order)
}

// ok, the grants, the gap, how many orders were tried, and the order.
fn put_found(out: &mut [u8], grants: u16, gap: u16, tried: u16, order: &[u8]) -> usize
    requires { (8238 ≤ length out.old) × (length order.now ≤ 8) }
    ensures { PutsAnswer (ordered grants gap tried) order.now (lent_mut out.old out.new) result }
{
    let next = put_head(out);
    let next = put_best(out, next, grants, gap, tried, order);
    put_byte(out, next, b'\n')
}

// The same, or a refusal.
#[unsafe(no_mangle)]
pub extern "C" fn luzhanem_parts_line_ordered(
    out: &mut Text,
    r: u16,
    gap: u16,
    tried: u16,
    order: &[u8],
) -> usize
    ensures { PutsAnswer (said_by (λ g. ordered g gap tried) r) (take 8 order.now) (lent_mut out.old out.new) result }
{
    if RESULTS <= r {
        return put_refusal(out, r);
    }
    put_found(out, r, gap, tried, &order[..order.len().min(8)])
}
