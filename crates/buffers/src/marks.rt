// Marks, the read sets of bytes: 4,096 octets for each of eight transactions, transaction t's from octet
// 4,096 × t on, a bit for each byte of the files in their order, lowest bit first.
ghost use Rattle.std.specs.Prelude.{◌&&◌, ◌≡◌, ℕ, ◌+◌, ◌*◌, ◌%◌, ◌<◌, ◌≤◌, length};
ghost use Rattle.limits.specs.Limits.{buffer_bytes, transaction_count};
ghost use Rattle.buffers.specs.Bits.{span, between, first_bits, last_bits};
ghost use Rattle.buffers.specs.Marks.{with_marks, without_marks, has_mark_in, contains};

use crate::transaction_sets::{contains, those};
use limits::MARK_OCTETS;

// The octet with the n bits from `low` on.
fn span(low: usize, n: usize) -> u8
    requires { low + n ≤ 8 }
    ensures { result ≡ span low n }
{
    ((1u16 << (low + n)) - (1u16 << low)) as u8
}

// Transaction t marks the n bytes from `from` on.
pub fn mark(marks: &mut [u8], t: usize, from: usize, n: usize)
    requires { (t < transaction_count) × ((from + n ≤ buffer_bytes) × (length marks.old ≡ buffer_bytes)) }
    ensures { marks.new ≡ with_marks t from n marks.old }
{
    let head = n.min((8 - from % 8) % 8);
    let whole = (n - head) / 8;
    let done = head + whole * 8;
    mark_bits(marks, t, from, head);
    mark_octets(marks, t, from + head, whole);
    mark_bits(marks, t, from + done, n - done);
}

// Transaction t marks n bytes whose marks stand in one octet.
fn mark_bits(marks: &mut [u8], t: usize, from: usize, n: usize)
    requires { (t < transaction_count)
        × ((from + n ≤ buffer_bytes) × ((from % 8 + n ≤ 8) × (length marks.old ≡ buffer_bytes))) }
    ensures { marks.new ≡ with_marks t from n marks.old }
{
    if n == 0 {
        return;
    }
    let i = MARK_OCTETS * t + from / 8;
    marks[i] |= span(from % 8, n);
}

// Transaction t marks the bytes whose marks are n whole octets.
fn mark_octets(marks: &mut [u8], t: usize, from: usize, n: usize)
    requires { (t < transaction_count)
        × ((from + 8 * n ≤ buffer_bytes) × ((0 < n → from % 8 ≡ 0) × (length marks.old ≡ buffer_bytes))) }
    ensures { marks.new ≡ with_marks t from (8 * n) marks.old }
{
    let start = MARK_OCTETS * t + from / 8;
    marks[start..start + n].fill(u8::MAX);
}

// Clears transaction t's marks.
pub fn unmark(marks: &mut [u8], t: usize)
    requires { (t < transaction_count) × (length marks.old ≡ buffer_bytes) }
    ensures { marks.new ≡ without_marks t marks.old }
{
    let start = MARK_OCTETS * t;
    marks[start..start + MARK_OCTETS].fill(0);
}

// Whether transaction t has marked some of the bytes from `from` on whose marks are n whole octets.
fn has_mark_in_octets(marks: &[u8], t: usize, from: usize, n: usize) -> bool
    requires { (t < transaction_count)
        × ((from + 8 * n ≤ buffer_bytes) × ((0 < n → from % 8 ≡ 0) × (length marks.now ≡ buffer_bytes))) }
    ensures { result ≡ has_mark_in marks.now t from (8 * n) }
{
    let start = MARK_OCTETS * t + from / 8;
    // All octets are joined, with no early end: so it runs as vector code.
    let octets = &marks[start..start + n];
    octets.iter().fold(0, |joined, octet| joined | octet) != 0
}

// How many whole octets stand between the first and the last of those that hold the marks of n bytes from
// `from` on.
fn between(from: usize, n: usize) -> usize
    ensures { result ≡ between from n }
{
    let head = n.min(8 - from % 8);
    (n - head).saturating_sub(1) / 8
}

// Whether transaction t has marked some of the n bytes from `from` on. Two masks are given: the bits of these
// bytes in the first of their octets, and in the last, where that is another.
fn has_mark_in(marks: &[u8], t: usize, from: usize, n: usize, first: u8, last: u8) -> bool
    requires t_lt_transaction_count { (t < transaction_count)
        × ((0 < n) × ((from + n ≤ buffer_bytes) × (length marks.now ≡ buffer_bytes))) }
    requires masks { (first ≡ first_bits from n) × (last ≡ last_bits from n) }
    ensures { result ≡ has_mark_in marks.now t from n }
{
    let start = MARK_OCTETS * t;
    let end = from + n - 1;
    let ends = (marks[start + from / 8] & first) | (marks[start + end / 8] & last);
    let head = n.min(8 - from % 8);
    ends != 0 || has_mark_in_octets(marks, t, from + head, between(from, n))
}

// Those of the watched transactions that have marked some of the n bytes from `from` on. The masks of their
// first octet and of their last one are made once for all of them.
pub fn markers(marks: &[u8], watched: u8, from: usize, n: usize) -> u8
    requires { (from + n ≤ buffer_bytes) × (length marks.now ≡ buffer_bytes) }
    ensures { (u : ℕ) → u < transaction_count
        → contains result u ≡ contains watched u && has_mark_in marks.now u from n }
{
    if n == 0 {
        return 0;
    }
    let head = n.min(8 - from % 8);
    let first = span(from % 8, head);
    let last = span(0, n - head - 8 * between(from, n));
    those(|u| contains(watched, u) && has_mark_in(marks, u, from, n, first, last))
}
