// Standard input, output and error of a program that works line by line. Nothing can be proved of what the
// operating system does with bytes.
#![tactic(auto)]

ghost use Rattle.std.specs.Prelude.{◌≡◌, ◌≤◌, length, OnOk};
ghost use Rattle.std.specs.Io.{ReadsAtMost, WritesAtMost};

use std::env::FillError;
use std::io::{Cursor, ErrorKind, Read, Stderr, Stdin, Stdout, Write};
use std::rt::Env;
use std::{io, thread};

// The three streams of a program.
#[derive(Clone, Copy)]
pub struct Streams {
    pub input: Stdin,
    pub output: Stdout,
    pub error: Stderr,
}

// Whether the program was given argument i, its own name counted as argument 0.
pub fn has_argument(rt: &impl Env, i: usize) -> bool {
    let mut text = [0u8; 1];
    !matches!(rt.arg(i, &mut text), Err(FillError::NotPresent))
}

// Whether the read or write that failed so may be tried again; another program gets to run first.
fn is_worth_another(e: &io::Error) -> bool {
    match e.kind() {
        ErrorKind::Interrupted => true,
        ErrorKind::WouldBlock => {
            thread::yield_now();
            true
        }
        _ => false,
    }
}

// What is left to say where a read or write was tried more often than any run can.
fn gave_up() -> io::Error {
    io::Error::from(ErrorKind::WouldBlock)
}

// Reads from standard input: how many bytes it gave, 0 at its end. A read is tried again while it would
// block. The tries are counted up to a number that no run uses up.
pub fn read_piece(streams: Streams, input: &mut [u8]) -> io::Result<usize>
    ensures { ReadsAtMost result input.new }
{
    let mut from = streams.input;
    for _ in 0..u64::MAX {
        match from.read(input) {
            Ok(n) => return Ok(n),
            Err(e) => {
                if !is_worth_another(&e) {
                    return Err(e);
                }
            }
        }
    }
    Err(gave_up())
}

// One write to standard output: how many of the bytes it took.
fn write_some(streams: Streams, bytes: &[u8]) -> io::Result<usize>
    ensures { WritesAtMost result bytes.now }
{
    let mut to = streams.output;
    let took = to.write(bytes)?;
    if took == 0 {
        return Err(io::Error::from(ErrorKind::WriteZero));
    }
    Ok(took)
}

// Writes to standard output, and tries again while it would block: how many of the bytes it took, and the
// error of the write that failed, where it did not take all.
pub fn write_out(streams: Streams, bytes: &[u8]) -> (usize, io::Result<()>)
    ensures count { result.0 ≤ length bytes.now }
    ensures whole { OnOk result.1 (result.0 ≡ length bytes.now) }
{
    let mut done = 0;
    for _ in 0..u64::MAX {
        if bytes.len() <= done {
            return (done, Ok(()));
        }
        match write_some(streams, &bytes[done..]) {
            Ok(took) => done += took,
            Err(e) => {
                if !is_worth_another(&e) {
                    return (done, Err(e));
                }
            }
        }
    }
    (done, Err(gave_up()))
}

// How many lines end in the bytes, and n more.
pub fn lines_more(bytes: &[u8], n: u64) -> u64 {
    bytes
        .iter()
        .fold(n, |lines, b| lines.wrapping_add(u64::from(*b == b'\n')))
}

// Reports a text on standard error.
pub fn say(streams: Streams, text: &[u8]) {
    let mut to = streams.error;
    let _ = to.write_all(text);
}

// Reports a text and a number on standard error.
pub fn say_number(streams: Streams, text: &[u8], n: u64) {
    let mut to = streams.error;
    let _ = to.write_all(text);
    let _ = write!(to, "{n}");
}

// Why a read or write failed: std's text, without the number that stands behind it in brackets.
fn say_reason(streams: Streams, e: io::Error) {
    let mut text = Cursor::new([b'('; 256]);
    let _ = write!(text, "{e}");
    let text = text.into_inner();
    let words = text.split(|b| *b == b'(').next();
    say(streams, words.unwrap_or(&text).trim_ascii_end());
}

// Reports on standard error what failed, after which line, and why.
pub fn say_failed(streams: Streams, what: &[u8], lines: u64, e: io::Error) {
    say_number(streams, what, lines);
    say(streams, b" lines: ");
    say_reason(streams, e);
    say(streams, b"\n");
}
