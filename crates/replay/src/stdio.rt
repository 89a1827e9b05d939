// What the program reports on standard error.
use std::io;
use text_replay::answering::Tally;
use text_stdio::{Streams, say, say_failed, say_number};

// Reports that a read failed after so many lines.
pub fn say_log_unread(streams: Streams, lines: u64, e: io::Error) {
    say_failed(streams, b"replay: cannot read after ", lines, e);
}

// Reports that a write failed after so many lines.
pub fn say_log_unwritten(streams: Streams, lines: u64, e: io::Error) {
    say_failed(streams, b"replay: cannot write after ", lines, e);
}

// Reports that another version of the format ends the run.
pub fn say_version(streams: Streams, version: u64, line: u64) {
    say_number(streams, b"replay: line ", line);
    say_number(streams, b": version ", version);
    say(streams, b" is not known, the run ends here\n");
}

// Reports how many lines of a kind there were, and which was the first.
fn say_tally(streams: Streams, lines: Tally, kind: &[u8]) {
    say_number(streams, b"replay: ", lines.count);
    say_number(streams, kind, lines.first);
    say(streams, b"\n");
}

// Reports the lines of another form.
pub fn say_malformed(streams: Streams, lines: Tally) {
    say_tally(
        streams,
        lines,
        b" lines of another form (17), the first is line ",
    );
}

// Reports the answers that differed from those in the log.
pub fn say_differing(streams: Streams, lines: Tally) {
    say_tally(
        streams,
        lines,
        b" answers differ from those in the log, the first at line ",
    );
}

// Reports that lines of another form ended in byte 13.
pub fn say_log_returned(streams: Streams) {
    say(
        streams,
        b"replay: lines of another form (17) end in byte 13: a line ends in byte 10 alone\n",
    );
}

// Says that the block cannot be read, or has another length.
pub fn say_no_block(streams: Streams, path: &[u8]) {
    say(streams, b"replay: ");
    say(streams, path);
    say_number(
        streams,
        b" is no block of ",
        crate::blocks::BLOCK_BYTES as u64,
    );
    say(streams, b" bytes\n");
}

// Reports how the program is used.
pub fn say_replay_use(streams: Streams) {
    say(streams, b"replay [BLOCK] <log >answers\n");
    say(
        streams,
        b"It performs the calls of a log, a line each, on a fresh store or on a saved block, and",
    );
    say(streams, b" prints a line for each.\n");
    say(streams, b"docs/CALLLOG.md has the lines.\n");
}
