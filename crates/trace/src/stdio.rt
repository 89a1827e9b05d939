// What the program reports on standard error.
use std::io;
use text_stdio::{Streams, say, say_failed};

// Reports that a read failed after so many lines.
pub fn say_unread(streams: Streams, lines: u64, e: io::Error) {
    say_failed(streams, b"trace: cannot read after ", lines, e);
}

// Reports that a write failed after so many lines.
pub fn say_unwritten(streams: Streams, lines: u64, e: io::Error) {
    say_failed(streams, b"trace: cannot write after ", lines, e);
}

// Reports that lines of another form ended in byte 13.
pub fn say_returned(streams: Streams) {
    say(
        streams,
        b"trace: lines of another form (17) end in byte 13: a line ends in byte 10 alone\n",
    );
}

// Reports how the program is used.
pub fn say_use(streams: Streams) {
    say(
        streams,
        b"trace takes no arguments: trace <calls >answers\n",
    );
    say(
        streams,
        b"It performs calls, a line each, on a fresh store, and prints a line for each:\n",
    );
    say(
        streams,
        b"  B0 Begin, C0 Commit, A0 Abort; the digit is the transaction\n",
    );
    say(
        streams,
        b"  P0 3 GetFilePointer, S0 3 17 Seek, R0 3 5 Read, W0 3 text Write; 3 is the descriptor\n",
    );
    say(
        streams,
        b"Descriptor d is in file d mod 8. The answer is ok, with what was asked for,",
    );
    say(streams, b" or a refusal's number.\n");
}
