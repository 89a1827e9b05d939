// A Read's bytes, run by run.
#![tactic(auto)]

ghost use Rattle.spec.specs.Promises.{lent_mut, lent_shared};
ghost use Rattle.std.specs.Prelude.{◌≡◌, ◌+◌, ◌≤◌, ◌++◌, drop, length};
ghost use Rattle.limits.specs.Limits.{file_bytes, log_bytes};
ghost use Rattle.buffers.specs.Parts.{pasted};
ghost use Rattle.read_lookup.specs.Lookup.{recorded_in, own_reach, RunOf};
ghost use Rattle.read_fetch.specs.Fetch.{Handed, HandedWhole, run_extent, visited_by};
ghost use Rattle.read_fetch.specs.Fetch.{reader_within, marks_within};

use buffers::marks::mark;
use buffers::parts;
use counters::Used;
use limits::{FILE_BYTES, LOG_BYTES};
use read_lookup::{Extent, Records, Run};

// What supplies a Read's bytes: the transaction's write records with its part of the logs, and the file.
#[derive(Clone, Copy)]
struct Sources<'a> {
    records: Records<'a>,
    file: &'a [u8],
    log: &'a [u8],
    ghost file_length: { length file.now ≡ file_bytes },
    ghost log_length: { length log.now ≡ log_bytes },
}

impl<'a> Sources<'a> {
    ghost use Rattle.read_fetch.specs.Supplied.{bytes_of, marks_with};

    // Copies the run at the front of the places to the reader's buffer, from `at` on, and marks it if the
    // file supplied it.
    fn copy_run(&self, marks: &mut [u8], e: Extent, reader: &mut [u8], at: usize) -> Run
        requires handed { Handed marks.old e }
        requires room { (1 ≤ e.length) × (at + e.length ≤ length reader.old) }
        ensures run { RunOf (recorded_in self.now.records.state.now) self.now.records.t self.now.records.used.records e result }
        ensures reader { reader.new ≡ pasted reader.old at (bytes_of self.now (run_extent e result)) }
        ensures marks { marks.new ≡ marks_with self.now (run_extent e result) marks.old }
    {
        let r = self.records.latest_write(e);
        let logged = r.supplier.is_some();
        let bytes = parts::run(self.log, self.file, logged, r.at, r.length);
        parts::copy_to(reader, at, bytes);
        if logged {
            return r;
        }
        let from = FILE_BYTES * usize::from(e.file) + e.place;
        mark(marks, self.records.t, from, r.length);
        r
    }

    // Copies the bytes of the places to the front of the reader's buffer, and marks those that the file
    // supplied.
    fn copy_runs(&self, marks: &mut [u8], e: Extent, reader: &mut [u8])
        requires handed { Handed marks.old e }
        requires room { e.length ≤ length reader.old }
        ensures reader { reader.new ≡ bytes_of self.now e ++ drop e.length reader.old }
        ensures marks { marks.new ≡ marks_with self.now e marks.old }
    {
        let mut i = 0;
        // A while: the step is the length of the run that was copied.
        while i < e.length {
            let rest = Extent {
                file: e.file,
                place: e.place + i,
                length: e.length - i,
            };
            let r = self.copy_run(marks, rest, reader, i);
            i += r.length;
        }
    }
}

// The write records that a fetch visits, where the transaction's own writes end in the file at `own`: none
// where that is 0, for the file then supplies every place.
fn visited(used: Used, own: usize) -> Used
    ensures { result ≡ visited_by used own }
{
    if own == 0 {
        return Used {
            records: 0,
            bytes: 0,
        };
    }
    used
}

// Fetches from the whole buffers: from the file's part of the files and the transaction's part of the logs.
// The transaction's own writes end in the file at `own`.
pub fn copy_bytes<'a>(
    records: &Records<'a>,
    files: &'a [u8],
    logs: &'a [u8],
    marks: &mut [u8],
    e: Extent,
    own: usize,
    reader: &mut [u8],
)
    requires handed { HandedWhole files.now logs.now marks.old e }
    requires room { e.length ≤ length reader.old }
    requires ends { own ≡ own_reach records.now.state.now records.now.t records.now.used.records e.file }
    ensures reader { reader.new ≡ reader_within (lent_shared records.now.state.now) (lent_shared files.now) (lent_shared logs.now) records.now.t records.now.used e (lent_mut reader.old reader.new) }
    ensures marks { marks.new ≡ marks_within (lent_shared records.now.state.now) (lent_shared files.now) (lent_shared logs.now) (lent_mut marks.old marks.new) records.now.t records.now.used e }
{
    let walked = Records {
        state: records.state,
        t: records.t,
        used: visited(records.used, own),
    };
    let sources = Sources {
        records: walked,
        file: parts::file_part(files, usize::from(e.file)),
        log: parts::part(logs, LOG_BYTES * records.t, LOG_BYTES),
    };
    sources.copy_runs(marks, e, reader);
}
