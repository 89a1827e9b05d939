// A broadcast channel on one store. Two loggers append to the as-run log, and neither waits. An editor
// repeats the playlist's first entry, and begins again when another task was quicker. Tasks whose calls are
// ready go to the dispatcher. Then the store is saved, while the editor has an entry written and not
// committed; a later run loads it, and undoes the last grant: no transaction is open then that could prevent
// it.
#![tactic(auto)]

mod printing;
mod saving;

use crate::printing::{end_line, offset_in, tell_end_of_log, tell_ends};
use crate::saving::{Saved, load_saved, save_committed};
use buffers::parts::part;
use dispatcher::dispatch;
use dispatcher::scripts::{ScriptCall, Scripts};
use std::io;
use store::{Answer, Buffer, FILE_BYTES, Outcome, Refusal, Store, offset_at};

// The minute of every commit. In a fresh store each file may change at any.
const MINUTE: usize = 0;

// The descriptors: of the as-run log, of the playlist, and one more of the playlist, which stays at its
// front.
const LOG: usize = 0;

const PLAYLIST: usize = 1;

const FRONT: usize = 2;

// The transactions of the editor and of its rival.
const EDITOR: usize = 3;

const RIVAL: usize = 4;

// How many bytes a playlist entry has, and how often the editor tries.
const ENTRY: usize = 8;

const TRIES: usize = 3;

// A refused call, on which the next ones build, ends the program.
fn needed(o: Outcome) -> io::Result<Answer> {
    o.map_err(|_| io::Error::other("a call was refused"))
}

// Begins transaction t and writes through descriptor d. Since t has not read d's offset, this is an append.
fn append(store: &mut Store, t: usize, d: usize, line: &[u8]) -> Outcome {
    store.begin(t)?;
    store.write(t, d, line)
}

// Commits transaction t, and prints the outcome. Answers whether it was stale, and has to begin again.
fn commit(rt: &impl Print, store: &mut Store, t: usize) -> io::Result<bool> {
    let o = store.commit(t, MINUTE);
    print!(rt; "commit {t}: ")?;
    end_line(rt, "granted", o)?;
    Ok(matches!(o, Err(Refusal::Stale)))
}

// Loggers 1 and 2 append a line each behind one descriptor, and 2 commits first. Both are granted.
fn log(rt: &impl Print, store: &mut Store) -> io::Result<()> {
    needed(append(store, 1, LOG, b"14:02 jingle\n"))?;
    needed(append(store, 2, LOG, b"14:03 news\n"))?;
    commit(rt, store, 2)?;
    commit(rt, store, 1)?;
    Ok(())
}

// The rival puts an entry into the playlist.
fn cue(rt: &impl Print, store: &mut Store, d: usize, entry: &[u8]) -> io::Result<()> {
    needed(append(store, RIVAL, d, entry))?;
    commit(rt, store, RIVAL)?;
    Ok(())
}

// The editor reads the playlist's first entry, and writes it again behind it.
fn repeat(store: &mut Store) -> Outcome {
    let mut entry = [0u8; ENTRY];
    store.begin(EDITOR)?;
    store.seek(EDITOR, PLAYLIST, 0)?;
    store.read(EDITOR, PLAYLIST, ENTRY, &mut entry)?;
    store.write(EDITOR, PLAYLIST, &entry)
}

// The editor's task: where the commit is refused as stale, it begins again, and reads what is committed by
// then. The rival has put in the first entry, and changes it during the editor's first try.
fn edit(rt: &impl Print, store: &mut Store) -> io::Result<()> {
    cue(rt, store, PLAYLIST, b"feature\n")?;
    for tries in 0..TRIES {
        needed(repeat(store))?;
        if tries == 0 {
            cue(rt, store, FRONT, b"trailer\n")?;
        }
        let stale = commit(rt, store, EDITOR)?;
        if !stale {
            break;
        }
    }
    Ok(())
}

// Three scripts: their lines are parts of one text, which is lent beside them.
fn tasks() -> Scripts {
    let scripts = Scripts::new(3);
    let scripts = scripts.then(0, ScriptCall::Write(LOG, 0, 12));
    let scripts = scripts.then(1, ScriptCall::Write(LOG, 12, 14));
    let scripts = scripts.then(2, ScriptCall::GetFilePointer(LOG));
    scripts.then(2, ScriptCall::Write(LOG, 26, 11))
}

// Prints the log's five lines, and the playlist's two entries.
fn show(rt: &impl Print, files: &Buffer) -> io::Result<()> {
    rt.write_all(part(files, 0, 61))?;
    rt.write_all(part(files, FILE_BYTES, 2 * ENTRY))
}

// Hands the scripts to the dispatcher.
fn run(rt: &impl Print, store: &mut Store) -> io::Result<()> {
    let text = b"14:04 promo\n14:05 weather\n14:06 film\n";
    let mut reader = [0u8; 1];
    let d = dispatch(
        &mut store.state,
        &mut store.files,
        &mut store.logs,
        &mut store.marks,
        &mut store.undo,
        tasks(),
        text,
        &mut reader,
        MINUTE,
    );
    tell_ends(rt, d)?;
    show(rt, &store.files)
}

// Asks where the log ends, and leaves nothing open.
fn ask(rt: &impl Print, store: &mut Store) -> io::Result<()> {
    needed(store.begin(1))?;
    let n = offset_in(store.get_file_pointer(1, LOG));
    needed(store.abort(1))?;
    tell_end_of_log(rt, n)
}

// A later run's work: the log ends where it did. The last grant, that of script 2, is undone.
fn go_on(rt: &impl Print, store: &mut Store) -> io::Result<()> {
    ask(rt, store)?;
    let o = store.undo_commit();
    print!(rt; "taking back: ")?;
    end_line(rt, "done", o)?;
    tell_end_of_log(rt, offset_at(&store.state, LOG))
}

// A later run: what was saved comes back, and logs and marks are new.
fn restart(rt: &impl Print, saved: Saved) -> io::Result<()> {
    let mut store = Store::new();
    load_saved(saved, &mut store.state, &mut store.files, &mut store.undo);
    go_on(rt, &mut store)
}

// A fresh store, with descriptors 1 and 2 in file 1 and all others in file 0.
fn main(rt: HostRuntime) -> io::Result<()> {
    let mut store = Store::new();
    let numbers = [0u8, 1, 1, 0, 0, 0, 0, 0, 0, 0, 0, 0, 0, 0, 0, 0];
    needed(store.fresh(&numbers))?;
    log(&rt, &mut store)?;
    edit(&rt, &mut store)?;
    run(&rt, &mut store)?;
    tell_end_of_log(&rt, offset_at(&store.state, LOG))?;
    needed(append(&mut store, EDITOR, PLAYLIST, b"credits\n"))?;
    restart(&rt, save_committed(&store.state, &store.files, &store.undo))
}
