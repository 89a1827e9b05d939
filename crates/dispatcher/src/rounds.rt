// The rounds. Each begins every script that goes on, gives each one call in turn until none has a call left,
// and then commits them (R-13.3).
ghost use Rattle.std.specs.Prelude.{List, ◌≡◌, true, cond, not, length, ℕ, ◌+◌, ◌*◌, ◌<◌, ◌≤◌};
ghost use Rattle.limits.specs.Limits.{script_count, script_calls};
ghost use Rattle.state.specs.Outcomes.{number, said};
ghost use Rattle.admission.specs.FirstRefusal.{below};
ghost use Rattle.admission.specs.Admission.{gate_number};
ghost use Rattle.spec.specs.Messages.{begin};
ghost use Rattle.spec.specs.Promises.{lent_mut, lent_shared, machine_of};
ghost use Rattle.spec_dispatch.specs.Rounds.{Scripts as SomeScripts, part_in, scripts_in, goes_on, with_call};
ghost use Rattle.spec_dispatch.specs.Rounds.{failing, decided, refusal_in};
ghost use Rattle.spec_dispatch.specs.Rounds.{begins, perform, turns, passes, commit_one, commit_all, round};
ghost use Rattle.spec_dispatch.specs.Dispatch.{store_reply, work_on_store};
ghost use Rattle.dispatcher.specs.Types.{script_call_of, scripts_of, end_at};
ghost use Rattle.dispatcher.specs.Steps.{WorkStands, CarriesStep, Steps, StepsAside};

use crate::calls::make;
use crate::ends::{End, Ended, Ends};
use crate::scripts::{SCRIPT_CALLS, SCRIPTS, ScriptCall, Scripts};
use state::layout::State;
use state::outcomes::{Outcome, Refusal};

// The ends of the scripts, and the number of Commits made.
#[derive(Clone, Copy)]
pub struct DispatchProgress {
    pub ends: [Ended; SCRIPTS],
    pub commits: usize,
}

// Script k goes on.
#[tactic(auto, unfolding(spec_dispatch::specs::Rounds::goes_on, crate::specs::Types::end_of_script))]
fn goes_on(ends: Ends, k: usize) -> bool
    requires { k < script_count }
    ensures { result ≡ goes_on (end_at ends k) }
{
    let e = ends[k];
    matches!(e.end, End::Unfinished)
}

// Every script below n is over.
fn all_over(ends: Ends, n: usize) -> bool
    requires { n ≤ script_count }
    ensures { result ≡ below (λ k. not (goes_on (end_at ends k))) n }
{
    for k in 0..n {
        if goes_on(ends, k) {
            return false;
        }
    }
    true
}

// Script k fails with the refusal, and is aborted: it is still open.
fn fail(
    state: &mut State,
    files: &[u8],
    logs: &[u8],
    marks: &mut [u8],
    undo: &[u8],
    ends: Ends,
    k: usize,
    r: Refusal,
) -> Ends
    requires { k < script_count }
    ensures { StepsAside (λ m w. failing k (number r) w) (lent_mut state.old state.new) (lent_shared files.now) (lent_shared logs.now) (lent_mut marks.old marks.new) (lent_shared undo.now) ends result }
{
    let _ = store::abort(state, files, logs, marks, undo, k);
    let mut out = ends;
    out[k] = Ended {
        end: End::Failed(r),
    };
    out
}

// After the Commit of script k: it was granted, is stale and goes on, or another refusal ends it.
fn decide(
    state: &mut State,
    files: &[u8],
    logs: &[u8],
    marks: &mut [u8],
    undo: &[u8],
    ends: Ends,
    k: usize,
    o: Outcome,
) -> Ends
    requires { k < script_count }
    ensures { StepsAside (λ m w. decided k (refusal_in (said o)) w) (lent_mut state.old state.new) (lent_shared files.now) (lent_shared logs.now) (lent_mut marks.old marks.new) (lent_shared undo.now) ends result }
{
    match o {
        Ok(_) => {
            let mut out = ends;
            out[k] = Ended { end: End::Granted };
            out
        }
        Err(r) => {
            if r == Refusal::Stale {
                return ends;
            }
            fail(state, files, logs, marks, undo, ends, k, r)
        }
    }
}

// Begins script k, if it goes on.
fn begin_one(
    state: &mut State,
    files: &[u8],
    logs: &[u8],
    marks: &mut [u8],
    undo: &[u8],
    ends: Ends,
    k: usize,
)
    requires { k < script_count }
    ensures { StepsAside (λ m w. cond (goes_on (w.ends k)) (with_call (begin k) w) w)
        (lent_mut state.old state.new) (lent_shared files.now) (lent_shared logs.now) (lent_mut marks.old marks.new) (lent_shared undo.now) ends ends }
{
    if goes_on(ends, k) {
        let _ = store::begin(state, files, logs, marks, undo, k);
    }
}

// Begins each script that goes on.
fn begin_all(
    state: &mut State,
    files: &[u8],
    logs: &[u8],
    marks: &mut [u8],
    undo: &[u8],
    ends: Ends,
    count: usize,
)
    requires { count ≤ script_count }
    ensures { (bytes : List ℕ) (minute : ℕ) (x : SomeScripts)
        → StepsAside (λ m. begins (store_reply m) bytes minute x count)
        (lent_mut state.old state.new) (lent_shared files.now) (lent_shared logs.now) (lent_mut marks.old marks.new) (lent_shared undo.now) ends ends }
{
    for k in 0..count {
        begin_one(state, files, logs, marks, undo, ends, k);
    }
}

// Makes a call of script k: a refusal ends the script.
fn take_turn(
    state: &mut State,
    files: &mut [u8],
    logs: &mut [u8],
    marks: &mut [u8],
    undo: &mut [u8],
    k: usize,
    call: ScriptCall,
    bytes: &[u8],
    reader: &mut [u8],
    ends: Ends,
) -> Ends
    requires { (k < script_count) × (part_in (length bytes.now) (script_call_of call) ≡ true) }
    ensures { (minute : ℕ) (x : SomeScripts)
        → Steps (λ m w. perform (store_reply m) bytes.now minute x k (script_call_of call) w)
        (lent_mut state.old state.new) (lent_mut files.old files.new) (lent_mut logs.old logs.new) (lent_mut marks.old marks.new) (lent_mut undo.old undo.new) (lent_mut reader.old reader.new) ends result }
{
    match make(state, files, logs, marks, undo, k, call, bytes, reader) {
        Ok(()) => ends,
        Err(r) => fail(state, files, logs, marks, undo, ends, k, r),
    }
}

// Call i of each script that has one and goes on, in order.
fn make_pass(
    state: &mut State,
    files: &mut [u8],
    logs: &mut [u8],
    marks: &mut [u8],
    undo: &mut [u8],
    scripts: &Scripts,
    i: usize,
    bytes: &[u8],
    reader: &mut [u8],
    ends: Ends,
) -> Ends
    requires { (i < script_calls) × (scripts_in (length bytes.now) (scripts_of scripts.now) ≡ true) }
    ensures { (minute : ℕ)
        → Steps (λ m. turns (store_reply m) bytes.now minute (scripts_of scripts.now) i scripts.now.count)
        (lent_mut state.old state.new) (lent_mut files.old files.new) (lent_mut logs.old logs.new) (lent_mut marks.old marks.new) (lent_mut undo.old undo.new) (lent_mut reader.old reader.new) ends result }
{
    let mut out = ends;
    for k in 0..scripts.count {
        if goes_on(out, k) & (i < scripts.counts[k]) {
            let line = scripts.lines[SCRIPT_CALLS * k + i];
            let call = line.call;
            let next = take_turn(state, files, logs, marks, undo, k, call, bytes, reader, out);
            out = next;
        }
    }
    out
}

// The calls of a round: call i of each script, for each i in turn.
fn make_passes(
    state: &mut State,
    files: &mut [u8],
    logs: &mut [u8],
    marks: &mut [u8],
    undo: &mut [u8],
    scripts: Scripts,
    bytes: &[u8],
    reader: &mut [u8],
    ends: Ends,
) -> Ends
    requires { scripts_in (length bytes.now) (scripts_of scripts) ≡ true }
    ensures { (minute : ℕ)
        → Steps (λ m. passes (store_reply m) bytes.now minute (scripts_of scripts) script_calls)
        (lent_mut state.old state.new) (lent_mut files.old files.new) (lent_mut logs.old logs.new) (lent_mut marks.old marks.new) (lent_mut undo.old undo.new) (lent_mut reader.old reader.new) ends result }
{
    let mut out = ends;
    for i in 0..SCRIPT_CALLS {
        let next = make_pass(
            state, files, logs, marks, undo, &scripts, i, bytes, reader, out,
        );
        out = next;
    }
    out
}

// Commits script k, if it goes on.
fn commit_one(
    state: &mut State,
    files: &mut [u8],
    logs: &[u8],
    marks: &mut [u8],
    undo: &mut [u8],
    p: DispatchProgress,
    k: usize,
    minute: usize,
) -> DispatchProgress
    requires { (k < script_count) × (p.commits < script_count * script_count) }
    ensures work { (bytes : List ℕ) (x : SomeScripts) (reader : List ℕ)
        → CarriesStep (λ m. commit_one (store_reply m) bytes minute x k)
        (machine_of state.old files.old logs.now marks.old undo.old) reader p.ends p.commits
        (machine_of state.new files.new logs.now marks.new undo.new) reader result.ends result.commits }
    ensures few { result.commits ≤ p.commits + 1 }
{
    let ends = p.ends;
    if !goes_on(ends, k) {
        return p;
    }
    let o = store::commit(state, files, logs, marks, undo, k, minute);
    let out = decide(state, files, logs, marks, undo, ends, k, o);
    DispatchProgress {
        ends: out,
        commits: p.commits + 1,
    }
}

// Commits each script that goes on, in order.
fn commit_all(
    state: &mut State,
    files: &mut [u8],
    logs: &[u8],
    marks: &mut [u8],
    undo: &mut [u8],
    p: DispatchProgress,
    count: usize,
    minute: usize,
) -> DispatchProgress
    requires { (count ≤ script_count) × (p.commits + count ≤ script_count * script_count) }
    ensures work { (bytes : List ℕ) (x : SomeScripts) (reader : List ℕ)
        → CarriesStep (λ m. commit_all (store_reply m) bytes minute x count)
        (machine_of state.old files.old logs.now marks.old undo.old) reader p.ends p.commits
        (machine_of state.new files.new logs.now marks.new undo.new) reader result.ends result.commits }
    ensures few { result.commits ≤ p.commits + count }
{
    let mut out = p;
    for k in 0..count {
        out = commit_one(state, files, logs, marks, undo, out, k, minute);
    }
    out
}

// One round.
fn run_round(
    state: &mut State,
    files: &mut [u8],
    logs: &mut [u8],
    marks: &mut [u8],
    undo: &mut [u8],
    scripts: Scripts,
    bytes: &[u8],
    reader: &mut [u8],
    minute: usize,
    p: DispatchProgress,
) -> DispatchProgress
    requires { (scripts_in (length bytes.now) (scripts_of scripts) ≡ true)
        × (p.commits + scripts.count ≤ script_count * script_count) }
    ensures work { CarriesStep (λ m. round (store_reply m) bytes.now minute
        (scripts_of scripts))
        (machine_of state.old files.old logs.old marks.old undo.old) reader.old p.ends p.commits
        (machine_of state.new files.new logs.new marks.new undo.new) reader.new result.ends result.commits }
    ensures few { result.commits ≤ p.commits + scripts.count }
{
    let count = scripts.count;
    let ends = p.ends;
    begin_all(state, files, logs, marks, undo, ends, count);
    let called = make_passes(
        state, files, logs, marks, undo, scripts, bytes, reader, ends,
    );
    let q = DispatchProgress {
        ends: called,
        commits: p.commits,
    };
    commit_all(state, files, logs, marks, undo, q, count, minute)
}

// Rounds until every script is over. That is within as many as there are scripts.
pub fn run_rounds(
    state: &mut State,
    files: &mut [u8],
    logs: &mut [u8],
    marks: &mut [u8],
    undo: &mut [u8],
    scripts: Scripts,
    bytes: &[u8],
    reader: &mut [u8],
    minute: usize,
) -> DispatchProgress
    requires { scripts_in (length bytes.now) (scripts_of scripts) ≡ true }
    ensures { WorkStands (machine_of state.old files.old logs.old marks.old undo.old)
        (work_on_store bytes.now minute (scripts_of scripts)
        (machine_of state.old files.old logs.old marks.old undo.old) reader.old)
        (machine_of state.new files.new logs.new marks.new undo.new) reader.new result.ends result.commits }
{
    let count = scripts.count;
    let e = Ended {
        end: End::Unfinished,
    };
    let mut p = DispatchProgress {
        ends: [e; SCRIPTS],
        commits: 0,
    };
    for _round in 0..count {
        if all_over(p.ends, count) {
            return p;
        }
        p = run_round(
            state, files, logs, marks, undo, scripts, bytes, reader, minute, p,
        );
    }
    p
}
