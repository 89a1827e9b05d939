// Scripts of calls, by value, and the test that they pass before any call of theirs is made (refusal 20).
ghost use Rattle.std.specs.Prelude.{◌≡◌, true, ◌<◌};
ghost use Rattle.limits.specs.Limits.{script_count};
ghost use Rattle.spec_dispatch.specs.Rounds.{part_in, script_in, scripts_in};
ghost use Rattle.dispatcher.specs.Types.{script_call_of, scripts_of, NoCalls, OneMore};

pub use limits::{SCRIPT_CALLS, SCRIPTS};

// A call of a script. Each names its descriptor; then stand Seek's offset, the start and the length of a
// Write's part of the data buffer, and Read's count.
#[derive(Clone, Copy)]
pub enum ScriptCall {
    Seek(usize, usize),
    Write(usize, usize, usize),
    GetFilePointer(usize),
    Read(usize, usize),
}

#[derive(Clone, Copy)]
pub struct ScriptLine {
    pub call: ScriptCall,
}

// The scripts: how many there are, how many calls each has, and the calls; call i of script k is line 16 k +
// i. The counts may say more than there is room for; the dispatcher then refuses.
#[derive(Clone, Copy)]
pub struct Scripts {
    pub lines: [ScriptLine; SCRIPTS * SCRIPT_CALLS],
    pub counts: [usize; SCRIPTS],
    pub count: usize,
}

impl Scripts {
    // So many scripts, each without a call.
    pub fn new(count: usize) -> Scripts
        ensures { NoCalls count (scripts_of result) }
    {
        let line = ScriptLine {
            call: ScriptCall::GetFilePointer(0),
        };
        Scripts {
            lines: [line; SCRIPTS * SCRIPT_CALLS],
            counts: [0; SCRIPTS],
            count: count,
        }
    }

    // One call more for script k, below 8: a 17th raises the count alone, and a later one nothing.
    pub fn then(self, k: usize, call: ScriptCall) -> Scripts
        ensures { OneMore k (script_call_of call) (scripts_of self) (scripts_of result) }
    {
        let mut out = self;
        if k >= SCRIPTS {
            return out;
        }
        let n = out.counts[k];
        if n > SCRIPT_CALLS {
            return out;
        }
        out.counts[k] = n + 1;
        if n < SCRIPT_CALLS {
            out.lines[SCRIPT_CALLS * k + n] = ScriptLine { call: call };
        }
        out
    }
}

// A Write's part lies within a data buffer of n bytes.
#[tactic(auto, unfolding(spec_dispatch::specs::Rounds::part_in, crate::specs::Types::script_call_of))]
fn part_in(call: ScriptCall, n: usize) -> bool
    ensures { result ≡ part_in n (script_call_of call) }
{
    match call {
        ScriptCall::Write(_, start, size) => start <= n && size <= n - start,
        ScriptCall::Seek(..) | ScriptCall::GetFilePointer(..) | ScriptCall::Read(..) => true,
    }
}

// Script k has at most sixteen calls, and the parts of its Writes lie within a data buffer of n bytes.
fn script_in(scripts: &Scripts, k: usize, n: usize) -> bool
    requires { k < script_count }
    ensures { result ≡ script_in n ((scripts_of scripts.now).script k) }
{
    let calls = scripts.counts[k];
    if calls > SCRIPT_CALLS {
        return false;
    }
    for i in 0..calls {
        let line = scripts.lines[SCRIPT_CALLS * k + i];
        if !part_in(line.call, n) {
            return false;
        }
    }
    true
}

// There are at most eight scripts, and each is in range with a data buffer of n bytes.
pub fn scripts_in(scripts: Scripts, n: usize) -> bool
    ensures { result ≡ scripts_in n (scripts_of scripts) }
{
    if scripts.count > SCRIPTS {
        return false;
    }
    for k in 0..scripts.count {
        if !script_in(&scripts, k, n) {
            return false;
        }
    }
    true
}
