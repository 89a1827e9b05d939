// Scripts as C holds them: 128 calls of four numbers (kind, descriptor, start or offset, count), the counts
// of the eight scripts, and how many scripts there are.
ghost use Rattle.std.specs.Prelude.{◌≡◌, ◌<◌, ◌+◌, ◌*◌, get_or};
ghost use Rattle.buffers.specs.Parts.{tabulate};
ghost use Rattle.dispatcher.specs.Types.{end_at};
ghost use Rattle.c_scripts.specs.FlatScripts.{flat_call_of, line_from, scripts_from, end_code};

use dispatcher::ends::{End, Ends};
use dispatcher::scripts::{ScriptCall, ScriptLine, Scripts};

const LINES: usize = 128;

// Four numbers a call, then eight counts, then one.
pub const FLAT: usize = 521;

pub type FlatScripts = [usize; FLAT];

// Kinds 0 to 3: Seek, Write, GetFilePointer, Read. Any other is a Write of a part past every data buffer:
// refused with 20.
fn call_of(kind: usize, d: usize, at: usize, n: usize) -> ScriptCall
    ensures { result ≡ flat_call_of kind d at n }
{
    match kind {
        0 => ScriptCall::Seek(d, at),
        1 => ScriptCall::Write(d, at, n),
        2 => ScriptCall::GetFilePointer(d),
        3 => ScriptCall::Read(d, n),
        _ => ScriptCall::Write(d, usize::MAX, 1),
    }
}

fn line_at(flat: &FlatScripts, j: usize) -> ScriptLine
    requires { j < 128 }
    ensures { result ≡ line_from flat.now j }
{
    let at = 4 * j;
    let kind = flat[at];
    let d = flat[at + 1];
    let start = flat[at + 2];
    let n = flat[at + 3];
    ScriptLine {
        call: call_of(kind, d, start, n),
    }
}

fn lines_of(flat: &FlatScripts) -> [ScriptLine; 128]
    ensures { result ≡ tabulate (line_from flat.now) 128 }
{
    let first = line_at(flat, 0);
    let mut all = [first; LINES];
    for j in 0..LINES {
        let line = line_at(flat, j);
        all[j] = line;
    }
    all
}

fn counts_of(flat: &FlatScripts) -> [usize; 8]
    ensures { result ≡ tabulate (λ k. get_or flat.now (512 + k) 0) 8 }
{
    let mut all = [0usize; 8];
    for k in 0..8 {
        all[k] = flat[512 + k];
    }
    all
}

// The scripts that the numbers say.
pub fn scripts_of(flat: &FlatScripts) -> Scripts
    ensures { result ≡ scripts_from flat.now }
{
    let lines = lines_of(flat);
    let counts = counts_of(flat);
    Scripts {
        lines,
        counts,
        count: flat[520],
    }
}

#[tactic(auto, unfolding(crate::specs::FlatScripts::end_code, dispatcher::specs::Types::end_of_script))]
fn end_of(ends: Ends, k: usize) -> u8
    requires { k < 8 }
    ensures { result ≡ end_code (end_at ends k) }
{
    let e = ends[k];
    match e.end {
        End::Unfinished => 255,
        End::Granted => 0,
        End::Failed(r) => r.number(),
    }
}

// How each script ended.
pub fn ends_of(ends: Ends) -> [u8; 8]
    ensures { result ≡ tabulate (λ k. end_code (end_at ends k)) 8 }
{
    let mut all = [0u8; 8];
    for k in 0..8 {
        all[k] = end_of(ends, k);
    }
    all
}
