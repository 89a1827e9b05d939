// A call of a script, made on the store.
ghost use Rattle.std.specs.Prelude.{◌≡◌, true, length};
ghost use Rattle.state.specs.Outcomes.{said};
ghost use Rattle.admission.specs.Admission.{gate_number};
ghost use Rattle.spec.specs.Promises.{machine_of};
ghost use Rattle.spec_dispatch.specs.Rounds.{part_in, refusal_in};
ghost use Rattle.dispatcher.specs.Types.{script_call_of};
ghost use Rattle.dispatcher.specs.Steps.{request_of, bytes_of_script_call, Makes};

use crate::scripts::ScriptCall;
use buffers::parts::part;
use requests::Request;
use state::layout::State;
use state::outcomes::Refusal;

// The request of script k's call.
#[tactic(auto, unfolding(crate::specs::Steps::request_of, crate::specs::Types::script_call_of))]
fn request_of(k: usize, call: ScriptCall) -> Request
    ensures { result ≡ request_of k (script_call_of call) }
{
    match call {
        ScriptCall::Seek(d, v) => Request::Seek(k, d, v),
        ScriptCall::Write(d, _, _) => Request::Write(k, d),
        ScriptCall::GetFilePointer(d) => Request::GetFilePointer(k, d),
        ScriptCall::Read(d, n) => Request::Read(k, d, n),
    }
}

// The bytes lent beside it: a Write's part of the data buffer.
#[tactic(auto, unfolding(crate::specs::Steps::bytes_of_script_call, crate::specs::Types::script_call_of, spec_dispatch::specs::Rounds::part_in))]
fn bytes_of<'a>(call: ScriptCall, bytes: &'a [u8]) -> &'a [u8]
    requires { part_in (length bytes.now) (script_call_of call) ≡ true }
    ensures { result.now ≡ bytes_of_script_call (script_call_of call) bytes.now }
{
    match call {
        ScriptCall::Write(_, start, n) => part(bytes, start, n),
        ScriptCall::Seek(..) | ScriptCall::GetFilePointer(..) | ScriptCall::Read(..) => bytes,
    }
}

// Makes script k's call, and answers its refusal.
pub fn make(
    state: &mut State,
    files: &mut [u8],
    logs: &mut [u8],
    marks: &mut [u8],
    undo: &mut [u8],
    k: usize,
    call: ScriptCall,
    bytes: &[u8],
    reader: &mut [u8],
) -> Result<(), Refusal>
    requires { part_in (length bytes.now) (script_call_of call) ≡ true }
    ensures { Makes k (script_call_of call) bytes.now
        (machine_of state.old files.old logs.old marks.old undo.old) reader.old result
        (machine_of state.new files.new logs.new marks.new undo.new) reader.new }
{
    let q = request_of(k, call);
    let part = bytes_of(call, bytes);
    requests::perform(state, files, logs, marks, undo, q, part, reader)?;
    Ok(())
}
