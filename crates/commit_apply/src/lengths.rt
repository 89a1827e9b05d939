// The committed lengths that a commit raises.
ghost use Rattle.spec.specs.Promises.{lent_mut};
ghost use Rattle.std.specs.Prelude.{◌≡◌, ◌+◌, ◌≤◌};
ghost use Rattle.limits.specs.Limits.{file_bytes};
ghost use Rattle.state.specs.StoreMeaning.{with_lengths};
ghost use Rattle.state.specs.Layout.{store_of};
ghost use Rattle.spec.specs.Reading.{write_end};
ghost use Rattle.commit_apply.specs.Apply.{CanLandIn, lengths_landed_in, Becomes};

use crate::writes::landing_at;
use counters::Used;
use state::FILES;
use state::layout::{State, length_at, put_length};

// Where a write of n bytes ends that starts at the place; 0 where it has no byte.
fn write_end(place: usize, n: usize) -> usize
    requires { place + n ≤ file_bytes }
    ensures { result ≡ write_end place n }
{
    if n == 0 {
        return 0;
    }
    place + n
}

// The committed lengths.
fn lengths_at(state: &State) -> [u16; FILES]
    ensures { result ≡ (store_of state.now).lengths }
{
    let mut out = [0u16; FILES];
    for f in 0..FILES {
        out[f] = length_at(state, f);
    }
    out
}

// The committed lengths after transaction t's writes have landed: each raises that of its file to its end.
pub fn lengths_after(state: &State, t: usize, used: Used) -> [u16; FILES]
    requires { CanLandIn state.now t used.records }
    ensures { result ≡ lengths_landed_in state.now t used.records }
{
    let mut out = lengths_at(state);
    for k in 0..used.records {
        let w = landing_at(state, t, k);
        let f = w.file;
        let end = write_end(w.place, w.length);
        out[f] = out[f].max(end as u16);
    }
    out
}

// Puts the committed lengths.
pub fn put_lengths(state: &mut State, lengths: [u16; FILES])
    ensures { Becomes (lent_mut state.old state.new) (with_lengths lengths) }
{
    for f in 0..FILES {
        put_length(state, f, lengths[f]);
    }
}
