// The write records of a transaction after descriptors of it are settled.
ghost use Rattle.read_settle.specs.Records.{Placeable, PlacedIn};

use standings::Place;
use state::DESCRIPTORS;
use state::journal::{WriteRecord, put_record, record_at};
use state::layout::{State, offset_at};

// Each write made while the place was unknown now lies at c plus the advance before it.
pub fn place_records(state: &mut State, t: usize, records: usize, chosen: [bool; DESCRIPTORS])
    requires { Placeable state.old t records }
    ensures { PlacedIn chosen t records state.old state.new }
{
    for k in 0..records {
        let w = record_at(state, t, k);
        if let Place::After(a) = w.place {
            let d = usize::from(w.descriptor);
            if chosen[d] {
                let c = offset_at(state, d);
                put_record(
                    state,
                    t,
                    k,
                    WriteRecord {
                        place: Place::At(c + a),
                        ..w
                    },
                );
            }
        }
    }
}
