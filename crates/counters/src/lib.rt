// The two counters of a transaction's log: write records used and data bytes used.
#![tactic(auto)]

ghost use Rattle.std.specs.Prelude.{◌≡◌, ◌+◌, ◌≤◌};
ghost use Rattle.limits.specs.Limits.{record_count, log_bytes};

#[derive(Clone, Copy)]
pub struct Used {
    pub records: usize,
    pub bytes: u16,
}

// "In a log the two counters, records used and data bytes used, move forward together" [R-1.4]: by one record
// and by n bytes.
pub fn append(u: &mut Used, n: u16)
    requires { (u.old.records ≤ record_count) × (u.old.bytes + n ≤ log_bytes) }
    ensures records { u.new.records ≡ u.old.records + 1 }
    ensures bytes { u.new.bytes ≡ u.old.bytes + n }
{
    u.records += 1;
    u.bytes += n;
}

// The counters after a write of n bytes.
pub fn appended(u: Used, n: u16) -> Used
    requires { (u.records ≤ record_count) × (u.bytes + n ≤ log_bytes) }
    ensures records { result.records ≡ u.records + 1 }
    ensures bytes { result.bytes ≡ u.bytes + n }
{
    let mut v = u;
    append(&mut v, n);
    v
}
