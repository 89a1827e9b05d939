// The grants of an order where Commit's placing has no part: a pass over bits.
ghost use Rattle.std.specs.Prelude.{◌≡◌};
ghost use Rattle.call_order.specs.OrderTable.{grants_passing};

use crate::best::OrderTable;
use crate::members::Members;
use buffers::transaction_sets::contains;

impl OrderTable {
    // The grants of the order, off the table of octets: `skipped` has who has a byte for a closed file, or was
    // made stale.
    #[tactic(auto, using(crate::proofs::PassLaws::passing), unfolding(crate::specs::OrderTable::grants_passing))]
    pub fn grants_passing(&self, order: Members) -> u8
        ensures { result ≡ grants_passing self.now.table self.now.closed order.entry.numbers.now }
    {
        let mut skipped = self.closed;
        let mut grants = 0u8;
        for member in order.numbers {
            let t = usize::from(*member);
            if !contains(skipped, t) {
                skipped |= self.table[t];
                grants += 1;
            }
        }
        grants
    }
}
