// Transactions in a row: a list that was handed in, or an order of it.
ghost use Rattle.std.specs.Prelude.{true, ◌≡◌, ◌≤◌, leb, length};
ghost use Rattle.limits.specs.Limits.{transaction_count, last_transaction};
ghost use Rattle.spec_orders.specs.Orders.{all_in};

// At most eight numbers, and each at most 7.
#[derive(Clone, Copy)]
pub struct Members<'a> {
    pub numbers: &'a [u8],
    pub ghost few: { length numbers.now ≤ transaction_count },
    pub ghost small: { all_in (λ t. leb t last_transaction) numbers.now ≡ true },
}
