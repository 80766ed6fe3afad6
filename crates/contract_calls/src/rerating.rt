// The rows of a contract re-rated, under the contract with the new certificate.
ghost use Rattle.contract_calls.specs.Rerating.{Rerateable, RowInSlot, RowRerated, RowsRerated};

use edits::replace_amount;
use layout::LEDGER_LENGTH;
use ledger::rows::{HeldRows, row_at};
use rates::Contract;

// What re-rating finds: the sums of the old and of the new amounts, and how many of the amounts changed.
#[derive(Clone, Copy, Default)]
pub struct Rerated {
    pub old: u64,
    pub new: u64,
    pub changed: u32,
}

// Re-rates row i, which is a row of the contract. One with shares keeps its amount: the certificate is set aside.
#[tactic(auto, using(crate::proofs::RowRerating::row_rerated))]
fn rerate_row(b: &mut [u8; LEDGER_LENGTH], i: usize, contract: u32, certified: Contract) -> Rerated
    requires { RowInSlot b.old i contract certified }
    ensures { RowRerated contract certified b.old i result b.new }
{
    let row = row_at(b, i);
    let kept = Rerated {
        old: row.amount,
        new: row.amount,
        changed: 0,
    };
    if row.bill.has_shares() {
        return kept;
    }
    let amount = amounts::whole_amount(certified, row.bill);
    if amount == row.amount {
        return kept;
    }
    replace_amount(b, i, amount);
    Rerated {
        new: amount,
        changed: 1,
        ..kept
    }
}

// Re-rates the rows of the contract, which stand together.
pub fn rerate_rows(
    b: &mut [u8; LEDGER_LENGTH],
    rows: usize,
    contract: u32,
    certified: Contract,
) -> Rerated
    requires { Rerateable b.old rows contract certified }
    ensures { RowsRerated contract certified b.old result b.new }
{
    let held = HeldRows {
        bytes: b,
        count: rows,
    };
    let first = held.first_reaching(contract, 0);
    let end = held.first_reaching(contract + 1, 0);
    let mut sums = Rerated::default();
    for i in first..end {
        let row = rerate_row(b, i, contract, certified);
        sums.old += row.old;
        sums.new += row.new;
        sums.changed += row.changed;
    }
    sums
}
