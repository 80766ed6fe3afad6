// A bill's row among the held rows: added, put in place of another, or removed, with what the call answers.
ghost use Rattle.layout.specs.Present.{facts};
ghost use Rattle.bill_refusals.specs.Requests.{RowHeld};
ghost use Rattle.bill_calls.specs.Rows.{NewRow, RowAgain, Changed, billed, row_added, rebilled, row_replaced, cancelled, row_removed};

use amounts::{Bill, amount, rate};
use layout::LEDGER_LENGTH;
use ledger::rows::row_at;
use model::{Answer, Row};
use rates::Contract;
use signed::difference;

// The row of a bill that is new.
pub fn add_row(
    ledger: &mut [u8; LEDGER_LENGTH],
    rows: usize,
    place: usize,
    contract: Contract,
    bill: Bill,
) -> Answer
    requires { NewRow ledger.old rows place contract bill }
    ensures { Changed result ledger.new (billed contract bill) (row_added (facts ledger.old) contract bill) }
{
    let row = Row {
        bill,
        amount: amount(contract, bill),
    };
    edits::insert_row(ledger, rows, place, row);
    Answer::Billed {
        reference: bill.reference,
        rate: rate(contract, bill),
        amount: row.amount,
    }
}

// The row of a bill that takes the place of another.
pub fn replace_row(
    ledger: &mut [u8; LEDGER_LENGTH],
    rows: usize,
    place: usize,
    contract: Contract,
    bill: Bill,
) -> Answer
    requires { RowAgain ledger.old rows place contract bill }
    ensures { Changed result ledger.new (rebilled (facts ledger.old) contract bill) (row_replaced (facts ledger.old) contract bill) }
{
    let row = Row {
        bill,
        amount: amount(contract, bill),
    };
    let old = row_at(ledger, place);
    edits::replace_row(ledger, place, row);
    Answer::Rebilled {
        reference: bill.reference,
        rate: rate(contract, bill),
        change: difference(row.amount, old.amount),
    }
}

// A row that is held.
pub fn remove_row(
    ledger: &mut [u8; LEDGER_LENGTH],
    rows: usize,
    place: usize,
    contract: u32,
    first: u32,
) -> Answer
    requires { RowHeld ledger.old rows place contract first }
    ensures { Changed result ledger.new (cancelled (facts ledger.old) contract first) (row_removed (facts ledger.old) contract first) }
{
    let old = row_at(ledger, place);
    edits::remove_row(ledger, rows, place);
    Answer::Cancelled {
        change: difference(0, old.amount),
    }
}
