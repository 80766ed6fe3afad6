// The calls bill, rebill and cancel on a well-formed ledger.

#![tactic(auto)]

mod rows;

ghost use Rattle.model.specs.declared.Call.{Call};
ghost use Rattle.model.specs.Calls.{◌with◌};
ghost use Rattle.layout.specs.Present.{Searched};
ghost use Rattle.ledger.specs.Answered.{Answered, AnsweredWithAnyBook};

use bill_refusals::{named_row, new_place, place_again, requested_bill};
use layout::LEDGER_LENGTH;
use ledger::contracts::named_contract;
use ledger::rows::HeldRows;
use model::{Answer, Request};
use refusals::Refusal;
use rows::{add_row, remove_row, replace_row};

// bill: adds a row; answers R, rate and amount. It shares with rebill what they call: one function of both would take the tests of the
// row's place and the change, with the contracts of these.
pub fn bill(
    ledger: &mut [u8; LEDGER_LENGTH],
    rows: usize,
    book: &[u32],
    request: Request,
) -> Result<Answer, Refusal>
    requires { Searched ledger.old rows }
    ensures { Answered ledger.old (Call.Bill request with book.now) result ledger.new }
{
    let (contract, bill) = requested_bill(ledger, book, request)?;
    let held = HeldRows {
        bytes: ledger,
        count: rows,
    };
    let place = new_place(held, contract, bill)?;
    Ok(add_row(ledger, rows, place, contract, bill))
}

// rebill: replaces the row with that contract and first day; answers R, rate, and the new amount minus the old.
pub fn rebill(
    ledger: &mut [u8; LEDGER_LENGTH],
    rows: usize,
    book: &[u32],
    request: Request,
) -> Result<Answer, Refusal>
    requires { Searched ledger.old rows }
    ensures { Answered ledger.old (Call.Rebill request with book.now) result ledger.new }
{
    let (contract, bill) = requested_bill(ledger, book, request)?;
    let held = HeldRows {
        bytes: ledger,
        count: rows,
    };
    let place = place_again(held, contract, bill)?;
    Ok(replace_row(ledger, rows, place, contract, bill))
}

// cancel: removes the row with that contract and first day; answers minus its amount.
pub fn cancel(
    ledger: &mut [u8; LEDGER_LENGTH],
    rows: usize,
    contract: u32,
    first: u32,
) -> Result<Answer, Refusal>
    requires { Searched ledger.old rows }
    ensures { AnsweredWithAnyBook ledger.old (Call.Cancel contract first) result ledger.new }
{
    named_contract(ledger, contract)?;
    let held = HeldRows {
        bytes: ledger,
        count: rows,
    };
    let place = named_row(held, contract, first)?;
    Ok(remove_row(ledger, rows, place, contract, first))
}
