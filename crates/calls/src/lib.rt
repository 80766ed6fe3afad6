// Any call of a history on the packed ledger: the ledger is checked, and the call passed on.

#![tactic(auto)]

pub mod replies;

ghost use Rattle.model.specs.Calls.{◌with◌};
ghost use Rattle.ledger.specs.Answered.{Summed, Answered};
ghost use Rattle.calls.specs.Replies.{Performed};

use bill_calls::{bill, cancel, rebill};
use claim_calls::{checked_report, checked_total, claim};
use contract_calls::{amend, cert, open_contract};
use layout::{LEDGER_LENGTH, Totals};
use ledger::check::check;
use ledger::rows::HeldRows;
use model::{Answer, Call};
use rates::Amendment;
use refusals::Refusal;

// A call on a ledger that was found well formed, with the number of its rows and the sum of their amounts. A match, and no closures: the
// compiler sees that it has every call.
fn perform_checked(
    ledger: &mut [u8; LEDGER_LENGTH],
    totals: Totals,
    book: &[u32],
    call: Call,
) -> Result<Answer, Refusal>
    requires { Summed ledger.old totals.rows totals.due }
    ensures { Answered ledger.old (call with book.now) result ledger.new }
{
    let rows = totals.rows;
    match call {
        Call::Open {
            contract,
            fuel,
            kind,
            price_fix_day,
            entry_day,
        } => open_contract(ledger, contract, fuel, kind, price_fix_day, entry_day),
        Call::Bill(request) => bill(ledger, rows, book, request),
        Call::Rebill(request) => rebill(ledger, rows, book, request),
        Call::Cert {
            contract,
            class,
            effective_day,
        } => cert(ledger, rows, contract, class, effective_day),
        Call::Cancel { contract, first } => cancel(ledger, rows, contract, first),
        Call::Claim => claim(ledger, totals),
        Call::Report { contract } => {
            let held = HeldRows {
                bytes: ledger,
                count: rows,
            };
            checked_report(held, contract)
        }
        Call::Total => Ok(checked_total(ledger, totals)),
        Call::Amend {
            contract,
            original_end_day,
            price_fix_day,
            entry_day,
        } => amend(
            ledger,
            rows,
            contract,
            Amendment {
                original_end_day,
                price_fix_day,
                entry_day,
            },
        ),
    }
}

// What a call answers, and the bytes that it leaves, with the book that it brings.
pub fn perform(ledger: &mut [u8], book: &[u32], call: Call) -> Result<Answer, Refusal>
    ensures { Performed ledger.old (call with book.now) result ledger.new }
{
    let Some(bytes) = ledger.as_mut_array::<LEDGER_LENGTH>() else {
        return Err(Refusal::NotWellFormed);
    };
    let totals = check(bytes)?;
    perform_checked(bytes, totals, book, call)
}
