// What turns a bill or a rebill down: its request, and then its row among the held rows.

#![tactic(auto)]

ghost use Rattle.std.specs.Prelude.{◌≡◌, true, not, ◌&&◌, ltb, leb, cond, IfOk};
ghost use Rattle.limits.specs.Limits.{row_count};
ghost use Rattle.refusals.specs.Numbers.{refusal_in};
ghost use Rattle.model.specs.OpenContracts.{contract_at};
ghost use Rattle.model.specs.Calls.{first_of, named, sharing, requested_bill};
ghost use Rattle.model.specs.Ledger.{comes_after};
ghost use Rattle.model.specs.Places.{place_of};
ghost use Rattle.model.specs.PresentRules.{request_tests, new_row_tests, row_again_tests};
ghost use Rattle.layout.specs.Present.{facts, contracts};
ghost use Rattle.ledger.specs.Answered.{view_of};
ghost use Rattle.bill_refusals.specs.Requests.{RequestedBill, RowHeld};

use amounts::Bill;
use layout::LEDGER_LENGTH;
use ledger::contracts::named_contract;
use ledger::rows::HeldRows;
use limits::ROW_COUNT;
use model::Request;
use rates::Contract;
use refusals::{Refusal, refuse_if};
use rules::book::{bad_book, bill_under, no_price};
use rules::ranges::{bad_amounts, bad_months, bad_shares, bad_span, crosses_end};

// The contract and the bill that a bill or rebill asks for, with R from the book: where no test of the book and of the numbers given fits.
#[tactic(auto, using(refusals::proofs::SomeNumber::some_number), unfolding(model::specs::PresentRules::request_tests, model::specs::PresentRules::open_tests, model::specs::Calls::requested_bill, model::specs::Ledger::view, layout::specs::Layout::ledger_of))]
pub fn requested_bill(
    b: &[u8; LEDGER_LENGTH],
    book: &[u32],
    request: Request,
) -> Result<(Contract, Bill), Refusal>
    ensures refused { refusal_in result ≡ first_of (request_tests (view_of b.now) request book.now) }
    ensures requested { IfOk result (λ asked. RequestedBill b.now request book.now asked.0 asked.1) }
{
    refuse_if(bad_book(book), Refusal::BadBook)?;
    let contract = named_contract(b, request.contract)?;
    refuse_if(bad_span(request.first, request.last), Refusal::BadDay)?;
    refuse_if(
        bad_months(contract.kind, request.first, request.last),
        Refusal::TwoMonths,
    )?;
    refuse_if(
        crosses_end(contract.amendment, request.first, request.last),
        Refusal::CrossesEnd,
    )?;
    refuse_if(bad_amounts(contract, request), Refusal::BadAmount)?;
    refuse_if(
        bad_shares(request.kwh, request.etii, request.qhs),
        Refusal::BadShares,
    )?;
    Ok((contract, bill_under(contract, request, book)))
}

// Whether a held row of the contract shares a day with the span: of the rows that reach its first day the first does, or none.
fn shares_day(held: HeldRows<'_>, contract: u32, first: u32, last: u32) -> bool
    ensures { result ≡ ltb 0 ((view_of held.entry.bytes.now).held (sharing contract first last)) }
{
    let place = held.first_reaching(contract, first);
    held.shares_day(place, contract, first, last)
}

// Whether another held row than the one with that contract and first day shares a day with the span: only the next row can.
fn other_shares_day(held: HeldRows<'_>, place: usize, contract: u32, first: u32, last: u32) -> bool
    requires { RowHeld held.bytes.now held.count place contract first }
    ensures { result ≡ ltb 0 ((view_of held.entry.bytes.now).held (λ x. sharing contract first last x && not (named contract first x))) }
{
    held.shares_day(place + 1, contract, first, last)
}

// Whether as many rows as can be are held.
fn is_full(held: HeldRows<'_>) -> bool
    ensures { result ≡ leb row_count ((view_of held.entry.bytes.now).held (λ x. true)) }
{
    ROW_COUNT <= held.count
}

// The place of the held row with that contract and first day; refusal 9.
pub fn named_row(held: HeldRows<'_>, contract: u32, first: u32) -> Result<usize, Refusal>
    ensures refused { refusal_in result ≡ cond (not (ltb 0 ((view_of held.entry.bytes.now).held (named contract first)))) 9 0 }
    ensures found { IfOk result (λ place. RowHeld held.entry.bytes.now held.entry.count place contract first) }
{
    held.place_named(contract, first).ok_or(Refusal::NoSuchRow)
}

// The place of a new bill's row, before the first that sorts after it; refusals 10 to 12.
#[tactic(auto, unfolding(model::specs::PresentRules::new_row_tests, model::specs::Ledger::view, layout::specs::Layout::ledger_of))]
pub fn new_place(held: HeldRows<'_>, contract: Contract, bill: Bill) -> Result<usize, Refusal>
    requires { contract ≡ contract_at (contracts held.bytes.now) bill.contract }
    ensures refused { refusal_in result ≡ first_of (new_row_tests (view_of held.entry.bytes.now) bill) }
    ensures placed { IfOk result (λ place. place ≡ place_of (comes_after bill.contract bill.first) (facts held.entry.bytes.now).rows) }
{
    refuse_if(
        shares_day(held, bill.contract, bill.first, bill.last),
        Refusal::SharedDay,
    )?;
    refuse_if(no_price(contract.kind, bill.reference), Refusal::NoPrice)?;
    refuse_if(is_full(held), Refusal::RowsFull)?;
    Ok(held.place_of_new(bill.contract, bill.first))
}

// The place of the row with a bill's contract and first day; refusals 9 to 11.
#[tactic(auto, unfolding(model::specs::PresentRules::row_again_tests, model::specs::Ledger::view, layout::specs::Layout::ledger_of))]
pub fn place_again(held: HeldRows<'_>, contract: Contract, bill: Bill) -> Result<usize, Refusal>
    requires { contract ≡ contract_at (contracts held.bytes.now) bill.contract }
    ensures refused { refusal_in result ≡ first_of (row_again_tests (view_of held.entry.bytes.now) bill) }
    ensures placed { IfOk result (λ place. RowHeld held.entry.bytes.now held.entry.count place bill.contract bill.first) }
{
    let place = named_row(held, bill.contract, bill.first)?;
    refuse_if(
        other_shares_day(held, place, bill.contract, bill.first, bill.last),
        Refusal::SharedDay,
    )?;
    refuse_if(no_price(contract.kind, bill.reference), Refusal::NoPrice)?;
    Ok(place)
}
