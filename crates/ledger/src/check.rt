// The well-formed check: one pass over the contracts and one over the rows, each row unpacked once, with the contract and the last day of
// the row before it in hand.
ghost use Rattle.std.specs.Prelude.{◌≡◌, cond, ◌&&◌, ◌-◌, ◌<◌, Option};
ghost use Rattle.limits.specs.Limits.{row_count};
ghost use Rattle.records.specs.Edits.{zero_at};
ghost use Rattle.model.specs.Ledger.{comes_after};
ghost use Rattle.layout.specs.Offsets.{row_start, ledger_length};
ghost use Rattle.layout.specs.Check.{header_ok, contracts_ok, slot_read, rows_checked_of, malformed, well_formed};
ghost use Rattle.layout.specs.Present.{rules, layout, checked_of, row_slot_at};
ghost use Rattle.ledger.specs.Rows.{row_under};

use crate::contracts::contract;
use crate::rows::comes_after;
use crate::{contracts, rows};
use layout::{FIRST_ROW, LEDGER_LENGTH, ROW_LENGTH, Totals};
use limits::{CONTRACT_COUNT, MOST_CLAIMS, ROW_COUNT};
use model::Row;
use rates::Contract;
use refusals::Refusal;

// Claims at most 1,000, and no pence where no claim was made.
#[tactic(auto, unfolding(layout::specs::Check::header_ok))]
fn header_ok(b: &[u8; LEDGER_LENGTH]) -> bool
    ensures { result ≡ header_ok rules layout b.now }
{
    let claims = codec::header::claims(b);
    claims <= MOST_CLAIMS && (claims != 0 || codec::header::pence(b) == 0)
}

// Each contract's slot is as it must be.
fn contracts_ok(b: &[u8; LEDGER_LENGTH]) -> bool
    ensures { result ≡ contracts_ok rules layout b.now }
{
    let territory = codec::header::territory(b);
    for c in 0..CONTRACT_COUNT {
        if !codec::contracts::slot_ok(contracts::slot(b, c), territory) {
            return false;
        }
    }
    true
}

// The row that slot i holds, if it holds one.
fn row_slot(b: &[u8; LEDGER_LENGTH], i: usize) -> Result<Option<Row>, Refusal>
    requires { i < row_count }
    ensures { result ≡ slot_read rules layout (row_slot_at b.now i) }
{
    let slot = rows::slot(b, i);
    if !codec::rows::is_held(slot) {
        return Ok(None);
    }
    if codec::rows::padding_set(slot) {
        return Err(Refusal::NotWellFormed);
    }
    Ok(Some(codec::rows::unpack_row(slot)))
}

// A row keeps the ranges under its contract, which is open, and its amount is its part of due.
fn row_ok(contract: Option<Contract>, row: Row) -> bool
    ensures { result ≡ row_under contract row }
{
    let Some(contract) = contract else {
        return false;
    };
    rules::ranges::bill_ok(contract, row.bill) && amounts::is_amount(contract, row.bill, row.amount)
}

// A row is as it must be under its contract, and comes after day `last` of the contract with that number.
fn follows(before: u32, last: u32, contract: Option<Contract>, row: Row) -> bool
    ensures { result ≡ row_under contract row && comes_after before last row.bill }
{
    comes_after(before, last, row.bill) && row_ok(contract, row)
}

// The check of the slots from row i on, where slot i is free: only zeros may follow the i rows before it.
fn check_rest(b: &[u8; LEDGER_LENGTH], i: usize, due: u64) -> Result<Totals, Refusal>
    requires { i < row_count }
    ensures { result ≡ cond (zero_at (row_start i) (ledger_length - row_start i) b.now) (well_formed i due) malformed }
{
    let at = FIRST_ROW + i * ROW_LENGTH;
    if !records::is_zero(b, at, LEDGER_LENGTH - at) {
        return Err(Refusal::NotWellFormed);
    }
    Ok(Totals { rows: i, due })
}

// The check of all rows: each is read once, with the contract and the last day of the row before it in hand, and what that contract's slot
// holds. No row begins on day 0, so the first comes after day 0 of contract 0.
fn check_rows(b: &[u8; LEDGER_LENGTH]) -> Result<Totals, Refusal>
    ensures { result ≡ rows_checked_of rules layout b.now }
{
    let mut before: u32 = 0;
    let mut last: u32 = 0;
    let mut found = contract(b, 0);
    let mut due: u64 = 0;
    for i in 0..ROW_COUNT {
        let Some(row) = row_slot(b, i)? else {
            return check_rest(b, i, due);
        };
        let bill = row.bill;
        if bill.contract != before {
            found = contract(b, bill.contract as usize);
        }
        if !follows(before, last, found, row) {
            return Err(Refusal::NotWellFormed);
        }
        before = bill.contract;
        last = bill.last;
        due += row.amount;
    }
    Ok(Totals {
        rows: ROW_COUNT,
        due,
    })
}

// Whether bytes are a well-formed ledger, with the number of its rows and the sum of their amounts.
pub fn check(b: &[u8]) -> Result<Totals, Refusal>
    ensures { result ≡ checked_of b.now }
{
    let Some(bytes) = b.as_array::<LEDGER_LENGTH>() else {
        return Err(Refusal::NotWellFormed);
    };
    if !header_ok(bytes) {
        return Err(Refusal::NotWellFormed);
    }
    if !contracts_ok(bytes) {
        return Err(Refusal::NotWellFormed);
    }
    check_rows(bytes)
}
