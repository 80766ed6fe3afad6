// The calls claim, report and total.

#![tactic(auto)]

ghost use Rattle.std.specs.Prelude.{◌≡◌, [], ◌<◌, Ok};
ghost use Rattle.limits.specs.Limits.{contract_count};
ghost use Rattle.model.specs.declared.Call.{Call};
ghost use Rattle.model.specs.Calls.{◌with◌};
ghost use Rattle.model.specs.Ledger.{accept};
ghost use Rattle.layout.specs.Present.{rules, facts};
ghost use Rattle.ledger.specs.Answered.{Summed, AnsweredWithAnyBook};

use codec::header::write_header;
use layout::{LEDGER_LENGTH, Totals};
use ledger::check::check;
use ledger::contracts::named_contract;
use ledger::rows::{HeldRows, row_at};
use limits::{MOST_CLAIMS, TICKS_PER_PENNY};
use model::Answer;
use refusals::{Refusal, refuse_if};
use signed::difference;

// claim: answers floor(due / 10,000) minus the pence claimed before, and due modulo 10,000. The header then holds one claim more and the
// pence claimed.
pub fn claim(ledger: &mut [u8; LEDGER_LENGTH], totals: Totals) -> Result<Answer, Refusal>
    requires { Summed ledger.old totals.rows totals.due }
    ensures { AnsweredWithAnyBook ledger.old Call.Claim result ledger.new }
{
    let claims = codec::header::claims(ledger);
    refuse_if(MOST_CLAIMS <= claims, Refusal::ClaimsSpent)?;
    let territory = codec::header::territory(ledger);
    let before = codec::header::pence(ledger);
    let pence = totals.due / TICKS_PER_PENNY;
    write_header(ledger, territory, claims + 1, pence);
    Ok(Answer::Claimed {
        pence: difference(pence, before),
        rest: (totals.due % TICKS_PER_PENNY) as u32,
    })
}

// The answer of a report that nothing turns down: the sums over the held rows of the contract, which stand together.
fn accepted_report(held: HeldRows<'_>, contract: u32) -> Answer
    requires { contract < contract_count }
    ensures { Ok result ≡ (accept rules (facts held.entry.bytes.now) (Call.Report contract with [])).answers }
{
    let mut count: u32 = 0;
    let mut kwh: u64 = 0;
    let mut due: u64 = 0;
    let first = held.first_reaching(contract, 0);
    let end = held.first_reaching(contract + 1, 0);
    for i in first..end {
        let row = row_at(held.bytes, i);
        count += 1;
        kwh += u64::from(row.bill.kwh);
        due += row.amount;
    }
    Answer::Reported {
        rows: count,
        kwh,
        due,
    }
}

// report: answers the rows, kWh and due of the contract.
pub fn checked_report(held: HeldRows<'_>, contract: u32) -> Result<Answer, Refusal>
    ensures { AnsweredWithAnyBook held.entry.bytes.now (Call.Report contract) result held.entry.bytes.now }
{
    named_contract(held.bytes, contract)?;
    Ok(accepted_report(held, contract))
}

// total: answers due, and the unclaimed amount, which is due minus 10,000 times the pence claimed.
pub fn checked_total(ledger: &[u8; LEDGER_LENGTH], totals: Totals) -> Answer
    requires { Summed ledger.now totals.rows totals.due }
    ensures { AnsweredWithAnyBook ledger.now Call.Total (Ok result) ledger.now }
{
    let claimed = TICKS_PER_PENNY * codec::header::pence(ledger);
    Answer::Totalled {
        due: totals.due,
        unclaimed: difference(totals.due, claimed),
    }
}

// report on any bytes, which stay as they are: for C, which lends a ledger to be read alone.
pub fn report(ledger: &[u8], contract: u32) -> Result<Answer, Refusal>
    ensures { AnsweredWithAnyBook ledger.now (Call.Report contract) result ledger.now }
{
    let Some(bytes) = ledger.as_array::<LEDGER_LENGTH>() else {
        return Err(Refusal::NotWellFormed);
    };
    let totals = check(bytes)?;
    let held = HeldRows {
        bytes,
        count: totals.rows,
    };
    checked_report(held, contract)
}

// total on any bytes, which stay as they are: for C, too.
pub fn total(ledger: &[u8]) -> Result<Answer, Refusal>
    ensures { AnsweredWithAnyBook ledger.now Call.Total result ledger.now }
{
    let Some(bytes) = ledger.as_array::<LEDGER_LENGTH>() else {
        return Err(Refusal::NotWellFormed);
    };
    let totals = check(bytes)?;
    Ok(checked_total(bytes, totals))
}
