// The calls that start a ledger, open a contract, replace a contract's certificate and amend a contract.

#![tactic(auto)]

mod contracts;
mod refused;
mod rerating;

ghost use Rattle.std.specs.Prelude.{◌≡◌};
ghost use Rattle.refusals.specs.Numbers.{by_number};
ghost use Rattle.model.specs.declared.Call.{Call};
ghost use Rattle.layout.specs.Present.{Formed, Searched};
ghost use Rattle.ledger.specs.Answered.{AnsweredWithAnyBook};
ghost use Rattle.contract_calls.specs.Start.{start_answer, start_bytes};

use contracts::{amended, certify, opening};
use edits::{fresh, write_contract};
use layout::LEDGER_LENGTH;
use ledger::rows::HeldRows;
use model::Answer;
use rates::Amendment;
use refusals::{Refusal, refuse_if};
use refused::{contract_to_amend, contract_to_certify, refuse_open};
use rerating::rerate_rows;
use signed::difference;

// start: a fresh ledger over a buffer of any contents.
pub fn start(ledger: &mut [u8], territory: u32) -> Result<Answer, Refusal>
    ensures { (by_number result ≡ start_answer ledger.old territory) × (ledger.new ≡ start_bytes ledger.old territory) }
{
    let Some(bytes) = ledger.as_mut_array::<LEDGER_LENGTH>() else {
        return Err(Refusal::NotWellFormed);
    };
    refuse_if(1 < territory, Refusal::BadCode)?;
    fresh(bytes, territory);
    Ok(Answer::Done)
}

// open: a contract under a number that isn't open, without a certificate.
pub fn open_contract(
    ledger: &mut [u8; LEDGER_LENGTH],
    contract: u32,
    fuel: u32,
    kind: u32,
    price_fix_day: u32,
    entry_day: u32,
) -> Result<Answer, Refusal>
    requires { Formed ledger.old }
    ensures { AnsweredWithAnyBook ledger.old (Call.Open contract fuel kind price_fix_day entry_day) result ledger.new }
{
    refuse_open(ledger, contract, fuel, kind, price_fix_day, entry_day)?;
    let opened = opening(fuel, kind, price_fix_day, entry_day);
    write_contract(ledger, contract as usize, opened);
    Ok(Answer::Done)
}

// cert: another certificate in place of the contract's, and the contract's rows re-rated.
pub fn cert(
    ledger: &mut [u8; LEDGER_LENGTH],
    rows: usize,
    contract: u32,
    class: u32,
    effective_day: u32,
) -> Result<Answer, Refusal>
    requires { Searched ledger.old rows }
    ensures { AnsweredWithAnyBook ledger.old (Call.Cert contract class effective_day) result ledger.new }
{
    let found = contract_to_certify(ledger, contract, class, effective_day)?;
    let certified = certify(found, class, effective_day);
    let rerated = rerate_rows(ledger, rows, contract, certified);
    write_contract(ledger, contract as usize, certified);
    Ok(Answer::Certified {
        change: difference(rerated.new, rerated.old),
        rows: rerated.changed,
    })
}

// amend: an original end of a fixed contract, and the days of bills that start after it.
pub fn amend(
    ledger: &mut [u8; LEDGER_LENGTH],
    rows: usize,
    contract: u32,
    amendment: Amendment,
) -> Result<Answer, Refusal>
    requires { Searched ledger.old rows }
    ensures { AnsweredWithAnyBook ledger.old (Call.Amend contract amendment.original_end_day amendment.price_fix_day amendment.entry_day) result ledger.new }
{
    let held = HeldRows {
        bytes: ledger,
        count: rows,
    };
    let found = contract_to_amend(held, contract, amendment)?;
    write_contract(ledger, contract as usize, amended(found, amendment));
    Ok(Answer::Done)
}
