// What turns down an open, a cert or an amend, in the papers' order.
ghost use Rattle.std.specs.Prelude.{◌≡◌, [], IfOk};
ghost use Rattle.refusals.specs.Numbers.{refusal_in};
ghost use Rattle.model.specs.declared.Call.{Call};
ghost use Rattle.model.specs.Calls.{◌with◌};
ghost use Rattle.model.specs.OpenContracts.{contract_at};
ghost use Rattle.model.specs.Rules.{refusal};
ghost use Rattle.layout.specs.Present.{contracts, rules};
ghost use Rattle.ledger.specs.Answered.{view_of};

use codec::header::territory;
use layout::LEDGER_LENGTH;
use ledger::contracts::{contract, named_contract};
use ledger::rows::HeldRows;
use limits::CONTRACT_COUNT;
use rates::{Amendment, Contract};
use refusals::{Refusal, refuse_if};
use rules::ranges::{
    bad_amendment_days, bad_class, bad_days, bad_effective, bad_kind, not_amendable,
};

// Turns an open down, where a test of it fits.
#[tactic(auto, using(refusals::proofs::SomeNumber::some_number), unfolding(model::specs::Rules::refusal, model::specs::PresentRules::tests, model::specs::OpenContracts::is_open, model::specs::Ledger::view, layout::specs::Layout::ledger_of))]
pub fn refuse_open(
    b: &[u8; LEDGER_LENGTH],
    number: u32,
    fuel: u32,
    kind: u32,
    price_fix_day: u32,
    entry_day: u32,
) -> Result<(), Refusal>
    ensures { refusal_in result ≡ refusal rules (view_of b.now) (Call.Open number fuel kind price_fix_day entry_day with []) }
{
    let c = number as usize;
    refuse_if(CONTRACT_COUNT <= c, Refusal::BadContractNumber)?;
    refuse_if(contract(b, c).is_some(), Refusal::ContractState)?;
    refuse_if(bad_kind(territory(b), fuel, kind), Refusal::BadCode)?;
    refuse_if(bad_days(kind, price_fix_day, entry_day), Refusal::BadDay)
}

// The contract that a cert names, where no test of the cert fits.
#[tactic(auto, using(refusals::proofs::SomeNumber::some_number), unfolding(model::specs::Rules::refusal, model::specs::PresentRules::tests, model::specs::PresentRules::open_tests, model::specs::Ledger::view, layout::specs::Layout::ledger_of))]
pub fn contract_to_certify(
    b: &[u8; LEDGER_LENGTH],
    number: u32,
    class: u32,
    effective_day: u32,
) -> Result<Contract, Refusal>
    ensures refused { refusal_in result ≡ refusal rules (view_of b.now) (Call.Cert number class effective_day with []) }
    ensures found { IfOk result (λ k. k ≡ contract_at (contracts b.now) number) }
{
    let contract = named_contract(b, number)?;
    refuse_if(bad_class(class), Refusal::BadCode)?;
    refuse_if(bad_effective(class, effective_day), Refusal::BadDay)?;
    Ok(contract)
}

// The contract that an amend names, where no test of the amend fits.
#[tactic(auto, using(refusals::proofs::SomeNumber::some_number, crate::proofs::ContractAnswers::end_low), unfolding(model::specs::Rules::refusal, model::specs::PresentRules::tests, model::specs::PresentRules::open_tests, model::specs::Ledger::view, layout::specs::Layout::ledger_of))]
pub fn contract_to_amend(
    held: HeldRows<'_>,
    number: u32,
    amendment: Amendment,
) -> Result<Contract, Refusal>
    ensures refused { refusal_in result ≡ refusal rules (view_of held.entry.bytes.now) (Call.Amend number amendment.original_end_day amendment.price_fix_day amendment.entry_day with []) }
    ensures found { IfOk result (λ k. k ≡ contract_at (contracts held.entry.bytes.now) number) }
{
    let Amendment {
        original_end_day,
        price_fix_day,
        entry_day,
    } = amendment;
    let contract = named_contract(held.bytes, number)?;
    refuse_if(not_amendable(contract), Refusal::NotAmendable)?;
    refuse_if(
        bad_amendment_days(original_end_day, price_fix_day, entry_day),
        Refusal::BadDay,
    )?;
    refuse_if(
        held.ends_after(number, original_end_day),
        Refusal::RowAfterEnd,
    )?;
    Ok(contract)
}
