// Open contracts by their number.
ghost use Rattle.std.specs.Prelude.{◌≡◌, ◌<◌, IfOk};
ghost use Rattle.limits.specs.Limits.{contract_count};
ghost use Rattle.refusals.specs.Numbers.{refusal_in};
ghost use Rattle.model.specs.Calls.{first_of};
ghost use Rattle.model.specs.PresentRules.{open_tests};
ghost use Rattle.model.specs.OpenContracts.{contract_at};
ghost use Rattle.layout.specs.Offsets.{contract_part};
ghost use Rattle.layout.specs.Present.{contracts};
ghost use Rattle.ledger.specs.Answered.{view_of};

use codec::contracts::{is_open, unpack_contract};
use layout::{CONTRACT_LENGTH, FIRST_CONTRACT, LEDGER_LENGTH};
use limits::CONTRACT_COUNT;
use rates::Contract;
use refusals::{Refusal, refuse_if};

// The slot of the contract with that number. Of contracts and of rows each its own: one function of both would take the start and the size,
// and say of them what these say by name.
pub(crate) fn slot(b: &[u8; LEDGER_LENGTH], c: usize) -> &[u8; CONTRACT_LENGTH]
    requires { c < contract_count }
    ensures { result.now ≡ contract_part b.now c }
{
    let at = FIRST_CONTRACT + c * CONTRACT_LENGTH;
    b[at..at + CONTRACT_LENGTH].as_array().unwrap()
}

// The contract with that number, where it is open.
pub fn contract(b: &[u8; LEDGER_LENGTH], c: usize) -> Option<Contract>
    requires { c < contract_count }
    ensures { result ≡ contracts b.now c }
{
    let slot = slot(b, c);
    if is_open(slot) {
        Some(unpack_contract(slot))
    } else {
        None
    }
}

// The open contract that a call names; refusals 4 and 5.
#[tactic(auto, unfolding(model::specs::PresentRules::open_tests, model::specs::OpenContracts::is_open, model::specs::OpenContracts::contract_at, model::specs::Ledger::view, layout::specs::Layout::ledger_of))]
pub fn named_contract(b: &[u8; LEDGER_LENGTH], number: u32) -> Result<Contract, Refusal>
    ensures refused { refusal_in result ≡ first_of (open_tests (view_of b.now) number) }
    ensures found { IfOk result (λ k. k ≡ contract_at (contracts b.now) number) }
{
    let c = number as usize;
    refuse_if(CONTRACT_COUNT <= c, Refusal::BadContractNumber)?;
    contract(b, c).ok_or(Refusal::ContractState)
}
