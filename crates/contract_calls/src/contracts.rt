// The contracts that the calls make: one that is opened, one with another certificate, and one that is amended.
ghost use Rattle.std.specs.Prelude.{◌≡◌};
ghost use Rattle.model.specs.Codes.{opening, certify, amend};

use rates::{Amendment, Certificate, Contract};
use rules::codes::{certificate_of, fuel_of, kind_of};

// A contract that is opened: its fuel, kind and days, without a certificate and unamended.
#[tactic(auto, unfolding(model::specs::Codes::opening))]
pub fn opening(fuel: u32, kind: u32, price_fix_day: u32, entry_day: u32) -> Contract
    ensures { result ≡ opening fuel kind price_fix_day entry_day }
{
    Contract {
        fuel: fuel_of(fuel),
        kind: kind_of(kind, price_fix_day, entry_day),
        certificate: Certificate::None,
        amendment: None,
    }
}

// A contract with another certificate in place of its own; class 0 leaves none.
#[tactic(auto, unfolding(model::specs::Codes::certify))]
pub fn certify(contract: Contract, class: u32, effective_day: u32) -> Contract
    ensures { result ≡ certify contract class effective_day }
{
    Contract {
        certificate: certificate_of(class, effective_day),
        ..contract
    }
}

// A contract with an amendment.
#[tactic(auto, unfolding(model::specs::Codes::amend))]
pub fn amended(contract: Contract, amendment: Amendment) -> Contract
    ensures { result ≡ amend contract amendment.original_end_day amendment.price_fix_day amendment.entry_day }
{
    Contract {
        amendment: Some(amendment),
        ..contract
    }
}
