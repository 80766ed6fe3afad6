// The numbers that stand for a contract, each from the other, and the kinds that are fixed, flexible and monthly.
ghost use Rattle.std.specs.Prelude.{◌≡◌};
ghost use Rattle.model.specs.ContractNumbers.{numbers_of_contract, contract_of_numbers};
ghost use Rattle.rules.specs.ContractListed.{listed};
ghost use Rattle.model.specs.Codes.{fuel_of, fuel_code, kind_of, kind_code, price_fix_day_of, entry_day_of, is_fixed, is_flexible, is_monthly, certificate_of, class_code, effective_day_of, amendment_of};

use rates::{Amendment, Certificate, Contract, Fuel, Kind};

// The numbers that stand for a contract, in the papers' order. Its codes are numbers, too: a slot may hold some without meaning, which the
// ranges turn down.
#[derive(Clone, Copy)]
pub struct ContractNumbers {
    pub fuel: u32,
    pub kind: u32,
    pub price_fix_day: u32,
    pub entry_day: u32,
    pub class: u32,
    pub effective_day: u32,
    pub amendment_flag: u32,
    pub original_end_day: u32,
    pub amended_price_fix_day: u32,
    pub amended_entry_day: u32,
}

// Of a code without meaning, which the ranges turn down, these three give the last that has one; so they give no Result.
pub fn fuel_of(code: u32) -> Fuel
    ensures { result ≡ fuel_of code }
{
    if code == 0 {
        Fuel::Electricity
    } else {
        Fuel::Gas
    }
}

pub fn kind_of(code: u32, price_fix_day: u32, entry_day: u32) -> Kind
    ensures { result ≡ kind_of code price_fix_day entry_day }
{
    match code {
        0 => Kind::Fixed {
            price_fix_day,
            entry_day,
        },
        1 => Kind::Variable,
        2 => Kind::Flexible,
        _ => Kind::Index,
    }
}

pub fn certificate_of(class: u32, effective_day: u32) -> Certificate
    ensures { result ≡ certificate_of class effective_day }
{
    match class {
        1 => Certificate::Etii { effective_day },
        2 => Certificate::Qhs { effective_day },
        _ => Certificate::None,
    }
}

// No From: the type is of another crate, where the papers' codes aren't stated yet.
pub fn fuel_code(fuel: Fuel) -> u32
    ensures { result ≡ fuel_code fuel }
{
    match fuel {
        Fuel::Electricity => 0,
        Fuel::Gas => 1,
    }
}

// The code of a kind, its price-fix day and its entry day. A part of From of a contract, as is the next.
fn kind_numbers(kind: Kind) -> (u32, u32, u32)
    ensures code { result.0 ≡ kind_code kind }
    ensures price_fixed { result.1 ≡ price_fix_day_of kind }
    ensures entered { result.2 ≡ entry_day_of kind }
{
    match kind {
        Kind::Fixed {
            price_fix_day,
            entry_day,
        } => (0, price_fix_day, entry_day),
        Kind::Variable => (1, 0, 0),
        Kind::Flexible => (2, 0, 0),
        Kind::Index => (3, 0, 0),
    }
}

// The code of a certificate's class, and its effective day.
fn certificate_numbers(certificate: Certificate) -> (u32, u32)
    ensures code { result.0 ≡ class_code certificate }
    ensures day { result.1 ≡ effective_day_of certificate }
{
    match certificate {
        Certificate::None => (0, 0),
        Certificate::Etii { effective_day } => (1, effective_day),
        Certificate::Qhs { effective_day } => (2, effective_day),
    }
}

pub fn is_fixed(kind: Kind) -> bool
    ensures { result ≡ is_fixed kind }
{
    matches!(kind, Kind::Fixed { .. })
}

pub fn is_flexible(kind: Kind) -> bool
    ensures { result ≡ is_flexible kind }
{
    matches!(kind, Kind::Flexible)
}

// Whether prices of the kind are published by the month.
pub fn is_monthly(kind: Kind) -> bool
    ensures { result ≡ is_monthly kind }
{
    matches!(kind, Kind::Variable | Kind::Index)
}

// The amendment that its numbers stand for.
fn amendment_of(numbers: ContractNumbers) -> Option<Amendment>
    ensures { result ≡ amendment_of numbers.amendment_flag numbers.original_end_day numbers.amended_price_fix_day numbers.amended_entry_day }
{
    if numbers.amendment_flag == 0 {
        return None;
    }
    Some(Amendment {
        original_end_day: numbers.original_end_day,
        price_fix_day: numbers.amended_price_fix_day,
        entry_day: numbers.amended_entry_day,
    })
}

// The contract that numbers stand for.
impl From<ContractNumbers> for Contract {
    ghost from_gives = { λ numbers contract. contract ≡ contract_of_numbers (listed numbers) };

    fn from(numbers: ContractNumbers) -> Contract {
        Contract {
            fuel: fuel_of(numbers.fuel),
            kind: kind_of(numbers.kind, numbers.price_fix_day, numbers.entry_day),
            certificate: certificate_of(numbers.class, numbers.effective_day),
            amendment: amendment_of(numbers),
        }
    }
}

// The numbers that stand for a contract.
impl From<Contract> for ContractNumbers {
    ghost from_gives = { λ contract numbers. listed numbers ≡ numbers_of_contract contract };

    fn from(contract: Contract) -> ContractNumbers {
        let (kind, price_fix_day, entry_day) = kind_numbers(contract.kind);
        let (class, effective_day) = certificate_numbers(contract.certificate);
        let unamended = ContractNumbers {
            fuel: fuel_code(contract.fuel),
            kind,
            price_fix_day,
            entry_day,
            class,
            effective_day,
            amendment_flag: 0,
            original_end_day: 0,
            amended_price_fix_day: 0,
            amended_entry_day: 0,
        };
        let Some(amendment) = contract.amendment else {
            return unamended;
        };
        ContractNumbers {
            amendment_flag: 1,
            original_end_day: amendment.original_end_day,
            amended_price_fix_day: amendment.price_fix_day,
            amended_entry_day: amendment.entry_day,
            ..unamended
        }
    }
}
