// The ranges of document 01 and of papers 1, 2, 5 and 6: the tests of what a call gives, and of what a well-formed ledger holds.
ghost use Rattle.std.specs.Prelude.{◌≡◌};
ghost use Rattle.rates.specs.TermsTaken.{crosses_end};
ghost use Rattle.model.specs.PresentRules.{bad_kind, bad_class, bad_days, bad_effective, bad_amendment_days, bad_amendment, not_amendable, bad_span, bad_months, bad_amounts, bad_shares, contract_ranges, bill_ok};
ghost use Rattle.rules.specs.ContractListed.{listed};

use crate::book::no_price;
use crate::codes;
use crate::codes::ContractNumbers;
use amounts::Bill;
use limits::{
    FIRST_QHS_DAY, FIRST_SCHEME_DAY, HIGHEST_PRICE, LAST_DAY, MOST_KWH_GIVEN, MOST_KWH_STORED,
};
use model::Request;
use rates::{Amendment, Contract, Kind};

// A fuel or kind code has no meaning, or kind 3 is given outside its place.
#[tactic(auto, unfolding(model::specs::PresentRules::bad_kind))]
pub fn bad_kind(territory: u32, fuel: u32, kind: u32) -> bool
    ensures { result ≡ bad_kind territory fuel kind }
{
    1 < fuel || 3 < kind || (kind == 3 && !(fuel == 0 && territory == 1))
}

// A class code has no meaning.
pub fn bad_class(class: u32) -> bool
    ensures { result ≡ bad_class class }
{
    2 < class
}

// A price-fix or entry day is after the last day, or not 0 where the kind is not fixed.
#[tactic(auto, unfolding(model::specs::PresentRules::bad_days))]
pub fn bad_days(kind: u32, price_fix_day: u32, entry_day: u32) -> bool
    ensures { result ≡ bad_days kind price_fix_day entry_day }
{
    LAST_DAY < price_fix_day
        || LAST_DAY < entry_day
        || (kind != 0 && !(price_fix_day == 0 && entry_day == 0))
}

// An effective day is after the last day or before the first one of its class, or not 0 for class 0.
#[tactic(auto, unfolding(model::specs::PresentRules::bad_effective))]
pub fn bad_effective(class: u32, effective_day: u32) -> bool
    ensures { result ≡ bad_effective class effective_day }
{
    if class == 0 {
        return effective_day != 0;
    }
    let first_day = if class == 2 {
        FIRST_QHS_DAY
    } else {
        FIRST_SCHEME_DAY
    };
    LAST_DAY < effective_day || effective_day < first_day
}

// An original end is no day of the scheme, or an amendment's price-fix or entry day is after the last day. The days one by one, since a
// slot has them also where its flag is clear.
#[tactic(auto, unfolding(model::specs::PresentRules::bad_amendment_days))]
pub fn bad_amendment_days(original_end_day: u32, price_fix_day: u32, entry_day: u32) -> bool
    ensures { result ≡ bad_amendment_days original_end_day price_fix_day entry_day }
{
    !(FIRST_SCHEME_DAY <= original_end_day && original_end_day <= LAST_DAY)
        || LAST_DAY < price_fix_day
        || LAST_DAY < entry_day
}

// A contract isn't fixed or is amended already.
#[tactic(auto, unfolding(model::specs::PresentRules::not_amendable))]
pub fn not_amendable(contract: Contract) -> bool
    ensures { result ≡ not_amendable contract }
{
    !codes::is_fixed(contract.kind) || contract.amendment.is_some()
}

// Not the scheme's first day ≤ first ≤ last ≤ the last day.
#[tactic(auto, unfolding(model::specs::PresentRules::bad_span))]
pub fn bad_span(first: u32, last: u32) -> bool
    ensures { result ≡ bad_span first last }
{
    !(FIRST_SCHEME_DAY <= first && first <= last && last <= LAST_DAY)
}

// A variable or index span of the scheme touches two months.
#[tactic(auto, unfolding(model::specs::PresentRules::bad_months))]
pub fn bad_months(kind: Kind, first: u32, last: u32) -> bool
    ensures { result ≡ bad_months kind first last }
{
    codes::is_monthly(kind) && calendar::scheme_month(first) != calendar::scheme_month(last)
}

// Whether a span starts on or before the original end and ends after it.
pub fn crosses_end(amendment: Option<Amendment>, first: u32, last: u32) -> bool
    ensures { result ≡ crosses_end amendment first last }
{
    amendment.is_some_and(|a| first <= a.original_end_day && a.original_end_day < last)
}

// kWh, S or WAP is out of range, or a WAP is not 0 where the contract is not flexible.
#[tactic(auto, unfolding(model::specs::PresentRules::bad_amounts))]
pub fn bad_amounts(contract: Contract, request: Request) -> bool
    ensures { result ≡ bad_amounts contract request }
{
    MOST_KWH_GIVEN < request.kwh
        || HIGHEST_PRICE < request.supply
        || HIGHEST_PRICE < request.wap
        || (!codes::is_flexible(contract.kind) && request.wap != 0)
}

// The two shares exceed kWh: their sum is taken in 64 bits.
pub fn bad_shares(kwh: u32, etii: u32, qhs: u32) -> bool
    ensures { result ≡ bad_shares kwh etii qhs }
{
    u64::from(kwh) < u64::from(etii) + u64::from(qhs)
}

// A clear flag has a day that is not 0; or a set one is on a contract that is not fixed, or has a day out of its range.
#[tactic(auto, unfolding(model::specs::PresentRules::bad_amendment))]
fn bad_amendment(
    kind: u32,
    flag: u32,
    original_end_day: u32,
    price_fix_day: u32,
    entry_day: u32,
) -> bool
    ensures { result ≡ bad_amendment kind flag original_end_day price_fix_day entry_day }
{
    if flag == 0 {
        return !(original_end_day == 0 && price_fix_day == 0 && entry_day == 0);
    }
    1 < flag || kind != 0 || bad_amendment_days(original_end_day, price_fix_day, entry_day)
}

// The numbers of an open contract keep the ranges.
#[tactic(auto, unfolding(model::specs::PresentRules::contract_ranges))]
pub fn contract_ranges(territory: u32, numbers: ContractNumbers) -> bool
    ensures { result ≡ contract_ranges territory (listed numbers) }
{
    !(bad_kind(territory, numbers.fuel, numbers.kind)
        || bad_days(numbers.kind, numbers.price_fix_day, numbers.entry_day)
        || bad_class(numbers.class)
        || bad_effective(numbers.class, numbers.effective_day)
        || bad_amendment(
            numbers.kind,
            numbers.amendment_flag,
            numbers.original_end_day,
            numbers.amended_price_fix_day,
            numbers.amended_entry_day,
        ))
}

// A held row's bill keeps the ranges under its contract.
#[tactic(auto, unfolding(model::specs::PresentRules::bill_ok))]
pub fn bill_ok(contract: Contract, bill: Bill) -> bool
    ensures { result ≡ bill_ok contract bill }
{
    !(bad_span(bill.first, bill.last)
        || MOST_KWH_STORED < bill.kwh
        || bad_shares(bill.kwh, bill.etii, bill.qhs)
        || HIGHEST_PRICE < bill.supply
        || HIGHEST_PRICE < bill.reference
        || no_price(contract.kind, bill.reference)
        || crosses_end(contract.amendment, bill.first, bill.last))
}
