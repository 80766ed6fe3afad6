// A bill's amount and the rate that it answers: the kWh of its shares spread over its days, each day's at the rate of its class.

#![tactic(auto)]

ghost use Rattle.std.specs.Prelude.{◌≡◌, true, false, ◌+◌, ◌*◌, ◌≤◌, eqb};
ghost use Rattle.limits.specs.Limits.{highest_price};
ghost use Rattle.rates.specs.TermsTaken.{terms_for};
ghost use Rattle.amounts.specs.Amounts.{has_shares, amount, rate, rate_of, by_terms, Rateable};
ghost use Rattle.amounts.specs.KwhFound.{kwh_before, with_new_minimum, KwhOf};

use limits::NEW_MINIMUM_DAY;
use rates::{Certificate, Class, Contract};

// A bill: its contract's number, first and last day, kWh, of these the kWh in the ETII share and in the QHS share, and the reference and
// supply prices R and S in mils.
#[derive(Clone, Copy, Debug, PartialEq, Eq)]
pub struct Bill {
    pub contract: u32,
    pub first: u32,
    pub last: u32,
    pub kwh: u32,
    pub etii: u32,
    pub qhs: u32,
    pub reference: u32,
    pub supply: u32,
}

impl Bill {
    // Whether a bill has an ETII or a QHS share.
    #[tactic(auto, unfolding(crate::specs::Amounts::has_shares))]
    pub fn has_shares(self) -> bool
        ensures { result ≡ has_shares self }
    {
        self.etii != 0 || self.qhs != 0
    }
}

// A bill's kWh in each class; of QHS, with the old minimum and with the new.
#[derive(Clone, Copy, Debug, Default, PartialEq, Eq)]
struct KwhByClass {
    baseline: u32,
    etii: u32,
    old: u32,
    new: u32,
}

// A bill whose days, kWh, shares and S keep the ranges of a row, under its contract.
#[derive(Clone, Copy)]
struct RateableBill {
    contract: Contract,
    bill: Bill,
    ghost rateable: { Rateable bill },
}

impl RateableBill {
    // Of so many of its kWh, spread over its days, those before a day. Only a day inside the bill costs a division.
    #[tactic(auto, using(crate::proofs::Days::kwh_ends))]
    fn kwh_before(self, kwh: u32, day: u32) -> u32
        ensures before { result ≡ kwh_before self.bill kwh day }
        ensures within { result ≤ kwh }
    {
        let bill = self.bill;
        if day <= bill.first {
            return 0;
        }
        if bill.last < day {
            return kwh;
        }
        let days = u64::from(bill.last - bill.first) + 1;
        (u64::from(kwh) * u64::from(day - bill.first) / days) as u32
    }

    // Of so many of its kWh, spread over its days, of QHS from a day on, those with the new minimum: only a bill that reaches day 792 asks
    // for its kind.
    #[tactic(auto, using(crate::proofs::KwhFound::new_minimum), unfolding(rates::specs::TermsTaken::terms_for))]
    fn with_new_minimum(self, kwh: u32, day: u32) -> u32
        ensures found { result ≡ with_new_minimum (terms_for self.contract self.bill.first).kind self.bill kwh day }
        ensures within { kwh_before self.bill kwh day + result ≤ kwh }
    {
        let bill = self.bill;
        if bill.last < NEW_MINIMUM_DAY || self.contract.kind_taken(bill.first).entered_early() {
            return 0;
        }
        kwh - self.kwh_before(kwh, day.max(NEW_MINIMUM_DAY))
    }

    // The kWh in each class of a bill without shares: all of it is under its contract's certificate.
    fn whole_by_class(self) -> KwhByClass
        requires { has_shares self.bill ≡ false }
        ensures { KwhOf (terms_for self.contract self.bill.first) self.bill result }
    {
        let kwh = self.bill.kwh;
        match self.contract.certificate {
            Certificate::None => KwhByClass {
                baseline: kwh,
                ..KwhByClass::default()
            },
            Certificate::Etii { effective_day } => {
                let baseline = self.kwh_before(kwh, effective_day);
                KwhByClass {
                    baseline,
                    etii: kwh - baseline,
                    ..KwhByClass::default()
                }
            }
            Certificate::Qhs { effective_day } => {
                let baseline = self.kwh_before(kwh, effective_day);
                let new = self.with_new_minimum(kwh, effective_day);
                KwhByClass {
                    baseline,
                    old: kwh - baseline - new,
                    new,
                    ..KwhByClass::default()
                }
            }
        }
    }

    // The kWh in each class of a bill with shares: the rest, which is baseline, the ETII share, and the QHS share, whose minimum may change
    // inside.
    fn shares_by_class(self) -> KwhByClass
        requires { has_shares self.bill ≡ true }
        ensures { KwhOf (terms_for self.contract self.bill.first) self.bill result }
    {
        let Bill { kwh, etii, qhs, .. } = self.bill;
        let new = self.with_new_minimum(qhs, 0);
        KwhByClass {
            baseline: kwh - (etii + qhs),
            etii,
            old: qhs - new,
            new,
        }
    }

    // So many kWh at the rate of a class, which is worked out only where there are kWh.
    #[tactic(auto, using(crate::proofs::AmountBounds::kwh_rated), unfolding(rates::specs::TermsTaken::terms_for))]
    fn at_rate(self, class: Class, kwh: u32) -> u64
        ensures rated { result ≡ kwh * rate_of (terms_for self.contract self.bill.first) self.bill class }
        ensures low { result ≤ 10 * highest_price * kwh }
    {
        if kwh == 0 {
            return 0;
        }
        let bill = self.bill;
        let fuel = self.contract.fuel;
        u64::from(kwh) * fuel.class_rate(class, bill.reference, bill.supply)
    }

    // The amount, of which the kWh in each class are known: each at the rate of its class.
    fn at_rates(self, kwh: KwhByClass) -> u64
        requires { KwhOf (terms_for self.contract self.bill.first) self.bill kwh }
        ensures { result ≡ by_terms amount self.contract self.bill }
    {
        self.at_rate(Class::Baseline, kwh.baseline)
            + self.at_rate(Class::Etii, kwh.etii)
            + self.at_rate(Class::QhsOld, kwh.old)
            + self.at_rate(Class::QhsNew, kwh.new)
    }
}

// The rate that a bill answers, in ticks: that of its first day, and with shares the baseline one. Here and below contract and bill stand
// side by side: a bill names its contract by a number, and what is asked of both differs from call to call.
#[tactic(auto, using(crate::proofs::Shares::rates), unfolding(rates::specs::TermsTaken::terms_for))]
pub fn rate(contract: Contract, bill: Bill) -> u64
    ensures { result ≡ by_terms rate contract bill }
{
    let class = if bill.has_shares() {
        Class::Baseline
    } else {
        contract.terms_for(bill.first).class_of(bill.first)
    };
    contract.fuel.class_rate(class, bill.reference, bill.supply)
}

// A bill's amount, in ticks.
pub fn amount(contract: Contract, bill: Bill) -> u64
    requires { Rateable bill }
    ensures { result ≡ by_terms amount contract bill }
{
    let rateable = RateableBill { contract, bill };
    let kwh = if bill.has_shares() {
        rateable.shares_by_class()
    } else {
        rateable.whole_by_class()
    };
    rateable.at_rates(kwh)
}

// The amount of a bill without shares. A certificate asks it of such rows of its contract and is its one caller: LLVM inlines a function
// with one caller whatever its size, and `amount` has several. By `amount` a certificate had 39,500 instructions in place of 21,000.
pub fn whole_amount(contract: Contract, bill: Bill) -> u64
    requires { Rateable bill × (has_shares bill ≡ false) }
    ensures { result ≡ by_terms amount contract bill }
{
    let rateable = RateableBill { contract, bill };
    rateable.at_rates(rateable.whole_by_class())
}

// Whether a bill's amount is the one given. The check asks it of every row and is its one caller, too. Each branch compares: with one
// comparison after both, a total of 1,024 rows has 177,000 instructions in place of 173,500.
pub fn is_amount(contract: Contract, bill: Bill, given: u64) -> bool
    requires { Rateable bill }
    ensures { result ≡ eqb given (by_terms amount contract bill) }
{
    let rateable = RateableBill { contract, bill };
    if bill.has_shares() {
        given == rateable.at_rates(rateable.shares_by_class())
    } else {
        given == rateable.at_rates(rateable.whole_by_class())
    }
}
