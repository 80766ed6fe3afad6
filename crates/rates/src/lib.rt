// The discount per kWh: contracts, the terms that a bill takes of its contract, classes, parts and the rates of the classes.

#![tactic(auto)]

mod fuels;

ghost use Rattle.std.specs.Prelude.{◌≡◌};
ghost use Rattle.rates.specs.Prices.{prices_of};
ghost use Rattle.rates.specs.TermsTaken.{kind_taken, terms_for};
ghost use Rattle.rates.specs.Rates.{part, part_of, class_rate, entered_early, qhs_class, class_of};

use fuels::{Electricity, FuelPrices, Gas};
use limits::NEW_MINIMUM_DAY;

// Fuel: 0 electricity, 1 gas.
#[derive(Clone, Copy, Debug, PartialEq, Eq)]
pub enum Fuel {
    Electricity,
    Gas,
}

// Kind: 0 fixed, with its price-fix day and its day of entry; 1 variable; 2 flexible; 3 day-ahead index.
#[derive(Clone, Copy, Debug, PartialEq, Eq)]
pub enum Kind {
    Fixed { price_fix_day: u32, entry_day: u32 },
    Variable,
    Flexible,
    Index,
}

// A certificate: class 0 none, 1 ETII, 2 QHS, with its effective day. None is the first of the paper's three classes, and so a variant here.
#[derive(Clone, Copy, Debug, PartialEq, Eq)]
pub enum Certificate {
    None,
    Etii { effective_day: u32 },
    Qhs { effective_day: u32 },
}

// An amendment of a fixed contract: its original end day, and the price-fix day and the day of entry of bills that start after it.
#[derive(Clone, Copy, Debug, PartialEq, Eq)]
pub struct Amendment {
    pub original_end_day: u32,
    pub price_fix_day: u32,
    pub entry_day: u32,
}

#[derive(Clone, Copy, Debug, PartialEq, Eq)]
pub struct Contract {
    pub fuel: Fuel,
    pub kind: Kind,
    pub certificate: Certificate,
    pub amendment: Option<Amendment>,
}

// The terms that a bill takes of its contract, of a fixed kind with one pair of days.
#[derive(Clone, Copy, Debug, PartialEq, Eq)]
pub struct Terms {
    pub fuel: Fuel,
    pub kind: Kind,
    pub certificate: Certificate,
}

// The class of a day; of QHS, with the minimum that applies.
#[derive(Clone, Copy, Debug, PartialEq, Eq)]
pub enum Class {
    Baseline,
    Etii,
    QhsOld,
    QhsNew,
}

// The prices of a class of a fuel, in mils. Of QHS there is a minimum alone: one struct for both would need a support price there of 0.
#[derive(Clone, Copy, Debug, PartialEq, Eq)]
pub enum Prices {
    Limited {
        support: u32,
        maximum: u32,
        minimum: u32,
    },
    Unlimited {
        minimum: u32,
    },
}

impl Prices {
    // A part, in mils.
    #[tactic(auto, using(crate::proofs::Parts::parts))]
    fn part(self, reference: u32, supply: u32) -> u32
        ensures { result ≡ part self reference supply }
    {
        match self {
            Prices::Limited {
                support,
                maximum,
                minimum,
            } => reference
                .saturating_sub(support)
                .min(maximum)
                .min(supply.saturating_sub(minimum)),
            Prices::Unlimited { minimum } => reference.min(supply.saturating_sub(minimum)),
        }
    }
}

impl Fuel {
    // The prices of a class of a fuel.
    fn prices(self, class: Class) -> Prices
        ensures { result ≡ prices_of self class }
    {
        match self {
            Fuel::Electricity => Electricity::prices(class),
            Fuel::Gas => Gas::prices(class),
        }
    }

    // The part of a class of a fuel, in mils.
    #[tactic(auto, unfolding(crate::specs::Rates::part_of))]
    fn part_of(self, class: Class, reference: u32, supply: u32) -> u32
        ensures { result ≡ part_of self class reference supply }
    {
        self.prices(class).part(reference, supply)
    }

    // The rate of a class, in ticks.
    #[tactic(auto, unfolding(crate::specs::Rates::class_rate))]
    pub fn class_rate(self, class: Class, reference: u32, supply: u32) -> u64
        ensures { result ≡ class_rate self class reference supply }
    {
        match class {
            Class::Etii => {
                let baseline = self.part_of(Class::Baseline, reference, supply);
                let etii = self.part_of(Class::Etii, reference, supply);
                3 * u64::from(baseline) + 7 * u64::from(etii)
            }
            _ => 10 * u64::from(self.part_of(class, reference, supply)),
        }
    }
}

impl Kind {
    // Whether a contract is fixed and was entered before the new minimum.
    pub fn entered_early(self) -> bool
        ensures { result ≡ entered_early self }
    {
        matches!(self, Kind::Fixed { entry_day, .. } if entry_day < NEW_MINIMUM_DAY)
    }

    // The class of a qualifying heat supplier's bill with that first day.
    #[tactic(auto, unfolding(crate::specs::Rates::qhs_class))]
    fn qhs_class(self, first: u32) -> Class
        ensures { result ≡ qhs_class self first }
    {
        if first < NEW_MINIMUM_DAY || self.entered_early() {
            Class::QhsOld
        } else {
            Class::QhsNew
        }
    }
}

impl Terms {
    // The class of a bill with those terms and that first day.
    #[tactic(auto, unfolding(crate::specs::Rates::class_of))]
    pub fn class_of(self, first: u32) -> Class
        ensures { result ≡ class_of self first }
    {
        match self.certificate {
            Certificate::Etii { effective_day } if effective_day <= first => Class::Etii,
            Certificate::Qhs { effective_day } if effective_day <= first => {
                self.kind.qhs_class(first)
            }
            _ => Class::Baseline,
        }
    }
}

impl Contract {
    // The kind, with its days, of a contract's bill with that first day: a bill that starts after the original end takes the amended pair.
    pub fn kind_taken(self, first: u32) -> Kind
        ensures { result ≡ kind_taken self.amendment self.kind first }
    {
        match self.amendment {
            Some(amended) if amended.original_end_day < first => Kind::Fixed {
                price_fix_day: amended.price_fix_day,
                entry_day: amended.entry_day,
            },
            _ => self.kind,
        }
    }

    // The terms of a contract's bill with that first day.
    #[tactic(auto, unfolding(crate::specs::TermsTaken::terms_for))]
    pub fn terms_for(self, first: u32) -> Terms
        ensures { result ≡ terms_for self first }
    {
        Terms {
            fuel: self.fuel,
            kind: self.kind_taken(first),
            certificate: self.certificate,
        }
    }
}
