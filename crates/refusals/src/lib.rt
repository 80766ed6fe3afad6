// The refusals of the papers, each with its number.

#![tactic(auto)]

ghost use Rattle.std.specs.Prelude.{◌≡◌, cond};
ghost use Rattle.refusals.specs.Numbers.{number_of, refusal_in};

// What turns a call down, by the papers' numbers.
#[derive(Clone, Copy, Debug, PartialEq, Eq)]
pub enum Refusal {
    // The program's line can't be read.
    Unreadable = 1,
    // The ledger isn't well formed.
    NotWellFormed = 2,
    // The book hasn't its length, or has an entry above the highest price.
    BadBook = 3,
    // The contract number is above the last.
    BadContractNumber = 4,
    // The contract is open already (open), or isn't open (every other call that names one).
    ContractState = 5,
    // A territory, fuel, kind or class code has no meaning, or kind 3 is given outside its place.
    BadCode = 6,
    // A day is wrong.
    BadDay = 7,
    // kWh, a price or a book's index is too high, or a WAP is not 0 where it must be.
    BadAmount = 8,
    // No row of the contract has that first day.
    NoSuchRow = 9,
    // Another row of the contract shares a day with the span.
    SharedDay = 10,
    // The book's price needed is 0.
    NoPrice = 11,
    // As many rows as can be are held already.
    RowsFull = 12,
    // As many claims as can be were made already.
    ClaimsSpent = 13,
    // The two shares exceed kWh.
    BadShares = 14,
    // The span of a variable or index contract touches two months.
    TwoMonths = 15,
    // The contract isn't fixed or is amended already.
    NotAmendable = 16,
    // The span crosses the contract's original end.
    CrossesEnd = 17,
    // A row of the contract ends after the original end.
    RowAfterEnd = 18,
}

impl From<Refusal> for u32 {
    ghost from_gives = { λ refusal n. n ≡ number_of refusal };

    fn from(refusal: Refusal) -> u32 {
        refusal as u32
    }
}

// Refused where the test fits.
pub fn refuse_if(fits: bool, refusal: Refusal) -> Result<(), Refusal>
    ensures { refusal_in result ≡ cond fits (number_of refusal) 0 }
{
    if fits { Err(refusal) } else { Ok(()) }
}
