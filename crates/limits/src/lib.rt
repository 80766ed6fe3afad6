// The limits of days, prices, kWh, contracts, rows and claims, each once in the code. specs/Limits.antt has them for the statements.

#![tactic(auto)]

// The last day number, 31 March 2024, and how many there are from 0 on.
pub const LAST_DAY: u32 = 851;

pub const DAY_COUNT: u32 = LAST_DAY + 1;

// The scheme's first day, 1 April 2023.
pub const FIRST_SCHEME_DAY: u32 = 486;

// The first effective day of a QHS certificate, 26 April 2023.
pub const FIRST_QHS_DAY: u32 = 511;

// The first day of the new QHS minimum, 1 February 2024.
pub const NEW_MINIMUM_DAY: u32 = 792;

// The highest price, in mils.
pub const HIGHEST_PRICE: u32 = 999999;

// The most kWh that a bill or rebill may give.
pub const MOST_KWH_GIVEN: u32 = 40000000;

// The most kWh that a stored row may have.
pub const MOST_KWH_STORED: u32 = 100000000;

// How many entries the price book has.
pub const BOOK_LENGTH: usize = 1740;

// How many contracts a ledger has; their numbers are below this one.
pub const CONTRACT_COUNT: usize = 64;

// How many rows a ledger has.
pub const ROW_COUNT: usize = 1024;

// How many claims can be made.
pub const MOST_CLAIMS: u32 = 1000;

// How many ticks a penny has.
pub const TICKS_PER_PENNY: u64 = 10000;
