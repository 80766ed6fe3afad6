// The paper's tests of numbers, without a byte of the ledger: codes, ranges and the price book.

#![tactic(auto)]

pub mod book;
pub mod codes;
pub mod ranges;
