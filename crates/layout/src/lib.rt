// The layout of the packed ledger. Its code is the sizes in bytes and what a check finds; the rest is specs/ and
// proofs/.

#![tactic(auto)]

use limits::{CONTRACT_COUNT, ROW_COUNT};

// The byte at which the contracts begin.
pub const FIRST_CONTRACT: usize = 8;

// How many bytes a contract takes.
pub const CONTRACT_LENGTH: usize = 9;

// The byte at which the rows begin.
pub const FIRST_ROW: usize = FIRST_CONTRACT + CONTRACT_COUNT * CONTRACT_LENGTH;

// How many bytes a row takes.
pub const ROW_LENGTH: usize = 25;

// How many bytes a ledger takes.
pub const LEDGER_LENGTH: usize = FIRST_ROW + ROW_COUNT * ROW_LENGTH;

// What a check finds of a well-formed ledger: how many rows are held, and the sum of their amounts.
#[derive(Clone, Copy)]
pub struct Totals {
    pub rows: usize,
    pub due: u64,
}
