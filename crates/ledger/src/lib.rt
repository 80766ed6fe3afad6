// The packed ledger read: the well-formed check, open contracts, and rows found by their order.

#![tactic(auto)]

pub mod check;
pub mod contracts;
pub mod rows;
