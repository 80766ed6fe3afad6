// Contracts, rows and the header in their packed bytes. A contract and a row have functions of their own: a trait of both would need an
// array's length computed from an associated constant.

#![tactic(auto)]

pub mod contracts;
pub mod header;
pub mod rows;
