// What is established of the product, gathered under one statement. This crate is mathematics: specs/ and proofs/.

#![tactic(auto)]
