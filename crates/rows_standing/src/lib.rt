// The numbers of each profile (crates/rows_profile) stand for its rows, by a computed test (proofs/).
#![tactic(auto)]
