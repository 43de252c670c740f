// Theorems about regroupings: when one is accepted, and when an acceptable list exists (proofs/).
#![tactic(auto)]
