// Theorems about the written form (docs/RULES.md, 2): its reading from left to right decides the grammar, and stops at the first impossible byte; the offsets
// in a message's tree are true of its bytes (proofs/).
#![tactic(auto)]
