// Theorems about the total of the amounts: where neither 5 nor the walk of 6 to 8 and 28 refuses anything it is at most 6,399,999,999,936 cents (proofs/Bound.antt), so that no message
// reaches refusal 21, and every answer without it is as with it (specs/With21.antt, proofs/Unreached.antt).
#![tactic(auto)]
