// Theorems about the definitions: the verdict accepts exactly what `Accepted` says, and refuses by the first stage that does not hold; the
// parts of the message that its payments tell of are their texts (proofs/).
#![tactic(auto)]
