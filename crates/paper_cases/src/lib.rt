// Cases that are computed from the definitions, under one theorem for each list (specs/Cases.antt, proofs/Proved.antt).
#![tactic(auto)]
