// The borders of what a value may be, computed from the definitions, under one theorem (specs/Borders.antt, proofs/Proved.antt).
#![tactic(auto)]
