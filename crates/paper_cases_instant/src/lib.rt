// Messages and regroupings of the instant profile whose answers are computed from the definitions, under one theorem for each list (specs/, proofs/Proved.antt).
#![tactic(auto)]
