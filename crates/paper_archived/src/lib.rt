// Theorems about archived and new messages: every answer for an archived message, and for a new one in which no element is named as a row that is withdrawn, is as it was before
// (specs/Before.antt); a payment whose agent was not provided equals none of a second message's (proofs/).
#![tactic(auto)]
