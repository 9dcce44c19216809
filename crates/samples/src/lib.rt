// The paper's sample rows. There is no code here: `specs/` has the table, `proofs/` computes it.
#![tactic(auto)]
