// The demands of the tender, on one page: proofs/Demands.antt. There is no code.
#![tactic(auto)]
