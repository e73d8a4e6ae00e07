// The demands for day files: all of it stands in specs/ and proofs/; there is no code.
#![tactic(auto)]
