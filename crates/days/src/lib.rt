// Days over the real tables: demand 3. All of it stands in specs/ and proofs/; there is no code.
#![tactic(auto)]
