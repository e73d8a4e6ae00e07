// Calls of a host on lent bytes, one after the other: the demands for what a C program sees. All of it stands in specs/ and proofs/; there is no code.
#![tactic(auto)]
