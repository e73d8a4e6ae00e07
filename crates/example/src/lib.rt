// Document 01's example of a day file, and its sheet. There is no code.
#![tactic(auto)]
