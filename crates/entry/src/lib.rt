// Deposits and submissions, on tables that hold a state. Each looks only at what it touches.
#![tactic(auto)]

pub mod deposit;
pub mod submit;
