// The house: the six calls on any lent tables. Each looks whether the tables hold a state, and then acts.
#![tactic(auto)]

ghost use Rattle.std.specs.Prelude.{◌≡◌};
ghost use Rattle.tables.specs.Layout.{tables};
ghost use Rattle.answers.specs.Outcome.{outcome, held, called};
ghost use Rattle.opening.specs.Open.{open_act};
ghost use Rattle.entry.specs.Deposit.{deposit_act};
ghost use Rattle.entry.specs.Submit.{submit_act};
ghost use Rattle.settling.specs.Release.{release_act};
ghost use Rattle.settling.specs.Group.{group_act};
ghost use Rattle.resolving.specs.Resolve.{resolve_act, ToldLargest};

use answers::{Grouped, Refusal, Released, Resolution};

// Opens a house of `count` members on lent tables, whatever they held.
pub fn open(
    accounts: &mut [i64],
    counters: &mut [u32],
    pays: &mut [u64],
    count: u64,
    balances: &[i64],
    lines: &[i64],
) -> Result<i64, Refusal>
    ensures { outcome result (tables accounts.new counters.new pays.new) ≡ held (open_act count balances.now lines.now) (tables accounts.old counters.old pays.old) }
{
    opening::open(accounts, counters, pays, count, balances, lines)
}

// A deposit to a member, on any lent tables.
pub fn deposit(
    accounts: &mut [i64],
    counters: &[u32],
    pays: &[u64],
    member: u64,
    amount: u64,
) -> Result<i64, Refusal>
    ensures { outcome result (tables accounts.new counters.now pays.now) ≡ called (deposit_act member amount) (tables accounts.old counters.now pays.now) }
{
    if !tables::look::is_state(accounts, counters, pays) {
        return Err(Refusal::State);
    }
    entry::deposit::deposit(accounts, counters, pays, member, amount)
}

// A payment at the tail of its payer's queue, on any lent tables. It settles nothing.
pub fn submit(
    accounts: &[i64],
    counters: &mut [u32],
    pays: &mut [u64],
    payer: u64,
    number: u64,
    payee: u64,
    amount: u64,
) -> Result<(), Refusal>
    ensures { outcome result (tables accounts.now counters.new pays.new) ≡ called (submit_act payer number payee amount) (tables accounts.now counters.old pays.old) }
{
    if !tables::look::is_state(accounts, counters, pays) {
        return Err(Refusal::State);
    }
    entry::submit::submit(accounts, counters, pays, payer, number, payee, amount)
}

// Settles a member's head payment if balance + line reach its amount, on any lent tables.
pub fn release(
    accounts: &mut [i64],
    counters: &mut [u32],
    pays: &mut [u64],
    member: u64,
) -> Result<Released, Refusal>
    ensures { outcome result (tables accounts.new counters.new pays.new) ≡ called (release_act member) (tables accounts.old counters.old pays.old) }
{
    if !tables::look::is_state(accounts, counters, pays) {
        return Err(Refusal::State);
    }
    settling::release(accounts, counters, pays, member)
}

// Settles that many payments from each head at once, if the set is allowed, on any lent tables.
pub fn group(
    accounts: &mut [i64],
    counters: &mut [u32],
    pays: &mut [u64],
    counts: &[u16],
) -> Result<Grouped, Refusal>
    ensures { outcome result (tables accounts.new counters.new pays.new) ≡ called (group_act counts.now) (tables accounts.old counters.old pays.old) }
{
    if !tables::look::is_state(accounts, counters, pays) {
        return Err(Refusal::State);
    }
    settling::group(accounts, counters, pays, counts)
}

// Settles the largest allowed set and writes its counts into the lent list, on any lent tables.
pub fn resolve(
    accounts: &mut [i64],
    counters: &mut [u32],
    pays: &mut [u64],
    counts: &mut [u16],
) -> Result<Resolution, Refusal>
    ensures pays_after { outcome (result, counts.new) (tables accounts.new counters.new pays.new) ≡ called (resolve_act counts.old) (tables accounts.old counters.old pays.old) }
    ensures told_largest { ToldLargest result (tables accounts.old counters.old pays.old) counts.new }
{
    if !tables::look::is_state(accounts, counters, pays) {
        return Err(Refusal::State);
    }
    resolving::resolve(accounts, counters, pays, counts)
}
