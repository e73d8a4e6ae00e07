// Opening a house: judging what it opens with, and filling the tables.
#![tactic(auto)]

ghost use Rattle.std.specs.Prelude.{◌≡◌, ◌≤◌, length};
ghost use Rattle.rule.specs.Lists.{fill};
ghost use Rattle.tables.specs.Sizes.{members, places, table};
ghost use Rattle.tables.specs.Layout.{tables};
ghost use Rattle.tables.specs.State.{every};
ghost use Rattle.answers.specs.Codes.{first};
ghost use Rattle.answers.specs.Outcome.{outcome, held};
ghost use Rattle.opening.specs.Open.{opens_at, is_opening, open_tests, account_opened, counter_opened, open_act};

use answers::Refusal;
use tables::House;
use tables::look::{holder_ok, total};

// Opens a house of `count` members on lent tables, whatever they held.
// Kept: balances and lines are two lists, as the export for C is lent them.
pub fn open(
    accounts: &mut [i64],
    counters: &mut [u32],
    pays: &mut [u64],
    count: u64,
    balances: &[i64],
    lines: &[i64],
) -> Result<i64, Refusal>
    ensures { outcome result (tables accounts.new counters.new pays.new) ≡ held (open_act count balances.now lines.now) (tables accounts.old counters.old pays.old) }
{
    judge(accounts, counters, pays, count, balances, lines)?;
    let n = count as usize;
    fill_accounts(accounts, balances, lines);
    fill_counters(counters, n);
    fill_pays(pays);
    Ok(total(balances, n))
}

// Codes 1 and 11.
fn judge(
    accounts: &[i64],
    counters: &[u32],
    pays: &[u64],
    count: u64,
    balances: &[i64],
    lines: &[i64],
) -> Result<(), Refusal>
    ensures { result ≡ first (open_tests (tables accounts.now counters.now pays.now) count balances.now lines.now) }
{
    if accounts.len() < House::TABLE
        || counters.len() < House::TABLE
        || pays.len() < House::PLACES
    {
        return Err(Refusal::State);
    }
    if !is_opening(count, balances, lines) {
        return Err(Refusal::Opening);
    }
    Ok(())
}

// 1 to 64 members, both lists that long, each member in order, and the sum at most 10^15.
fn is_opening(count: u64, balances: &[i64], lines: &[i64]) -> bool
    ensures { result ≡ is_opening count balances.now lines.now }
{
    (1..=House::MEMBERS as u64).contains(&count)
        && balances.len() as u64 == count
        && lines.len() as u64 == count
        && holders_ok(balances, lines)
        && total(balances, balances.len()) <= House::MOST as i64
}

// Each member's balance and line are in order.
fn holders_ok(balances: &[i64], lines: &[i64]) -> bool
    requires { length lines.now ≡ length balances.now }
    ensures { result ≡ every (opens_at balances.now lines.now) (length balances.now) }
{
    balances.iter().zip(lines).all(|(&b, &l)| holder_ok(b, l))
}

// The balances and the lines, and 0 elsewhere.
fn fill_accounts(accounts: &mut [i64], balances: &[i64], lines: &[i64])
    requires table_in_bounds { table ≤ length accounts.old }
    requires n_le_members { (length balances.now ≤ members) × (length lines.now ≡ length balances.now) }
    ensures { accounts.new ≡ fill table (account_opened (length balances.now) balances.now lines.now) accounts.old }
{
    let n = balances.len();
    accounts[..House::TABLE].fill(0);
    accounts[..n].copy_from_slice(balances);
    accounts[House::LINES_AT..House::LINES_AT + n].copy_from_slice(lines);
}

// The count, and 0 elsewhere.
fn fill_counters(counters: &mut [u32], n: usize)
    requires { (table ≤ length counters.old) × (n ≤ members) }
    ensures { counters.new ≡ fill table (counter_opened n) counters.old }
{
    counters[..House::TABLE].fill(0);
    counters[House::MEMBERS_AT] = n as u32;
}

// No payment waits.
fn fill_pays(pays: &mut [u64])
    requires { places ≤ length pays.old }
    ensures { pays.new ≡ fill places (λ k. 0) pays.old }
{
    pays[..House::PLACES].fill(0);
}
