// A deposit, on tables that hold a state.
ghost use Rattle.std.specs.Prelude.{◌≡◌, ◌<◌, ◌≤◌, pos, ◌+ℤ◌, set};
ghost use Rattle.tables.specs.Sizes.{members, most_amount};
ghost use Rattle.tables.specs.Layout.{tables, count_of, balance_of};
ghost use Rattle.tables.specs.Needs.{Bounded};
ghost use Rattle.tables.specs.Holds.{Counters, Accounts, Holds};
ghost use Rattle.answers.specs.Codes.{first};
ghost use Rattle.answers.specs.Outcome.{outcome, held};
ghost use Rattle.entry.specs.Deposit.{deposit_tests, deposit_act};

use answers::Refusal;
use answers::judge::{is_amount, is_member};
use tables::House;
use tables::look::total;

// A deposit to a member.
pub fn deposit(
    accounts: &mut [i64],
    counters: &[u32],
    pays: &[u64],
    member: u64,
    amount: u64,
) -> Result<i64, Refusal>
    requires { Holds (tables accounts.old counters.now pays.now) }
    ensures { outcome result (tables accounts.new counters.now pays.now) ≡ held (deposit_act member amount) (tables accounts.old counters.now pays.now) }
{
    judge_deposit(accounts, counters, member, amount)?;
    Ok(credit(accounts, (member - 1) as usize, amount))
}

// Codes 2, 4 and 7.
fn judge_deposit(
    accounts: &[i64],
    counters: &[u32],
    member: u64,
    amount: u64,
) -> Result<(), Refusal>
    requires { Counters counters.now × Accounts (count_of counters.now) accounts.now }
    ensures { result ≡ first (deposit_tests accounts.now counters.now member amount) }
{
    if !is_member(counters, member) {
        return Err(Refusal::Member);
    }
    if !is_amount(amount) {
        return Err(Refusal::Amount);
    }
    let sum = total(accounts, House::MEMBERS) + amount as i64;
    if sum > House::MOST as i64 {
        return Err(Refusal::Money);
    }
    Ok(())
}

// Adds the amount to one balance, and answers the new one.
fn credit(accounts: &mut [i64], seat: usize, amount: u64) -> i64
    requires bounded { Bounded members accounts.old }
    requires seat_lt_members { (seat < members) × (amount ≤ most_amount) }
    ensures value { result ≡ balance_of accounts.old seat +ℤ pos amount }
    ensures accounts_after { accounts.new ≡ set accounts.old seat (balance_of accounts.old seat +ℤ pos amount) }
{
    accounts[seat] += amount as i64;
    accounts[seat]
}
