// A submission, on tables that hold a state. It settles nothing.
ghost use Rattle.std.specs.Prelude.{◌≡◌, ◌+◌, ◌-◌, ◌<◌, ◌≤◌, length, set};
ghost use Rattle.rule.specs.Payment.{word};
ghost use Rattle.tables.specs.Sizes.{last_number, members, most_amount, places, table};
ghost use Rattle.tables.specs.Layout.{tables, waiting_of, count_of, lasts_at, waiting_at};
ghost use Rattle.tables.specs.Holds.{Holds};
ghost use Rattle.answers.specs.Codes.{first};
ghost use Rattle.answers.specs.Outcome.{outcome, held};
ghost use Rattle.entry.specs.Submit.{is_next, submit_tests, submit_act};

use answers::Refusal;
use answers::judge::{is_amount, is_member};
use tables::House;

// A payment at the tail of its payer's queue.
// Kept: a payment is told in four numbers, as the export for C and `submit_act` have them.
pub fn submit(
    accounts: &[i64],
    counters: &mut [u32],
    pays: &mut [u64],
    payer: u64,
    number: u64,
    payee: u64,
    amount: u64,
) -> Result<(), Refusal>
    requires { Holds (tables accounts.now counters.old pays.old) }
    ensures { outcome result (tables accounts.now counters.new pays.new) ≡ held (submit_act payer number payee amount) (tables accounts.now counters.old pays.old) }
{
    judge_submit(counters, payer, number, payee, amount)?;
    let at = counters[House::WAITING_AT] as usize;
    pays[at] = payment(payer, payee, amount);
    accept(counters, payer, number);
    Ok(())
}

// Codes 2 to 6.
fn judge_submit(
    counters: &[u32],
    payer: u64,
    number: u64,
    payee: u64,
    amount: u64,
) -> Result<(), Refusal>
    requires { (table ≤ length counters.now) × (count_of counters.now ≤ members) }
    ensures { result ≡ first (submit_tests counters.now payer number payee amount) }
{
    if !is_member(counters, payer) || !is_member(counters, payee) {
        return Err(Refusal::Member);
    }
    if payer == payee {
        return Err(Refusal::Same);
    }
    if !is_amount(amount) {
        return Err(Refusal::Amount);
    }
    if !is_next(counters, payer, number) {
        return Err(Refusal::Number);
    }
    if counters[House::WAITING_AT] as usize >= House::PLACES {
        return Err(Refusal::Full);
    }
    Ok(())
}

// The number is the one that the payer gives next.
// Kept: that payer and payee are members is what `judge_submit` finds of their numbers, so it is asked of three functions.
fn is_next(counters: &[u32], payer: u64, number: u64) -> bool
    requires { (table ≤ length counters.now) × (1 ≤ payer) × (payer ≤ members) }
    ensures { result ≡ is_next counters.now payer number }
{
    let seat = (payer - 1) as usize;
    let last = u64::from(counters[House::LASTS_AT + seat]);
    number == last + 1 && number <= House::LAST_NUMBER
}

// The word of a payment.
fn payment(payer: u64, payee: u64, amount: u64) -> u64
    requires { (1 ≤ payer) × (payer ≤ members) × (1 ≤ payee) × (payee ≤ members) × (amount ≤ most_amount) }
    ensures { result ≡ word (payer - 1) (payee - 1) amount }
{
    amount * 65536 + (payer - 1) * 64 + (payee - 1)
}

// One more waits, and the payer's last number is the one given.
fn accept(counters: &mut [u32], payer: u64, number: u64)
    requires { (table ≤ length counters.old) × (1 ≤ payer) × (payer ≤ members) × (waiting_of counters.old < places) × (number ≤ last_number) }
    ensures { counters.new ≡ set (set counters.old waiting_at (waiting_of counters.old + 1)) (lasts_at + (payer - 1)) number }
{
    let seat = (payer - 1) as usize;
    counters[House::WAITING_AT] += 1;
    counters[House::LASTS_AT + seat] = number as u32;
}
