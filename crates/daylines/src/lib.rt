// The lines of the day: each is one call on the tables, and what is said of it on the sheet.
#![tactic(auto)]

ghost use Rattle.std.specs.Prelude.{◌≡◌, ℕ, ◌≤◌, ◌<◌, length, get_or};
ghost use Rattle.tables.specs.Sizes.{members};
ghost use Rattle.tables.specs.Layout.{tables};
ghost use Rattle.tables.specs.Holds.{Holds};
ghost use Rattle.answers.specs.Outcome.{outcome};
ghost use Rattle.dayfile.specs.Reading.{day_meant, day_counts};
ghost use Rattle.daylines.specs.Calls.{refusal, pay_does, deposit_does, release_does, group_does, resolve_does, capped, resolution_says, call_does};

use answers::{Refusal, Resolution};
use dayfile::DayLine;
use sheet::Says;
use tables::House;

// The call that a line of the day asks for, and what is said of it.
pub fn call(
    accounts: &mut [i64],
    counters: &mut [u32],
    pays: &mut [u64],
    counts: &[u64],
    n: u64,
    d: DayLine,
) -> Says
    requires { Holds (tables accounts.old counters.old pays.old) × (day_counts d ≤ members) × (day_counts d ≤ length counts.now) }
    ensures { outcome result (tables accounts.new counters.new pays.new) ≡ call_does n (tables accounts.old counters.old pays.old) (day_meant d counts.now) }
{
    match d {
        DayLine::Pay(_, m, k, q, x) => pay(accounts, counters, pays, n, m, k, q, x),
        DayLine::Deposit(m, x) => deposit(accounts, counters, pays, n, m, x),
        DayLine::Release(m) => release(accounts, counters, pays, n, m),
        DayLine::Group(m) => group(accounts, counters, pays, &counts[..m], n),
        DayLine::Resolve => resolve(accounts, counters, pays, n),
    }
}

// A payment, and what is said of it.
fn pay(
    accounts: &[i64],
    counters: &mut [u32],
    pays: &mut [u64],
    n: u64,
    payer: u64,
    number: u64,
    payee: u64,
    amount: u64,
) -> Says
    requires { Holds (tables accounts.now counters.old pays.old) }
    ensures { outcome result (tables accounts.now counters.new pays.new) ≡ pay_does n (tables accounts.now counters.old pays.old) payer number payee amount }
{
    match entry::submit::submit(accounts, counters, pays, payer, number, payee, amount) {
        Ok(()) => Says::Queued(n, payer, number),
        Err(r) => refused(n, r),
    }
}

// A deposit, and what is said of it.
fn deposit(
    accounts: &mut [i64],
    counters: &[u32],
    pays: &[u64],
    n: u64,
    member: u64,
    amount: u64,
) -> Says
    requires { Holds (tables accounts.old counters.now pays.now) }
    ensures { outcome result (tables accounts.new counters.now pays.now) ≡ deposit_does n (tables accounts.old counters.now pays.now) member amount }
{
    match entry::deposit::deposit(accounts, counters, pays, member, amount) {
        Ok(balance) => Says::Deposited(n, member, balance),
        Err(r) => refused(n, r),
    }
}

// A release, and what is said of it.
fn release(
    accounts: &mut [i64],
    counters: &mut [u32],
    pays: &mut [u64],
    n: u64,
    member: u64,
) -> Says
    requires { Holds (tables accounts.old counters.old pays.old) }
    ensures { outcome result (tables accounts.new counters.new pays.new) ≡ release_does n (tables accounts.old counters.old pays.old) member }
{
    match settling::release(accounts, counters, pays, member) {
        Ok(d) => Says::Released(n, d.payer, d.number, d.amount),
        Err(r) => refused(n, r),
    }
}

// A group by counts, and what is said of it.
fn group(
    accounts: &mut [i64],
    counters: &mut [u32],
    pays: &mut [u64],
    counts: &[u64],
    n: u64,
) -> Says
    requires { Holds (tables accounts.old counters.old pays.old) × (length counts.now ≤ members) }
    ensures { outcome result (tables accounts.new counters.new pays.new) ≡ group_does n (tables accounts.old counters.old pays.old) counts.now }
{
    let k = narrowed(counts);
    match settling::group(accounts, counters, pays, &k[..counts.len()]) {
        Ok(d) => Says::Group(n, d.payments, d.sum),
        Err(r) => refused(n, r),
    }
}

// The counts in 16 bits: one that is above that is above what waits.
// Kept: an array of the most members, since the house has no heap; std says nothing of what a `zip` over `iter_mut` leaves.
fn narrowed(counts: &[u64]) -> [u16; House::MEMBERS]
    requires { length counts.now ≤ members }
    ensures { (length result ≡ members) × ((i : ℕ) → i < length counts.now → get_or result i 0 ≡ capped (get_or counts.now i 0)) }
{
    let mut k = [0u16; House::MEMBERS];
    for (i, &count) in counts.iter().enumerate() {
        k[i] = u16::try_from(count).unwrap_or(u16::MAX);
    }
    k
}

// A resolution, and what is said of it.
// Kept: room for the counts of the most members, since the house has no heap.
fn resolve(accounts: &mut [i64], counters: &mut [u32], pays: &mut [u64], n: u64) -> Says
    requires { Holds (tables accounts.old counters.old pays.old) }
    ensures { outcome result (tables accounts.new counters.new pays.new) ≡ resolve_does n (tables accounts.old counters.old pays.old) }
{
    let mut k = [0u16; House::MEMBERS];
    let m = counters[House::MEMBERS_AT] as usize;
    match resolving::resolve(accounts, counters, pays, &mut k[..m]) {
        Ok(d) => told(n, d),
        Err(r) => refused(n, r),
    }
}

// What is said of a resolution.
fn told(n: u64, x: Resolution) -> Says
    ensures { result ≡ resolution_says n x }
{
    Says::Resolve(
        n,
        u64::from(x.verdict),
        x.payments,
        x.sum,
        u64::from(sets::size(x.waiting)),
        u64::from(sets::lowest(x.waiting)),
    )
}

// Line n is refused.
pub fn refused(n: u64, r: Refusal) -> Says
    ensures { result ≡ refusal n r }
{
    Says::Refused(n, u64::from(u32::from(r)))
}
