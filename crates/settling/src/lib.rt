// Releases and groups, on tables that hold a state. A release books its head alone.
#![tactic(auto)]

ghost use Rattle.std.specs.Prelude.{◌≡◌, ℕ, ◌+◌, ◌<◌, ◌≤◌, pos, ◌+ℤ◌, length};
ghost use Rattle.std.specs.Int.Signed.{le_z};
ghost use Rattle.std.specs.Int.{w64};
ghost use Rattle.std.proofs.Common.{SFits};
ghost use Rattle.tables.specs.Sizes.{members, table, most_amount};
ghost use Rattle.tables.specs.Layout.{tables, count_of, last_of, settled_of, balance_of, line_of};
ghost use Rattle.tables.specs.Holds.{Holds};
ghost use Rattle.booking.specs.Booking.{Counted, listed};
ghost use Rattle.answers.specs.Outcome.{outcome, held};
ghost use Rattle.settling.specs.Release.{release_act};
ghost use Rattle.settling.specs.Group.{counts_fit, book_act, group_act};

use answers::judge::is_member;
use answers::{Grouped, Refusal, Released};
use tables::House;
use tables::look::waiting_of;

// Settles a member's head payment if balance + line reach its amount.
pub fn release(
    accounts: &mut [i64],
    counters: &mut [u32],
    pays: &mut [u64],
    member: u64,
) -> Result<Released, Refusal>
    requires { Holds (tables accounts.old counters.old pays.old) }
    ensures { outcome result (tables accounts.new counters.new pays.new) ≡ held (release_act member) (tables accounts.old counters.old pays.old) }
{
    if !is_member(counters, member) {
        return Err(Refusal::Member);
    }
    let seat = (member - 1) as usize;
    if waiting_of(counters, seat) == 0 {
        return Err(Refusal::Nothing);
    }
    let number = head_number(counters, seat);
    let at = booking::head_of(pays, counters[House::WAITING_AT] as usize, seat);
    let amount = rule::amount_of(pays[at]);
    if !reaches(accounts, seat, amount) {
        return Err(Refusal::Cover);
    }
    booking::book_head(accounts, counters, pays, seat, at);
    Ok(Released {
        payer: member,
        number,
        amount,
    })
}

// The number of a member's head payment.
fn head_number(counters: &[u32], seat: usize) -> u64
    requires { (table ≤ length counters.now) × (seat < members) }
    ensures { result ≡ settled_of counters.now seat + 1 }
{
    u64::from(counters[House::SETTLED_AT + seat]) + 1
}

// Whether a member's balance and line reach an amount.
fn reaches(accounts: &[i64], seat: usize, amount: u64) -> bool
    requires { (table ≤ length accounts.now) × (seat < members) × SFits w64 (balance_of accounts.now seat +ℤ line_of accounts.now seat) × (amount ≤ most_amount) }
    ensures { result ≡ le_z (pos amount) (balance_of accounts.now seat +ℤ line_of accounts.now seat) }
{
    amount as i64 <= accounts[seat] + accounts[House::LINES_AT + seat]
}

// Settles that many payments from each head at once, if the set is allowed.
pub fn group(
    accounts: &mut [i64],
    counters: &mut [u32],
    pays: &mut [u64],
    counts: &[u16],
) -> Result<Grouped, Refusal>
    requires { Holds (tables accounts.old counters.old pays.old) }
    ensures { outcome result (tables accounts.new counters.new pays.new) ≡ held (group_act counts.now) (tables accounts.old counters.old pays.old) }
{
    if !are_counts(counters, counts) {
        return Err(Refusal::Counts);
    }
    let all = widened(counts);
    try_book(accounts, counters, pays, &all)
}

// The list is as long as the member count, and no count is above what waits.
fn are_counts(counters: &[u32], counts: &[u16]) -> bool
    requires table_in_bounds { (table ≤ length counters.now) × (count_of counters.now ≤ members) }
    requires by_index { (i : ℕ) → i < members → settled_of counters.now i ≤ last_of counters.now i }
    ensures { result ≡ counts_fit counters.now counts.now }
{
    counts.len() == counters[House::MEMBERS_AT] as usize
        && counts
            .iter()
            .enumerate()
            .all(|(i, &k)| u32::from(k) <= waiting_of(counters, i))
}

// A count for each member of the largest house, 0 past the list's end.
// Kept: an array of the most members, since the house has no heap; it is two lines of std, as `booking::balances`.
fn widened(counts: &[u16]) -> [u16; House::MEMBERS]
    requires { length counts.now ≤ members }
    ensures { listed result ≡ listed counts.now }
{
    let mut all = [0u16; House::MEMBERS];
    all[..counts.len()].copy_from_slice(counts);
    all
}

// Books the counts if each member is covered then.
fn try_book(
    accounts: &mut [i64],
    counters: &mut [u32],
    pays: &mut [u64],
    counts: &[u16; House::MEMBERS],
) -> Result<Grouped, Refusal>
    requires { Counted (tables accounts.old counters.old pays.old) counts.now }
    ensures { outcome result (tables accounts.new counters.new pays.new) ≡ held (book_act (listed counts.now)) (tables accounts.old counters.old pays.old) }
{
    let positions = booking::weigh(accounts, counters, pays, counts);
    if !booking::covered(&positions, accounts, counters) {
        return Err(Refusal::Cover);
    }
    let sum = booking::book(accounts, counters, pays, &positions, counts);
    Ok(Grouped {
        payments: u64::from(booking::tally(counts)),
        sum,
    })
}
