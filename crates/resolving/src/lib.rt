// A resolution: the largest allowed set is found, booked and told.
#![tactic(auto)]

ghost use Rattle.std.specs.Prelude.{◌≡◌, ◌≤◌, length};
ghost use Rattle.rule.specs.Verdict.{verdict_of};
ghost use Rattle.sets.specs.Sets.{set_of};
ghost use Rattle.tables.specs.Sizes.{members, table};
ghost use Rattle.tables.specs.Layout.{tables, count_of};
ghost use Rattle.tables.specs.Holds.{Holds};
ghost use Rattle.booking.specs.Booking.{Weighed};
ghost use Rattle.answers.specs.Outcome.{outcome, held};
ghost use Rattle.answers.specs.Verdicts.{named};
ghost use Rattle.resolving.specs.Resolve.{resolve_act, ToldLargest, has_waiting, Balances, LargestIs};

use answers::{Refusal, Resolution, Verdict};
use tables::House;

// Settles the largest allowed set, and writes its counts into the lent list.
pub fn resolve(
    accounts: &mut [i64],
    counters: &mut [u32],
    pays: &mut [u64],
    counts: &mut [u16],
) -> Result<Resolution, Refusal>
    requires { Holds (tables accounts.old counters.old pays.old) }
    ensures pays_after { outcome (result, counts.new) (tables accounts.new counters.new pays.new) ≡ held (resolve_act counts.old) (tables accounts.old counters.old pays.old) }
    ensures told_largest { ToldLargest result (tables accounts.old counters.old pays.old) counts.new }
{
    if counts.len() != counters[House::MEMBERS_AT] as usize {
        return Err(Refusal::Counts);
    }
    let waited = counters[House::WAITING_AT];
    let mut positions = booking::balances(accounts);
    let all = largest(accounts, counters, pays, &mut positions);
    let settled = booking::tally(&all);
    let sum = booking::book(accounts, counters, pays, &positions, &all);
    counts.copy_from_slice(&all[..counts.len()]);
    Ok(Resolution {
        verdict: verdict_of(waited, settled),
        payments: u64::from(settled),
        sum,
        waiting: still_waiting(counters),
    })
}

// The counts of the largest allowed set, one for each place of a member. The positions hold the balances before, and then where the set
// takes them.
fn largest(
    accounts: &[i64],
    counters: &[u32],
    pays: &[u64],
    positions: &mut [i64; House::MEMBERS],
) -> [u16; House::MEMBERS]
    requires holds { Holds (tables accounts.now counters.now pays.now) }
    requires balances { Balances accounts.now positions.old }
    ensures largest_is { LargestIs (tables accounts.now counters.now pays.now) result }
    ensures weighed { Weighed (tables accounts.now counters.now pays.now) result positions.new }
{
    let used = counters[House::WAITING_AT] as usize;
    let n = counters[House::MEMBERS_AT] as usize;
    let lines = booking::balances(&accounts[House::LINES_AT..]);
    let mut tops = [0usize; House::MEMBERS];
    finder::resolve(pays, used, positions, &lines, &mut tops, n);
    finder::count_below(pays, used, &tops)
}

// The verdict, by how many payments waited and how many of them were settled.
fn verdict_of(waited: u32, settled: u32) -> Verdict
    ensures { result ≡ named (verdict_of waited settled) }
{
    match (waited, settled) {
        (0, _) => Verdict::Empty,
        (_, 0) => Verdict::Deadlocked,
        _ if settled == waited => Verdict::Full,
        _ => Verdict::Partial,
    }
}

// The set of members with payments waiting.
fn still_waiting(counters: &[u32]) -> u64
    requires { (table ≤ length counters.now) × (count_of counters.now ≤ members) }
    ensures { result ≡ set_of (count_of counters.now) (has_waiting counters.now) }
{
    let mut set = 0u64;
    for i in (0..counters[House::MEMBERS_AT] as usize).rev() {
        set *= 2;
        if counters[House::SETTLED_AT + i] < counters[House::LASTS_AT + i] {
            set += 1;
        }
    }
    set
}
