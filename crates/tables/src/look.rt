// Looking at lent tables of which nothing is known: do they hold a state?
ghost use Rattle.std.specs.Prelude.{◌≡◌, ℕ, ◌+◌, ◌<◌, ◌≤◌, length, get_or, take};
ghost use Rattle.rule.specs.House.{money};
ghost use Rattle.rule.specs.Table.{queue_of};
ghost use Rattle.tables.specs.Sizes.{members, places, table};
ghost use Rattle.tables.specs.Layout.{tables, waiting_of, last_of, settled_of, waits_of, balance_of, spare_accounts};
ghost use Rattle.tables.specs.State.{every, word_ok, holder_ok, account_ok, account_at, spare_at, accounts_ok, zero_at, counters_ok, place_ok, places_ok, queue_ok, queues_ok, is_state};
ghost use Rattle.tables.specs.Needs.{Bounded};

use crate::House;

// The lent tables hold a state.
#[tactic(auto, using(crate::proofs::States::counters_are), unfolding(crate::specs::State::is_state))]
pub fn is_state(accounts: &[i64], counters: &[u32], pays: &[u64]) -> bool
    ensures { result ≡ is_state (tables accounts.now counters.now pays.now) }
{
    if accounts.len() < House::TABLE
        || counters.len() < House::TABLE
        || pays.len() < House::PLACES
    {
        return false;
    }
    let count = counters[House::MEMBERS_AT] as usize;
    let waiting = counters[House::WAITING_AT] as usize;
    counters_ok(counters)
        && accounts_ok(accounts, count)
        && places_ok(pays, count, waiting)
        && queues_ok(counters, pays)
}

// ---- accounts

// The sum of the first n balances.
// Kept: the table and how many of it count, as `Bounded` says.
pub fn total(balances: &[i64], n: usize) -> i64
    requires { Bounded n balances.now }
    ensures { result ≡ money n (balance_of balances.now) }
{
    let mut sum = 0;
    for &b in &balances[..n] {
        sum += b;
    }
    sum
}

// The accounts of n members are in order, and so is the sum of balances.
#[tactic(auto, using(crate::proofs::Balances::bounded), unfolding(crate::specs::State::accounts_ok))]
fn accounts_ok(accounts: &[i64], n: usize) -> bool
    requires { table ≤ length accounts.now }
    ensures { result ≡ accounts_ok n accounts.now }
{
    seats_ok(accounts, n)
        && spare_ok(accounts)
        && total(accounts, House::MEMBERS) <= House::MOST as i64
}

fn seats_ok(accounts: &[i64], n: usize) -> bool
    requires { table ≤ length accounts.now }
    ensures { result ≡ every (account_at n accounts.now) members }
{
    (0..House::MEMBERS).all(|i| account_ok(n, i, accounts[i], accounts[House::LINES_AT + i]))
}

// Kept: one line of std, as `zeros`, which looks at numbers of another type.
fn spare_ok(accounts: &[i64]) -> bool
    requires { table ≤ length accounts.now }
    ensures { result ≡ every (spare_at accounts.now) spare_accounts }
{
    accounts[House::SPARE_ACCOUNTS_AT..House::TABLE]
        .iter()
        .all(|&z| z == 0)
}

fn account_ok(n: usize, i: usize, balance: i64, line: i64) -> bool
    ensures { result ≡ account_ok n i balance line }
{
    if i < n {
        holder_ok(balance, line)
    } else {
        balance == 0 && line == 0
    }
}

// A member's balance and line, whatever they are.
pub fn holder_ok(balance: i64, line: i64) -> bool
    ensures { result ≡ holder_ok balance line }
{
    (0..=House::MOST_LINE as i64).contains(&line)
        && balance <= House::HIGHEST as i64
        && 0 <= balance + line
}

// ---- counters

#[tactic(auto, unfolding(crate::specs::State::counters_ok))]
fn counters_ok(counters: &[u32]) -> bool
    requires { table ≤ length counters.now }
    ensures { result ≡ counters_ok counters.now }
{
    let count = counters[House::MEMBERS_AT] as usize;
    let waiting = counters[House::WAITING_AT] as usize;
    (1..=House::MEMBERS).contains(&count)
        && waiting <= House::PLACES
        && zeros(counters, House::SPARE_SINGLES_AT, House::SPARE_SINGLES)
        && zeros(counters, House::SPARE_COUNTERS_AT, House::SPARE_COUNTERS)
}

// From a place on n counters are 0.
// Kept: the table and a place in it, as `zero_at` says.
fn zeros(counters: &[u32], from: usize, n: usize) -> bool
    requires { from + n ≤ length counters.now }
    ensures { result ≡ every (zero_at counters.now from) n }
{
    counters[from..from + n].iter().all(|&c| c == 0)
}

// ---- places

fn places_ok(pays: &[u64], n: usize, waiting: usize) -> bool
    requires { places ≤ length pays.now }
    ensures { result ≡ places_ok n waiting pays.now }
{
    pays[..House::PLACES]
        .iter()
        .enumerate()
        .all(|(k, &w)| place_ok(n, waiting, k, w))
}

fn place_ok(n: usize, waiting: usize, k: usize, w: u64) -> bool
    ensures { result ≡ place_ok n waiting k w }
{
    if k < waiting { word_ok(n, w) } else { w == 0 }
}

// The word of a payment between two of the n members.
fn word_ok(n: usize, w: u64) -> bool
    ensures { result ≡ word_ok n w }
{
    let payer = rule::payer_of(w);
    let payee = rule::payee_of(w);
    payer < n
        && payee < n
        && payer != payee
        && rule::flags_of(w) == 0
        && (1..=House::MOST_AMOUNT).contains(&rule::amount_of(w))
}

// ---- queues

// How many payments a member has waiting.
pub fn waiting_of(counters: &[u32], seat: usize) -> u32
    requires { (table ≤ length counters.now) × (seat < members) × (settled_of counters.now seat ≤ last_of counters.now seat) }
    ensures { result ≡ waits_of counters.now seat }
{
    counters[House::LASTS_AT + seat] - counters[House::SETTLED_AT + seat]
}

// How many payments each member has waiting among the first n places.
// Kept: the table and how many wait in it, as document 01 has them.
#[tactic(auto, using(crate::proofs::Counting::counting))]
pub fn count_waiting(pays: &[u64], n: usize) -> [u16; House::MEMBERS]
    requires { (n ≤ length pays.now) × (n ≤ places) }
    ensures { (k : ℕ) → k < members → get_or result k 0 ≡ length (queue_of k (take n pays.now)) }
{
    let mut waits = [0u16; House::MEMBERS];
    for &w in &pays[..n] {
        waits[rule::payer_of(w)] += 1;
    }
    waits
}

fn queues_ok(counters: &[u32], pays: &[u64]) -> bool
    requires { (table ≤ length counters.now) × (places ≤ length pays.now) × (waiting_of counters.now ≤ places) }
    ensures { result ≡ queues_ok counters.now pays.now }
{
    let n = counters[House::MEMBERS_AT] as usize;
    let waits = count_waiting(pays, counters[House::WAITING_AT] as usize);
    (0..House::MEMBERS).all(|i| {
        queue_ok(
            n,
            i,
            waits[i],
            counters[House::LASTS_AT + i],
            counters[House::SETTLED_AT + i],
        )
    })
}

fn queue_ok(n: usize, i: usize, waits: u16, last: u32, settled: u32) -> bool
    ensures { result ≡ queue_ok n i waits last settled }
{
    u64::from(settled) + u64::from(waits) == u64::from(last) && (i < n || last == 0)
}
