// Booking a set of payments, given as counts from the heads: where it takes each balance, whether each member is covered then, and
// the tables with it booked. One head alone is booked by itself.
#![tactic(auto)]

ghost use Rattle.std.specs.Prelude.{◌≡◌, IsTrue, List, [], ◌++◌, ℕ, ◌+◌, ◌-◌, ◌≤◌, ◌<◌, pos, length, get_or, take, drop, replicate, ◌==◌};
ghost use Rattle.std.specs.List.{position};
ghost use Rattle.rule.specs.Lists.{fill};
ghost use Rattle.rule.specs.Kernel.{sum};
ghost use Rattle.rule.specs.Payment.{payer_of, amount_of};
ghost use Rattle.rule.specs.Queue.{total};
ghost use Rattle.rule.specs.House.{sent};
ghost use Rattle.rule.specs.Table.{queue_of, leaving, staying};
ghost use Rattle.tables.specs.Sizes.{members, table, last_number};
ghost use Rattle.tables.specs.Layout.{tables, count_of, waiting_of, last_of, settled_of, house_in};
ghost use Rattle.tables.specs.Holds.{Counters, Accounts, Holds};
ghost use Rattle.booking.specs.Booking.{listed, head_alone, counters_booked, booked_in, covered_all, Counted, Weighed, HeadAt};
ghost use Rattle.finder.specs.Positions.{Entering};
ghost use Rattle.booking.specs.Steps.{Words, Countable, Passes, entered, closed_up};

use tables::House;

// How many payments are looked at a turn for a head.
const BLOCK: usize = 16;

// Where the counted payments take each balance.
pub fn weigh(
    accounts: &[i64],
    counters: &[u32],
    pays: &[u64],
    counts: &[u16; House::MEMBERS],
) -> [i64; House::MEMBERS]
    requires { Counted (tables accounts.now counters.now pays.now) counts.now }
    ensures { Weighed (tables accounts.now counters.now pays.now) counts.now result }
{
    let mut positions = balances(accounts);
    let waiting = &pays[..counters[House::WAITING_AT] as usize];
    enter_leaving(waiting, &mut positions, Left::of(counts));
    positions
}

// Whether each member is covered at these positions: none is below minus its line.
pub fn covered(positions: &[i64; House::MEMBERS], accounts: &[i64], counters: &[u32]) -> bool
    requires { Counters counters.now × Accounts (count_of counters.now) accounts.now }
    ensures { result ≡ covered_all (count_of counters.now) positions.now accounts.now }
{
    // Kept: tried with `zip`; that what it hands on is in order stays open.
    let n = counters[House::MEMBERS_AT] as usize;
    (0..n).all(|i| !finder::is_short(positions[i], accounts[House::LINES_AT + i]))
}

// Books the counts, which lead to these positions. Answers the sum of the amounts that left.
pub fn book(
    accounts: &mut [i64],
    counters: &mut [u32],
    pays: &mut [u64],
    positions: &[i64; House::MEMBERS],
    counts: &[u16; House::MEMBERS],
) -> u64
    requires counted { Counted (tables accounts.old counters.old pays.old) counts.now }
    requires weighed { Weighed (tables accounts.old counters.old pays.old) counts.now positions.now }
    ensures pays_after { tables accounts.new counters.new pays.new ≡ booked_in (tables accounts.old counters.old pays.old) (listed counts.now) }
    ensures value { result ≡ sum (count_of counters.old) (sent (house_in (tables accounts.old counters.old pays.old)) (listed counts.now)) }
{
    let waiting = &mut pays[..counters[House::WAITING_AT] as usize];
    let sum = close_up(waiting, Left::of(counts));
    accounts[..House::MEMBERS].copy_from_slice(positions);
    count_off(counters, counts);
    sum
}

// ---- one head

// Where a member's head stands, of the first `used` payments.
// Kept: `pays` is the table and `used` how many wait in it (document 01, "What a house holds"), as `HeadAt` says.
// It is looked for in blocks, where LLVM unrolls the search: one over all takes 1.8 times as long where the head stands far back.
pub fn head_of(pays: &[u64], used: usize, seat: usize) -> usize
    requires { (used ≤ length pays.now) × (0 < length (queue_of seat (take used pays.now))) }
    ensures { HeadAt used pays.now seat result }
{
    let (blocks, rest) = pays[..used].as_chunks::<BLOCK>();
    for (k, block) in blocks.iter().enumerate() {
        if let Some(i) = first_of(block, seat) {
            return k * BLOCK + i;
        }
    }
    blocks.len() * BLOCK + first_of(rest, seat).unwrap()
}

// The place of the first payment that a member pays.
fn first_of(pays: &[u64], seat: usize) -> Option<usize>
    ensures { result ≡ position (λ w. payer_of w == seat) pays.now }
{
    pays.iter().position(|&w| rule::payer_of(w) == seat)
}

// Books a member's head, which stands at place `at`.
pub fn book_head(
    accounts: &mut [i64],
    counters: &mut [u32],
    pays: &mut [u64],
    seat: usize,
    at: usize,
)
    requires { Holds (tables accounts.old counters.old pays.old) × (seat < members) × HeadAt (waiting_of counters.old) pays.old seat at }
    ensures { tables accounts.new counters.new pays.new ≡ booked_in (tables accounts.old counters.old pays.old) (head_alone seat) }
{
    let w = pays[at];
    finder::enter(&mut accounts[..House::MEMBERS], w);
    close_one(&mut pays[at..counters[House::WAITING_AT] as usize]);
    count_head(counters, seat);
}

// A member's head is settled, and waits no more.
fn count_head(counters: &mut [u32], seat: usize)
    requires { (table ≤ length counters.old) × (seat < members) × (1 ≤ waiting_of counters.old) × (settled_of counters.old seat < last_of counters.old seat) }
    ensures { counters.new ≡ counters_booked counters.old (head_alone seat) }
{
    counters[House::SETTLED_AT + seat] += 1;
    counters[House::WAITING_AT] -= 1;
}

// Closes a gap of one place at the front: the rest moves down, and the last place is 0.
// Kept: `close_gap` takes 3 times as long for 2,048 places: `copy_within` by one place is a `rep movsb`, `rotate_left(1)` a memmove.
fn close_one(s: &mut [u64])
    requires { 1 ≤ length s.old }
    ensures { s.new ≡ drop 1 s.old ++ replicate 1 0 }
{
    let last = s.len() - 1;
    s.rotate_left(1);
    s[last] = 0;
}

// ---- the steps

// What is left of the counts as a pass goes on: how many payments of each member are still to leave, and how many those are.
#[derive(Drop)]
struct Left {
    counts: [u16; House::MEMBERS],
    more: u32,
    ghost summed: { more ≡ sum (length counts) (listed counts) },
}

impl Left {
    // Before a pass all counts are left.
    fn of(counts: &[u16; House::MEMBERS]) -> Left
        ensures { result.counts ≡ counts.now }
    {
        Left {
            counts: *counts,
            more: tally(counts),
        }
    }

    // Whether no more are to leave.
    fn is_used_up(&self) -> bool
        ensures { IsTrue result → (ws : List ℕ) → leaving (listed self.now.counts) ws ≡ [] }
    {
        self.more == 0
    }

    // Whether a payment leaves. It is counted then.
    #[tactic(auto, using(crate::proofs::Passing::seats))]
    fn lets_go(&mut self, w: u64) -> bool
        ensures { Passes w self.old.counts self.new.counts result }
    {
        let seat = rule::payer_of(w);
        if self.counts[seat] == 0 {
            false
        } else {
            self.counts[seat] -= 1;
            self.more -= 1;
            true
        }
    }
}

// The first 64 of the accounts lent: balances, or lines where those are lent.
// Kept: two lines of std; a generic one with `settling::widened` and `night::openings::block` would need a law at either type.
pub fn balances(accounts: &[i64]) -> [i64; House::MEMBERS]
    requires { members ≤ length accounts.now }
    ensures { (i : ℕ) → i < members → get_or result i (pos 0) ≡ get_or accounts.now i (pos 0) }
{
    let mut r = [0; House::MEMBERS];
    r.copy_from_slice(&accounts[..House::MEMBERS]);
    r
}

// Enters the payments that leave, of those that wait, into positions that hold the balances. The places behind the last payment
// that leaves are not looked at.
fn enter_leaving(waiting: &[u64], positions: &mut [i64; House::MEMBERS], mut left: Left)
    requires { Entering (length waiting.now) waiting.now positions.old }
    ensures { positions.new ≡ entered positions.old (leaving (listed left.counts) waiting.now) }
{
    for &w in waiting {
        if left.is_used_up() {
            break;
        }
        let leaves = left.lets_go(w);
        if leaves {
            finder::enter(positions, w);
        }
    }
}

// Takes the payments that leave out of those that wait, and closes the gaps: what stands behind the last of them only moves down.
// Answers the sum of the amounts that left.
fn close_up(waiting: &mut [u64], mut left: Left) -> u64
    requires { Words (length waiting.old) waiting.old }
    ensures pays_after { waiting.new ≡ closed_up (length waiting.old) (staying (listed left.counts) waiting.old) }
    ensures value { result ≡ total amount_of (leaving (listed left.counts) waiting.old) }
{
    let mut sum = 0;
    let mut to = 0;
    let mut gone = 0;
    // Kept: a place is read at `from` and written at `to` of the same list, which an iterator would borrow.
    for from in 0..waiting.len() {
        if left.is_used_up() {
            break;
        }
        let w = waiting[from];
        let stays = !left.lets_go(w);
        if stays {
            waiting[to] = w;
            to += 1;
        } else {
            sum += rule::amount_of(w);
            gone += 1;
        }
    }
    close_gap(&mut waiting[to..], gone);
    sum
}

// Closes a gap of so many places at the front: the rest moves down, and the places behind it are 0.
fn close_gap(s: &mut [u64], gap: usize)
    requires { gap ≤ length s.old }
    ensures { s.new ≡ drop gap s.old ++ replicate gap 0 }
{
    if gap == 0 {
        return;
    }
    let rest = s.len() - gap;
    s.copy_within(gap.., 0);
    s[rest..].fill(0);
}

// What left is settled, and waits no more.
fn count_off(counters: &mut [u32], counts: &[u16; House::MEMBERS])
    requires { Countable counters.old counts.now }
    ensures { counters.new ≡ counters_booked counters.old (listed counts.now) }
{
    add_counts(
        &mut counters[House::SETTLED_AT..House::SPARE_COUNTERS_AT],
        counts,
    );
    counters[House::WAITING_AT] -= tally(counts);
}

// Adds to each counter of a block what was settled.
// Kept: std says nothing of what a `zip` over `iter_mut` leaves.
fn add_counts(block: &mut [u32], counts: &[u16; House::MEMBERS])
    requires block_len { length block.old ≡ members }
    requires by_index { (i : ℕ) → i < members → get_or block.old i 0 + get_or counts.now i 0 ≤ last_number }
    ensures { block.new ≡ fill members (λ i. get_or block.old i 0 + get_or counts.now i 0) block.old }
{
    for (i, &c) in counts.iter().enumerate() {
        block[i] += u32::from(c);
    }
}

// How many payments the counts are.
pub fn tally(counts: &[u16]) -> u32
    requires { length counts.now ≤ members }
    ensures { result ≡ sum (length counts.now) (listed counts.now) }
{
    counts.iter().map(|&c| u32::from(c)).sum()
}
