// The finder of the largest allowed set. Everything is in at first; round by round the last payment of each short member is taken off,
// and of whoever is short then, until none is. Which payments are in is told by the tops: those of a member that stand below its top.
// A top is 0 or just behind a payment of its member, and the befores lead from each payment to just behind the same payer's before it.
#![tactic(auto)]

ghost use Rattle.std.specs.Prelude.{◌≡◌, ◌+◌, ◌<◌, ◌≤◌, pos, ◌-ℤ◌, ◌≤ℤ◌, length, get_or};
ghost use Rattle.std.specs.Int.Signed.{lt_z};
ghost use Rattle.rule.specs.Payment.{payer_of, payee_of, amount_of};
ghost use Rattle.tables.specs.Sizes.{members, places};
ghost use Rattle.finder.specs.Limits.{far, far_amount, far_position};
ghost use Rattle.finder.specs.Tops.{Topped, NoneIn, AllIn, Linked, CountsBelow};
ghost use Rattle.finder.specs.Positions.{added, moved, Steady, Entering, Entered};
ghost use Rattle.finder.specs.Finder.{Ready, TakenOff, Off, Stepped, Rounded, FoundSet};
ghost use Rattle.finder.specs.Resolve.{Sits, LargestFound};

use tables::House;

// Finds the largest set: the payments below the tops. The positions hold the balances before, and then the balances as they stand
// once that set is booked.
// Kept: positions, lines and tops are lists by member, as the accounts are; `pays` is the table and `used` how many wait in it
// (document 01, "What a house holds"), as `Sits` and `LargestFound` say.
pub fn resolve(
    pays: &[u64],
    used: usize,
    positions: &mut [i64],
    lines: &[i64],
    tops: &mut [usize],
    count: usize,
)
    requires { Sits count used pays.now positions.old lines.now tops.old }
    ensures { LargestFound count used pays.now positions.old lines.now positions.new tops.new }
{
    let waiting = &pays[..used];
    let mut befores = [0u16; House::PLACES];
    enter_all(waiting, positions);
    tops.fill(0);
    link_all(waiting, tops, &mut befores);
    let search = Search {
        pays: waiting,
        befores: &befores,
        lines,
        count,
    };
    search.find(positions, tops);
}

// How many payments of each member stand below its top.
// Kept: the table and how many wait in it, as `Topped` says.
#[tactic(auto, using(crate::proofs::Tops::under))]
pub fn count_below(pays: &[u64], used: usize, tops: &[usize]) -> [u16; House::MEMBERS]
    requires topped { Topped used pays.now tops.now }
    requires used_le_places { used ≤ places }
    ensures { CountsBelow pays.now tops.now result }
{
    let mut counts = [0u16; House::MEMBERS];
    for (m, &w) in pays[..used].iter().enumerate() {
        let payer = rule::payer_of(w);
        if m < tops[payer] {
            counts[payer] += 1;
        }
    }
    counts
}

// What a search reads and never changes: the payments that wait, each linked to the place just behind the same payer's before it, and the
// lines of the first `count` members, who are looked at.
// Kept: `Ready` stays in three contracts, since it speaks of the positions and the tops, which a search changes.
// Kept: the links stand beside the payments in an array of the most places, since the tables are as document 01 has them, and there is no heap.
#[derive(Clone, Copy)]
pub struct Search<'a> {
    pub pays: &'a [u64],
    pub befores: &'a [u16],
    pub lines: &'a [i64],
    pub count: usize,
    pub ghost linked: { Linked (length pays.now) pays.now befores.now },
}

impl Search<'_> {
    // Takes payments off, from any tops around the largest set, until no member is short.
    pub fn find(&self, positions: &mut [i64], tops: &mut [usize])
        requires { let s = self.now in Ready s.count (length s.pays.now) s.pays.now positions.old s.lines.now tops.old }
        ensures { let s = self.now in FoundSet s.count (length s.pays.now) s.pays.now s.lines.now positions.old positions.new tops.old tops.new }
    {
        while self.round(positions, tops) {}
    }

    // One round: a step from each member. Whether one took a payment off.
    fn round(&self, positions: &mut [i64], tops: &mut [usize]) -> bool
        requires { let s = self.now in Ready s.count (length s.pays.now) s.pays.now positions.old s.lines.now tops.old }
        ensures { let s = self.now in Rounded result s.count (length s.pays.now) s.count s.pays.now s.lines.now positions.old positions.new tops.old tops.new }
    {
        let mut any = false;
        for member in 0..self.count {
            if self.step(positions, tops, member) {
                any = true;
            }
        }
        any
    }

    // Takes payments off the member while it is short, then off each payee who lost one, and so on: the payees to look at stand in the set
    // `due`, member i as 2^i. Whether a payment was taken off.
    #[tactic(auto, using(crate::proofs::Tops::under))]
    fn step(&self, positions: &mut [i64], tops: &mut [usize], member: usize) -> bool
        requires ready { let s = self.now in Ready s.count (length s.pays.now) s.pays.now positions.old s.lines.now tops.old }
        requires member_lt_count { member < self.now.count }
        ensures { let s = self.now in Stepped result s.count (length s.pays.now) member s.pays.now s.lines.now positions.old positions.new tops.old tops.new }
    {
        let mut m = member;
        let mut due = 0u64;
        let mut taken = false;
        loop {
            if m < self.count && is_short(positions[m], self.lines[m]) {
                let payee = self.take_off(positions, tops, m);
                due |= 1u64 << payee;
                taken = true;
                continue;
            }
            if due == 0 {
                return taken;
            }
            m = due.trailing_zeros() as usize;
            due &= due - 1;
        }
    }

    // Takes the member's last payment below its top off: the payer has the amount back, and the top is just behind the payment before.
    // Tells the payee, who lost the amount.
    fn take_off(&self, positions: &mut [i64], tops: &mut [usize], member: usize) -> usize
        requires { Off self.now.pays.now self.now.befores.now positions.old tops.old member }
        ensures { TakenOff result self.now.pays.now member positions.old positions.new tops.old tops.new }
    {
        let top = tops[member];
        let place = top - 1;
        let w = self.pays[place];
        let payee = rule::payee_of(w);
        let amount = rule::amount_of(w);
        transfer(positions, payee, member, amount);
        let before = usize::from(self.befores[place]);
        tops[member] = before;
        payee
    }
}

// Whether a position is below minus the line. Exactly there is enough.
pub fn is_short(position: i64, line: i64) -> bool
    requires { pos 0 ≤ℤ line }
    ensures { result ≡ lt_z position (pos 0 -ℤ line) }
{
    position < -line
}

// Enters all payments into positions that hold the balances.
fn enter_all(pays: &[u64], positions: &mut [i64])
    requires { Entering (length pays.now) pays.now positions.old }
    ensures { Entered (length pays.now) pays.now positions.old positions.new }
{
    for &w in pays {
        enter(positions, w);
    }
}

// Enters one payment: its amount goes from the payer to the payee.
#[tactic(auto, using(crate::proofs::Tops::under))]
pub fn enter(positions: &mut [i64], w: u64)
    requires steady { Steady positions.old }
    requires w_bound { amount_of w ≤ far_amount }
    ensures { positions.new ≡ moved positions.old (payer_of w) (payee_of w) (amount_of w) }
{
    let payer = rule::payer_of(w);
    let payee = rule::payee_of(w);
    let amount = rule::amount_of(w);
    transfer(positions, payer, payee, amount);
}

// The amount goes from one member's position to another's.
fn transfer(positions: &mut [i64], giver: usize, taker: usize, amount: u64)
    requires steady { Steady positions.old }
    requires giver_lt_members { (giver < members) × (taker < members) × (amount ≤ far_amount) }
    ensures { positions.new ≡ moved positions.old giver taker amount }
{
    let by = amount as i64;
    add(positions, giver, -by);
    add(positions, taker, by);
}

// One position changes by an amount.
fn add(positions: &mut [i64], member: usize, by: i64)
    requires member_bound { member < length positions.old }
    requires by_bound { far by ≤ far_amount }
    requires pos_bound { far (get_or positions.old member (pos 0)) ≤ far_position + far_amount }
    ensures { positions.new ≡ added positions.old member by }
{
    positions[member] += by;
}

// Takes every payment in, one after the other: its payer's top comes to stand just behind it, and where that top was is kept in the
// befores.
#[tactic(auto, using(crate::proofs::Tops::under))]
fn link_all(pays: &[u64], tops: &mut [usize], befores: &mut [u16])
    requires none_in { NoneIn tops.old }
    requires pays_in_bounds { (length pays.now ≤ length befores.old) × (length pays.now ≤ places) }
    ensures all_in { AllIn (length pays.now) pays.now tops.new }
    ensures linked { Linked (length pays.now) pays.now befores.new }
{
    for (m, &w) in pays.iter().enumerate() {
        let payer = rule::payer_of(w);
        befores[m] = tops[payer] as u16;
        tops[payer] = m + 1;
    }
}
