// Snarevapor for a host: each call on lent bytes, by a function for C. `include/snarevapor.h` is its manual.
#![tactic(auto)]

ghost use Rattle.std.specs.Prelude.{◌≡◌, []};
ghost use Rattle.lent.specs.Reply.{lends};
ghost use Rattle.lent.specs.Asks.{opens, deposits, submits, releases, groups, resolves, replied};

use answers::Refusal;
use lent::LentList;

// Opens a house of `count` members, whatever the tables held. Told: the sum of balances.
#[unsafe(no_mangle)]
pub extern "C" fn snarevapor_open(
    tables: &mut [u8],
    count: u64,
    balances: &[u8],
    lines: &[u8],
    answer: &mut [u8],
) -> u32
    ensures { (result, lends tables.new [] answer.new) ≡ replied (opens count balances.now lines.now) (lends tables.old [] answer.old) }
{
    if !lent::is_roomy(tables.len(), answer.len(), 8) {
        return u32::from(Refusal::State);
    }
    let b = LentList::of(balances);
    let l = LentList::of(lines);
    lent::code(lent_entry::open(tables, count, b.as_slice(), l.as_slice(), answer))
}

// A deposit to a member. Told: the new balance.
#[unsafe(no_mangle)]
pub extern "C" fn snarevapor_deposit(
    tables: &mut [u8],
    member: u64,
    amount: u64,
    answer: &mut [u8],
) -> u32
    ensures { (result, lends tables.new [] answer.new) ≡ replied (deposits member amount) (lends tables.old [] answer.old) }
{
    if !lent::is_roomy(tables.len(), answer.len(), 8) {
        return u32::from(Refusal::State);
    }
    lent::code(lent_entry::deposit(tables, member, amount, answer))
}

// A payment at the tail of its payer's queue. It settles nothing.
#[unsafe(no_mangle)]
pub extern "C" fn snarevapor_submit(
    tables: &mut [u8],
    payer: u64,
    number: u64,
    payee: u64,
    amount: u64,
) -> u32
    ensures { (result, lends tables.new [] []) ≡ replied (submits payer number payee amount) (lends tables.old [] []) }
{
    if !lent::is_roomy(tables.len(), 0, 0) {
        return u32::from(Refusal::State);
    }
    lent::code(lent_entry::submit(tables, payer, number, payee, amount))
}

// Settles a member's head payment if it is covered. Told: the payment's number, and its amount.
#[unsafe(no_mangle)]
pub extern "C" fn snarevapor_release(tables: &mut [u8], member: u64, answer: &mut [u8]) -> u32
    ensures { (result, lends tables.new [] answer.new) ≡ replied (releases member) (lends tables.old [] answer.old) }
{
    if !lent::is_roomy(tables.len(), answer.len(), 16) {
        return u32::from(Refusal::State);
    }
    lent::code(lent_settling::release(tables, member, answer))
}

// Settles that many payments from each head at once, if the set is allowed. Told: how many payments, and their sum.
#[unsafe(no_mangle)]
pub extern "C" fn snarevapor_group(tables: &mut [u8], counts: &[u8], answer: &mut [u8]) -> u32
    ensures { (result, lends tables.new [] answer.new) ≡ replied (groups counts.now) (lends tables.old [] answer.old) }
{
    if !lent::is_roomy(tables.len(), answer.len(), 16) {
        return u32::from(Refusal::State);
    }
    let k = LentList::of(counts);
    lent::code(lent_settling::group(tables, k.as_slice(), answer))
}

// Settles the largest allowed set, and writes its counts. Told: the verdict, how many payments, their sum, the set of members still
// waiting, how many those are, and the lowest.
#[unsafe(no_mangle)]
pub extern "C" fn snarevapor_resolve(tables: &mut [u8], counts: &mut [u8], answer: &mut [u8]) -> u32
    ensures { (result, lends tables.new counts.new answer.new) ≡ replied resolves (lends tables.old counts.old answer.old) }
{
    if !lent::is_roomy(tables.len(), answer.len(), 48) {
        return u32::from(Refusal::State);
    }
    let mut k = LentList::of(counts);
    lent::code(lent_settling::resolve(tables, counts, k.as_mut_slice(), answer))
}
