// Open, deposit and submit on lent bytes that are long enough: the lists are read out, the house answers, and only where it accepts is
// anything written.
#![tactic(auto)]

ghost use Rattle.std.specs.Prelude.{◌≡◌, [], ◌≤◌, length};
ghost use Rattle.tables.specs.Sizes.{bytes};
ghost use Rattle.answers.specs.Outcome.{held, called};
ghost use Rattle.opening.specs.Open.{open_act};
ghost use Rattle.entry.specs.Deposit.{deposit_act};
ghost use Rattle.entry.specs.Submit.{submit_act};
ghost use Rattle.lent.specs.Reply.{lends, on_bytes, code_in};
ghost use Rattle.lent.specs.Asks.{told_opened, told_deposited, told_submitted};

use answers::Refusal;
use lent::Lists;

// An opening with these balances and lines.
pub fn open(
    s: &mut [u8],
    count: u64,
    b: &[i64],
    l: &[i64],
    answer: &mut [u8],
) -> Result<(), Refusal>
    requires { (bytes ≤ length s.old) × (8 ≤ length answer.old) }
    ensures { (code_in result, lends s.new [] answer.new) ≡ on_bytes told_opened (held (open_act count b.now l.now)) (lends s.old [] answer.old) }
{
    let Lists(mut a, mut c, mut p) = Lists::of(s);
    let sum = house::open(&mut a, &mut c, &mut p, count, b, l)?;
    Lists(a, c, p).store(s);
    words::write(answer, 0, sum);
    Ok(())
}

// A deposit to a member.
pub fn deposit(s: &mut [u8], member: u64, amount: u64, answer: &mut [u8]) -> Result<(), Refusal>
    requires { (bytes ≤ length s.old) × (8 ≤ length answer.old) }
    ensures { (code_in result, lends s.new [] answer.new) ≡ on_bytes told_deposited (called (deposit_act member amount)) (lends s.old [] answer.old) }
{
    let Lists(mut a, c, p) = Lists::of(s);
    let balance = house::deposit(&mut a, &c, &p, member, amount)?;
    Lists(a, c, p).store(s);
    words::write(answer, 0, balance);
    Ok(())
}

// A payment at the tail of its payer's queue.
pub fn submit(s: &mut [u8], payer: u64, number: u64, payee: u64, amount: u64) -> Result<(), Refusal>
    requires { bytes ≤ length s.old }
    ensures { (code_in result, lends s.new [] []) ≡ on_bytes told_submitted (called (submit_act payer number payee amount)) (lends s.old [] []) }
{
    let Lists(a, mut c, mut p) = Lists::of(s);
    house::submit(&a, &mut c, &mut p, payer, number, payee, amount)?;
    Lists(a, c, p).store(s);
    Ok(())
}
