// Release, group and resolve on lent bytes that are long enough: the lists are read out, the house answers, and only where it accepts is
// anything written.
#![tactic(auto)]

ghost use Rattle.std.specs.Prelude.{◌≡◌, [], ◌*◌, ◌≤◌, length};
ghost use Rattle.tables.specs.Sizes.{bytes};
ghost use Rattle.answers.specs.Outcome.{called};
ghost use Rattle.settling.specs.Release.{release_act};
ghost use Rattle.settling.specs.Group.{group_act};
ghost use Rattle.resolving.specs.Resolve.{resolve_act};
ghost use Rattle.lent.specs.Reply.{lends, on_bytes, code_in};
ghost use Rattle.lent.specs.Asks.{told_released, told_grouped, told_resolved};

use answers::Refusal;
use lent::Lists;

// The release of a member's head payment.
pub fn release(s: &mut [u8], member: u64, answer: &mut [u8]) -> Result<(), Refusal>
    requires { (bytes ≤ length s.old) × (16 ≤ length answer.old) }
    ensures { (code_in result, lends s.new [] answer.new) ≡ on_bytes told_released (called (release_act member)) (lends s.old [] answer.old) }
{
    let Lists(mut a, mut c, mut p) = Lists::of(s);
    let d = house::release(&mut a, &mut c, &mut p, member)?;
    Lists(a, c, p).store(s);
    lent::tell::pair(answer, d.number, d.amount);
    Ok(())
}

// A group of these counts.
pub fn group(s: &mut [u8], k: &[u16], answer: &mut [u8]) -> Result<(), Refusal>
    requires { (bytes ≤ length s.old) × (16 ≤ length answer.old) }
    ensures { (code_in result, lends s.new [] answer.new) ≡ on_bytes told_grouped (called (group_act k.now)) (lends s.old [] answer.old) }
{
    let Lists(mut a, mut c, mut p) = Lists::of(s);
    let d = house::group(&mut a, &mut c, &mut p, k)?;
    Lists(a, c, p).store(s);
    lent::tell::pair(answer, d.payments, d.sum);
    Ok(())
}

// A resolution, with room lent for its counts, which then go into the lent bytes.
pub fn resolve(
    s: &mut [u8],
    counts: &mut [u8],
    k: &mut [u16],
    answer: &mut [u8],
) -> Result<(), Refusal>
    requires { (bytes ≤ length s.old) × (length k.old * 2 ≤ length counts.old) × (48 ≤ length answer.old) }
    ensures { (code_in result, lends s.new counts.new answer.new) ≡ on_bytes told_resolved (called (resolve_act k.old)) (lends s.old counts.old answer.old) }
{
    let Lists(mut a, mut c, mut p) = Lists::of(s);
    let d = house::resolve(&mut a, &mut c, &mut p, k)?;
    Lists(a, c, p).store(s);
    words::rows::encode(k, counts, 0);
    lent::tell::resolution(answer, d);
    Ok(())
}
