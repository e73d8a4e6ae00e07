// What stands at which lent byte: the three lists of a house, lists of counts, balances and lines, and answers.
// Kept: the tables are bytes that a host lends, so that they are long enough (`bytes ≤ length s`) stands in each contract.
#![tactic(auto)]

ghost use Rattle.std.specs.Prelude.{◌≡◌, ◌*◌, ◌≤◌};
ghost use Rattle.tables.specs.Sizes.{members};
ghost use Rattle.lent.specs.Reply.{code_in};
ghost use Rattle.lent.specs.Bytes.{roomy, entries};

use answers::Refusal;
use tables::House;

mod list;
mod lists;
pub mod tell;

pub use list::LentList;
pub use lists::Lists;

// Whether the tables are long enough, and the answer has room for `least` bytes.
pub fn is_roomy(bytes: usize, answer: usize, least: usize) -> bool
    ensures { result ≡ roomy bytes answer least }
{
    bytes >= House::BYTES && answer >= least
}

// The code of what a call came to, as C is told it: 0 where it accepts.
pub fn code(r: Result<(), Refusal>) -> u32
    ensures { result ≡ code_in r }
{
    match r {
        Ok(()) => 0,
        Err(why) => u32::from(why),
    }
}

// ---- lent lists

// How many numbers of `width` bytes a lent list of that many bytes holds, to the byte: 0 if that leaves a rest, or if they are more than a
// house has members.
// Kept: 0 is what `lent::specs::Bytes::entries` says of such a list, and no list of a house has 0 entries.
pub fn entries_of(bytes: usize, width: usize) -> usize
    requires { 1 ≤ width }
    ensures { (result ≡ entries width bytes) × (result * width ≤ bytes) × (result ≤ members) }
{
    if bytes % width != 0 {
        return 0;
    }
    if bytes / width > House::MEMBERS {
        return 0;
    }
    bytes / width
}
