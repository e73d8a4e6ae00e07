// Judging single conditions of document 01, on tables that hold a state.
ghost use Rattle.std.specs.Prelude.{◌≡◌, ◌≤◌, length};
ghost use Rattle.tables.specs.Sizes.{table};
ghost use Rattle.answers.specs.Codes.{is_member, is_amount};

use tables::House;

// The number is a member's: 1 to the count.
pub fn is_member(counters: &[u32], member: u64) -> bool
    requires { table ≤ length counters.now }
    ensures { result ≡ is_member counters.now member }
{
    (1..=u64::from(counters[House::MEMBERS_AT])).contains(&member)
}

// The amount is 1 to 10^12.
pub fn is_amount(amount: u64) -> bool
    ensures { result ≡ is_amount amount }
{
    (1..=House::MOST_AMOUNT).contains(&amount)
}
