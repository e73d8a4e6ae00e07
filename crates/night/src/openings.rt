// The lines of the opening: the house, its members, and the house opened with what was given.
ghost use Rattle.std.specs.Prelude.{◌≡◌, [], ◌+◌, ◌≤◌, ◌<◌, ◌^◌, pos, length, take, drop, set};
ghost use Rattle.night.specs.declared.Stage.TheVariants.{Over};
ghost use Rattle.numbers.specs.Numbers.{most_digits};
ghost use Rattle.tables.specs.Sizes.{members, table};
ghost use Rattle.tables.specs.Layout.{lines_at, Tables, tables};
ghost use Rattle.dayfile.specs.Reading.{meant};
ghost use Rattle.daylines.specs.Calls.{refusal};
ghost use Rattle.night.specs.Lines.{done_by, house_does, open_does, member_does};
ghost use Rattle.night.specs.Stands.{Giving, SmallMember};

use crate::{Does, Stage, quiet, says};
use answers::Refusal;
use dayfile::{Entry, OpeningLine};
use sheet::Says;
use tables::House;

// A refusal in the opening: the night stops.
// Kept: beside `night::day::stray`, since each says one rule of document 01, and an edit holds it to that.
fn stop(n: u64, r: Refusal) -> Does
    ensures { result ≡ record { said = Some (refusal n r); stage = Over } }
{
    says(daylines::refused(n, r), Stage::Over)
}

// The first line: a house of 1 to 64 members.
pub fn house_line(n: u64, e: Entry) -> Does
    ensures { (t : Tables) → done_by result t.accounts t.counters t.pays ≡ house_does n t (meant e []) }
{
    let Entry::Opening(OpeningLine::House(count)) = e else {
        return stop(n, Refusal::Line);
    };
    if !(1..=House::MEMBERS as u64).contains(&count) {
        return stop(n, Refusal::Opening);
    }
    quiet(Stage::Members(count, 0))
}

// The line behind k members of count: the next member.
pub fn member_line(
    accounts: &mut [i64],
    counters: &mut [u32],
    pays: &mut [u64],
    count: u64,
    k: u64,
    n: u64,
    e: Entry,
) -> Does
    requires { Giving count k (tables accounts.old counters.old pays.old) × SmallMember e }
    ensures { done_by result accounts.new counters.new pays.new ≡ member_does n count k (tables accounts.old counters.old pays.old) (meant e []) }
{
    let Entry::Opening(OpeningLine::Member(m, b, l)) = e else {
        return stop(n, Refusal::Line);
    };
    if m != k + 1 {
        return stop(n, Refusal::Line);
    }
    give(accounts, k as usize, b, l);
    if k + 1 < count {
        return quiet(Stage::Members(count, k + 1));
    }
    open(accounts, counters, pays, count, n)
}

// The balance and the line of a member, kept until the last one came.
fn give(accounts: &mut [i64], seat: usize, balance: i64, line: u64)
    requires { (table ≤ length accounts.old) × (seat < members) × (line < 10 ^ most_digits) }
    ensures { accounts.new ≡ set (set accounts.old seat balance) (lines_at + seat) (pos line) }
{
    accounts[seat] = balance;
    accounts[House::LINES_AT + seat] = line as i64;
}

// Opens the house with what was given.
fn open(accounts: &mut [i64], counters: &mut [u32], pays: &mut [u64], count: u64, n: u64) -> Does
    requires { (count ≤ members) × (table ≤ length accounts.old) }
    ensures { done_by result accounts.new counters.new pays.new ≡ open_does n count (tables accounts.old counters.old pays.old) }
{
    let m = count as usize;
    let balances = block(accounts, 0, m);
    let lines = block(accounts, House::LINES_AT, m);
    match house::open(accounts, counters, pays, count, &balances[..m], &lines[..m]) {
        Ok(sum) => says(Says::Open(n, count, sum), Stage::Day),
        Err(r) => stop(n, r),
    }
}

// The first m accounts from place from on.
// Kept: an array of the most members with m beside it, since the house has no heap; it is two lines of std, as `booking::balances`.
fn block(accounts: &[i64], from: usize, m: usize) -> [i64; House::MEMBERS]
    requires { (m ≤ members) × (from + m ≤ length accounts.now) }
    ensures { take m result ≡ take m (drop from accounts.now) }
{
    let mut b = [0i64; House::MEMBERS];
    b[..m].copy_from_slice(&accounts[from..from + m]);
    b
}
