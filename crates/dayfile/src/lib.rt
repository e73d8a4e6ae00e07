// A line of the day file, from its bytes to what it says.
#![tactic(auto)]

ghost use Rattle.std.specs.Prelude.{◌≡◌, cond, [], ◌+◌, ◌-◌, ◌≤◌, eqb, length, take, drop, IfSome};
ghost use Rattle.std.proofs.lemmas.List.Edits.{sets};
ghost use Rattle.numbers.specs.Numbers.{number_of, signed_of};
ghost use Rattle.dayfile.specs.declared.OpeningLine.TheVariants as openings;
ghost use Rattle.dayfile.specs.declared.Entry.TheVariants as entries;
ghost use Rattle.dayfile.specs.Fields.{up_to, fields_from, same};
ghost use Rattle.dayfile.specs.Entries.{most_counts, edition as first, numbers_of, values_of, count_from, kind_of, of_kind, of_numbers, as_member, member_of, entry_of};
ghost use Rattle.dayfile.specs.Reading.{Tells, left_of};

use numbers::{read_number, read_signed};

pub mod lines;

// The most lines of a day file.
pub const MOST_LINES: u64 = 1_000_000;

// The most counts of a group.
pub const MOST_COUNTS: usize = 64;

// The edition of the day file.
const EDITION: u64 = 1;

// The kind of a payment by `pay`.
// Kept: a number, as the definition of a line has it (`dayfile::specs::Entries::DayLine`).
const PLAIN: u64 = 0;

// A line of the opening: house count; member number, balance, line.
#[derive(Drop)]
pub enum OpeningLine {
    House(u64),
    Member(u64, i64, u64),
}

// A line of the day: a payment's kind, payer, number, payee, amount; deposit member, amount; release member; group how many counts, which
// stand in the lent list; resolve.
// Kept: the counts stay a lent list beside the line, since an enum with an array would be copied on each line.
#[derive(Drop)]
pub enum DayLine {
    Pay(u64, u64, u64, u64, u64),
    Deposit(u64, u64),
    Release(u64),
    Group(usize),
    Resolve,
}

// What a line says.
// Kept: a bad line is an entry like another, which each stage of the night answers (`dayfile::specs::Entries::Entry`).
#[derive(Drop)]
pub enum Entry {
    Opening(OpeningLine),
    Day(DayLine),
    End,
    Bad,
}

// The kind that a line's first word names, where all its fields are numbers.
// Kept: a word that names none has a kind of its own, as `dayfile::specs::Entries::kind_of` says.
#[derive(Clone, Copy)]
enum Kind {
    House,
    Pay,
    Deposit,
    Release,
    Group,
    Resolve,
    End,
    Other,
}

// What a line says. A group's counts are left in the lent list.
pub fn read_line(line: &[u8], counts: &mut [u64; MOST_COUNTS]) -> Entry
    ensures tells { Tells result counts.new (entry_of line.now) }
    ensures counts_after { counts.new ≡ sets counts.old 0 (left_of line.now) }
{
    let e = next_tab(line, 0);
    if &line[..e] == b"member".as_slice() {
        return read_member(line, e + 1);
    }
    read_kind(line, e, counts)
}

// What a line says whose first word, which ends at e, is not member.
fn read_kind(line: &[u8], e: usize, counts: &mut [u64; MOST_COUNTS]) -> Entry
    requires { e ≤ length line.now }
    ensures tells { Tells result counts.new (of_numbers (kind_of (take e line.now)) (numbers_of most_counts (fields_from (e + 1) line.now))) }
    ensures counts_after { counts.new ≡ sets counts.old 0 (values_of (numbers_of most_counts (fields_from (e + 1) line.now))) }
{
    match read_numbers(line, e + 1, counts) {
        Some(m) => shape(kind_of(&line[..e]), &counts[..m]),
        None => Entry::Bad,
    }
}

// The place of the next tab from place from on, or the line's end.
fn next_tab(line: &[u8], from: usize) -> usize
    requires { from ≤ length line.now }
    ensures { (result ≡ from + up_to (drop from line.now)) × (from ≤ result) × (result ≤ length line.now) }
{
    let rest = &line[from..];
    from + rest.iter().position(|&b| b == b'\t').unwrap_or(rest.len())
}

// The fields of a member line from place from on.
fn read_member(line: &[u8], from: usize) -> Entry
    ensures { Tells result [] (member_of (fields_from from line.now)) }
{
    let n = line.len();
    if n < from {
        return Entry::Bad;
    }
    let a = next_tab(line, from);
    if n <= a {
        return Entry::Bad;
    }
    let b = next_tab(line, a + 1);
    if n <= b {
        return Entry::Bad;
    }
    let c = next_tab(line, b + 1);
    if c < n {
        return Entry::Bad;
    }
    let number = read_number(&line[from..a]);
    let balance = read_signed(&line[a + 1..b]);
    let limit = read_number(&line[b + 1..c]);
    member(number, balance, limit)
}

// A member line with its three fields.
fn member(number: Option<u64>, balance: Option<i64>, limit: Option<u64>) -> Entry
    ensures { Tells result [] (as_member number balance limit) }
{
    match (number, balance, limit) {
        (Some(n), Some(b), Some(l)) => Entry::Opening(OpeningLine::Member(n, b, l)),
        _ => Entry::Bad,
    }
}

// The fields from place from on, as numbers, into the lent list, and how many there are.
fn read_numbers(line: &[u8], from: usize, counts: &mut [u64; MOST_COUNTS]) -> Option<usize>
    ensures few { IfSome result (λ m. m ≤ most_counts) }
    ensures value { result ≡ count_from 0 (numbers_of most_counts (fields_from from line.now)) }
    ensures counts_after { counts.new ≡ sets counts.old 0 (values_of (numbers_of most_counts (fields_from from line.now))) }
{
    let mut at = from;
    let mut n = 0;
    // Kept: a turn goes from tab to tab, not by one; `split` would find an empty field where the line has ended before from.
    while at <= line.len() {
        if MOST_COUNTS <= n {
            return None;
        }
        let e = next_tab(line, at);
        counts[n] = read_number(&line[at..e])?;
        n += 1;
        at = e + 1;
    }
    Some(n)
}

// The kind that a word names.
// Kept: tried as a `match` on byte strings; that leaves forty goals, one for each letter, and a comparison leaves none.
fn kind_of(word: &[u8]) -> Kind
    ensures { result ≡ kind_of word.now }
{
    if word == b"house".as_slice() {
        Kind::House
    } else if word == b"pay".as_slice() {
        Kind::Pay
    } else if word == b"deposit".as_slice() {
        Kind::Deposit
    } else if word == b"release".as_slice() {
        Kind::Release
    } else if word == b"group".as_slice() {
        Kind::Group
    } else if word == b"resolve".as_slice() {
        Kind::Resolve
    } else if word == b"end".as_slice() {
        Kind::End
    } else {
        Kind::Other
    }
}

// A line of kind k with its numbers.
fn shape(k: Kind, numbers: &[u64]) -> Entry
    ensures { Tells result numbers.now (of_kind k numbers.now) }
{
    match (k, numbers) {
        (Kind::House, &[edition, count]) => house(edition, count),
        (Kind::Pay, &[payer, number, payee, amount]) => Entry::Day(DayLine::Pay(
            PLAIN, payer, number, payee, amount,
        )),
        (Kind::Deposit, &[member, amount]) => Entry::Day(DayLine::Deposit(member, amount)),
        (Kind::Release, &[member]) => Entry::Day(DayLine::Release(member)),
        (Kind::Group, [_, ..]) => Entry::Day(DayLine::Group(numbers.len())),
        (Kind::Resolve, []) => Entry::Day(DayLine::Resolve),
        (Kind::End, []) => Entry::End,
        _ => Entry::Bad,
    }
}

// A house line with its edition and count.
fn house(edition: u64, count: u64) -> Entry
    ensures { result ≡ cond (eqb edition first) (entries.Opening (openings.House count)) entries.Bad }
{
    if edition == EDITION {
        Entry::Opening(OpeningLine::House(count))
    } else {
        Entry::Bad
    }
}
