// The night, line by line: what each line of the day file does to the stage and the tables, and what it says on the sheet.
#![tactic(auto)]

mod day;
mod ending;
mod openings;

ghost use Rattle.std.specs.Prelude.{◌≡◌};
ghost use Rattle.tables.specs.Layout.{tables};
ghost use Rattle.dayfile.specs.Reading.{meant, Read};
ghost use Rattle.night.specs.Lines.{done_by, does_of};
ghost use Rattle.night.specs.Stands.{StageStands};

use dayfile::Entry;
pub use ending::{end_line, end_next};
use sheet::Says;

// Where the night stands: before the house line; in the opening of a house of some members, of whom some were given; in the day; at the
// end, with some of its lines said; over.
#[derive(Clone, Copy, Debug, PartialEq, Eq)]
pub enum Stage {
    House,
    Members(u64, u64),
    Day,
    Ending(u64),
    Over,
}

// What a line does: what it says on the sheet at once, if anything, and the stage after it, which says line by line what is still to be said.
#[derive(Drop)]
pub struct Does {
    pub said: Option<Says>,
    pub stage: Stage,
}

// What an entry of line n does, by the stage that it finds. A group's counts are the first of the lent list.
pub fn answer(
    accounts: &mut [i64],
    counters: &mut [u32],
    pays: &mut [u64],
    counts: &[u64],
    stage: Stage,
    n: u64,
    e: Entry,
) -> Does
    requires { StageStands stage (tables accounts.old counters.old pays.old) × Read e counts.now }
    ensures { done_by result accounts.new counters.new pays.new ≡ does_of n stage (tables accounts.old counters.old pays.old) (meant e counts.now) }
{
    match stage {
        Stage::House => openings::house_line(n, e),
        Stage::Members(count, k) => openings::member_line(accounts, counters, pays, count, k, n, e),
        Stage::Day => day::day_line(accounts, counters, pays, counts, n, e),
        Stage::Ending(_) | Stage::Over => quiet(stage),
    }
}

// Nothing is said.
fn quiet(stage: Stage) -> Does
    ensures { result ≡ record { said = None; stage = stage } }
{
    Does { said: None, stage }
}

// One line is said.
fn says(s: Says, stage: Stage) -> Does
    ensures { result ≡ record { said = Some s; stage = stage } }
{
    Does {
        said: Some(s),
        stage,
    }
}
