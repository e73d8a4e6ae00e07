// The lines once the house is open: a line of the day is one call, end begins the closing lines, and any other is refused.
ghost use Rattle.std.specs.Prelude.{◌≡◌};
ghost use Rattle.tables.specs.Layout.{tables};
ghost use Rattle.tables.specs.Holds.{Holds};
ghost use Rattle.dayfile.specs.Reading.{meant, Read};
ghost use Rattle.answers.specs.declared.Refusal.TheVariants.{Line};
ghost use Rattle.daylines.specs.Calls.{refusal};
ghost use Rattle.night.specs.declared.Stage.TheVariants.{Day};
ghost use Rattle.night.specs.Lines.{done_by, day_does};

use crate::{Does, Stage, quiet, says};
use answers::Refusal;
use dayfile::Entry;

// A stray or a bad line: the night goes on.
// Kept: beside `night::openings::stop`, as there.
fn stray(n: u64) -> Does
    ensures { result ≡ record { said = Some (refusal n Line); stage = Day } }
{
    says(daylines::refused(n, Refusal::Line), Stage::Day)
}

// A line, once the house is open.
pub fn day_line(
    accounts: &mut [i64],
    counters: &mut [u32],
    pays: &mut [u64],
    counts: &[u64],
    n: u64,
    e: Entry,
) -> Does
    requires { Holds (tables accounts.old counters.old pays.old) × Read e counts.now }
    ensures { done_by result accounts.new counters.new pays.new ≡ day_does n (tables accounts.old counters.old pays.old) (meant e counts.now) }
{
    match e {
        Entry::Day(d) => {
            let s = daylines::call(accounts, counters, pays, counts, n, d);
            says(s, Stage::Day)
        }
        Entry::End => quiet(Stage::Ending(0)),
        Entry::Opening(_) | Entry::Bad => stray(n),
    }
}
