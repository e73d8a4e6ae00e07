// A line that is ended: it is read and answered, or refused as one too many.
ghost use Rattle.std.specs.Prelude.{◌≡◌, false, ◌++◌, ◌+◌, ◌≤◌, ◌<◌, length, take};
ghost use Rattle.answers.specs.declared.Refusal.TheVariants.{Line};
ghost use Rattle.dayfile.specs.Chunks.{held_line, state_of};
ghost use Rattle.sheet.specs.Lines.{text_of};
ghost use Rattle.sheet.specs.Room.{least_room};
ghost use Rattle.night.specs.declared.Stage.TheVariants.{Over};
ghost use Rattle.tables.specs.Layout.{tables};
ghost use Rattle.daylines.specs.Calls.{refusal};
ghost use Rattle.night.specs.Lines.{does_of};
ghost use Rattle.dayfile.specs.Entries.{most_lines};
ghost use Rattle.dayfile.specs.Reading.{meant, Tells, Read};
ghost use Rattle.night.specs.Stages.{is_over};
ghost use Rattle.desk.specs.Sheet.{entry_in, after_line, answered};
ghost use Rattle.desk.specs.States.{night_of, fresh, state_at, Grown, Fit};

use crate::out::tell;
use crate::{State, between};
use answers::Refusal;
use dayfile::lines::Cut;
use dayfile::{Entry, MOST_COUNTS, MOST_LINES};
use night::Stage;

// A line is ended, and answered.
// Kept: the line is what `held_line` makes of the lent bytes and the cut beside them, wherever they stand.
pub fn line_on(
    buf: &[u8],
    counts: &mut [u64; MOST_COUNTS],
    accounts: &mut [i64],
    counters: &mut [u32],
    pays: &mut [u64],
    out: &mut [u8],
    s: State,
) -> State
    requires fit { Fit s (tables accounts.old counters.old pays.old) (length out.old) × (is_over s.stage ≡ false) }
    requires lengths { (s.cut.held ≤ length buf.now) × (s.used + least_room ≤ length out.old) }
    ensures out_after { night_of result (tables accounts.new counters.new pays.new) out.new ≡ answered (night_of s (tables accounts.old counters.old pays.old) out.old) (held_line (state_of buf.now s.cut)) }
    ensures fits { Fit result (tables accounts.new counters.new pays.new) (length out.old) × (result.cut ≡ fresh) × Grown s.used result.used out.old out.new }
{
    if s.lines < MOST_LINES {
        let e = read(buf, s.cut, counts);
        return take_line(counts, accounts, counters, pays, out, s, e);
    }
    stop(out, s, s.lines + 1)
}

// What the line says that the buffer holds. A group's counts are left in the lent list.
fn read(buf: &[u8], c: Cut, counts: &mut [u64; MOST_COUNTS]) -> Entry
    requires { c.held ≤ length buf.now }
    ensures { Tells result counts.new (entry_in (held_line (state_of buf.now c))) }
{
    if c.is_long {
        return Entry::Bad;
    }
    dayfile::read_line(&buf[..c.held], counts)
}

// The next line is taken: what it does, and what it says.
fn take_line(
    counts: &[u64],
    accounts: &mut [i64],
    counters: &mut [u32],
    pays: &mut [u64],
    out: &mut [u8],
    s: State,
    e: Entry,
) -> State
    requires { Fit s (tables accounts.old counters.old pays.old) (length out.old) × Read e counts.now × (s.lines < most_lines) × (s.used + least_room ≤ length out.old) }
    ensures out_after { night_of result (tables accounts.new counters.new pays.new) out.new ≡ after_line (night_of s (tables accounts.old counters.old pays.old) out.old) (does_of (s.lines + 1) s.stage (tables accounts.old counters.old pays.old) (meant e counts.now)) }
    ensures fit { Fit result (tables accounts.new counters.new pays.new) (length out.old) × (result.cut ≡ fresh) × Grown s.used result.used out.old out.new }
{
    let n = s.lines + 1;
    let d = night::answer(accounts, counters, pays, counts, s.stage, n, e);
    let used = tell(out, s.used, d.said);
    between(n, d.stage, used)
}

// Bad line n: it is refused, and the night stops.
pub fn stop(out: &mut [u8], s: State, n: u64) -> State
    requires { (n ≤ most_lines + 1) × (s.used + least_room ≤ length out.old) }
    ensures { (result ≡ state_at s.lines Over result.used) × (take result.used out.new ≡ take s.used out.old ++ text_of (refusal n Line)) × (result.used ≤ length out.old) × Grown s.used result.used out.old out.new }
{
    let used = sheet::put_line(out, s.used, daylines::refused(n, Refusal::Line));
    between(s.lines, Stage::Over, used)
}
