// One turn, and whether another follows: a line of the end is said, or the next line is read.
ghost use Rattle.std.specs.Prelude.{◌≡◌, true, false, [], ◌+◌, ◌-◌, ◌≤◌, ◌<◌, length, take, drop};
ghost use Rattle.sheet.specs.Room.{least_room};
ghost use Rattle.tables.specs.Layout.{tables};
ghost use Rattle.night.specs.Stages.{is_ending, is_over};
ghost use Rattle.session.specs.Stops.{Stops};
ghost use Rattle.session.specs.Turns.{turn_of, goes_on, last_night, close_turn, closes_on};
ghost use Rattle.desk.specs.States.{night_of, desk_of, fresh, turns_left, Grown, Fit};
ghost use Rattle.session.specs.Feeding.{goes_at, closes_at};

use crate::is_over;
use dayfile::MOST_COUNTS;
use dayfile::lines::MOST_BYTES;
use desk::chunks::eat_on;
use desk::ends::end_on;
use desk::lines::{line_on, stop};
use desk::{State, Turn};
use night::Stage;

// Whether a turn follows in a chunk of n bytes, with so many bytes of output: there is room, and lines of the end are to be said, or the
// night is not over and bytes are left.
pub fn goes_on(t: Turn, n: usize, room: usize) -> bool
    requires { t.state.used ≤ room }
    ensures { result ≡ goes_at n room t }
{
    if !sheet::has_room(t.state.used, room) {
        return false;
    }
    match t.state.stage {
        Stage::Ending(_) => true,
        Stage::Over => false,
        Stage::House | Stage::Members(_, _) | Stage::Day => t.at < n,
    }
}

// Whether a turn follows at the end of the input: there is room, and the night is not over.
pub fn closes_on(s: State, room: usize) -> bool
    requires { s.used ≤ room }
    ensures { result ≡ closes_at room s }
{
    sheet::has_room(s.used, room) && !is_over(s.stage)
}

// A chunk from from on, turn by turn, as `feed` says.
pub fn feed_all(
    chunk: &[u8],
    from: usize,
    buf: &mut [u8; MOST_BYTES],
    counts: &mut [u64; MOST_COUNTS],
    accounts: &mut [i64],
    counters: &mut [u32],
    pays: &mut [u64],
    out: &mut [u8],
    s: State,
) -> Turn
    requires fit { Fit s (tables accounts.old counters.old pays.old) (length out.old) }
    requires lengths { from ≤ length chunk.now }
    ensures stops { Stops turn_of (goes_on (length out.old)) (desk_of (drop from chunk.now) s (tables accounts.old counters.old pays.old) out.old buf.old) (desk_of (drop result.at chunk.now) result.state (tables accounts.new counters.new pays.new) out.new buf.new) }
    ensures fits { Fit result.state (tables accounts.new counters.new pays.new) (length out.old) × (result.at ≤ length chunk.now) × Grown s.used result.state.used out.old out.new }
{
    let mut t = Turn { at: from, state: s };
    while goes_on(t, chunk.len(), out.len()) {
        t = turn_on(
            chunk, t.at, buf, counts, accounts, counters, pays, out, t.state,
        );
    }
    t
}

// One line of the end, or the next line of a chunk or what is left of it.
pub fn turn_on(
    chunk: &[u8],
    from: usize,
    buf: &mut [u8; MOST_BYTES],
    counts: &mut [u64; MOST_COUNTS],
    accounts: &mut [i64],
    counters: &mut [u32],
    pays: &mut [u64],
    out: &mut [u8],
    s: State,
) -> Turn
    requires fit { Fit s (tables accounts.old counters.old pays.old) (length out.old) }
    requires lengths { (from ≤ length chunk.now) × (goes_at (length chunk.now) (length out.old) (record { at = from; state = s }) ≡ true) }
    ensures turn { desk_of (drop result.at chunk.now) result.state (tables accounts.new counters.new pays.new) out.new buf.new ≡ turn_of (desk_of (drop from chunk.now) s (tables accounts.old counters.old pays.old) out.old buf.old) }
    ensures fits { Fit result.state (tables accounts.new counters.new pays.new) (length out.old) × (result.at ≤ length chunk.now) × (turns_left result.state.stage (length chunk.now - result.at) < turns_left s.stage (length chunk.now - from)) × Grown s.used result.state.used out.old out.new }
{
    if let Stage::Ending(k) = s.stage {
        let state = end_on(accounts, counters, pays, out, s, k);
        return Turn { at: from, state };
    }
    eat_on(chunk, from, buf, counts, accounts, counters, pays, out, s)
}

// The end of the input, turn by turn, as `close` says.
pub fn close_all(
    buf: &[u8; MOST_BYTES],
    counts: &mut [u64; MOST_COUNTS],
    accounts: &mut [i64],
    counters: &mut [u32],
    pays: &mut [u64],
    out: &mut [u8],
    s: State,
) -> State
    requires { Fit s (tables accounts.old counters.old pays.old) (length out.old) }
    ensures stops { Stops close_turn (closes_on (length out.old)) (desk_of [] s (tables accounts.old counters.old pays.old) out.old buf.now) (desk_of [] result (tables accounts.new counters.new pays.new) out.new buf.now) }
    ensures fit { Fit result (tables accounts.new counters.new pays.new) (length out.old) × Grown s.used result.used out.old out.new }
{
    let mut t = s;
    while closes_on(t, out.len()) {
        t = close_on(buf, counts, accounts, counters, pays, out, t);
    }
    t
}

// One line of the end, or the last line of the input, or the refusal of a night that is not over.
pub fn close_on(
    buf: &[u8; MOST_BYTES],
    counts: &mut [u64; MOST_COUNTS],
    accounts: &mut [i64],
    counters: &mut [u32],
    pays: &mut [u64],
    out: &mut [u8],
    s: State,
) -> State
    requires { Fit s (tables accounts.old counters.old pays.old) (length out.old) × (closes_at (length out.old) s ≡ true) }
    ensures turn { desk_of [] result (tables accounts.new counters.new pays.new) out.new buf.now ≡ close_turn (desk_of [] s (tables accounts.old counters.old pays.old) out.old buf.now) }
    ensures fit { Fit result (tables accounts.new counters.new pays.new) (length out.old) × (turns_left result.stage result.cut.held < turns_left s.stage s.cut.held) × Grown s.used result.used out.old out.new }
{
    if let Stage::Ending(k) = s.stage {
        return end_on(accounts, counters, pays, out, s, k);
    }
    last_on(buf, counts, accounts, counters, pays, out, s)
}

// The last line of the input, if no byte 10 ended it, or the refusal as line 0.
fn last_on(
    buf: &[u8; MOST_BYTES],
    counts: &mut [u64; MOST_COUNTS],
    accounts: &mut [i64],
    counters: &mut [u32],
    pays: &mut [u64],
    out: &mut [u8],
    s: State,
) -> State
    requires fit { Fit s (tables accounts.old counters.old pays.old) (length out.old) × (is_over s.stage ≡ false) × (is_ending s.stage ≡ false) }
    requires lengths { s.used + least_room ≤ length out.old }
    ensures out_after { night_of result (tables accounts.new counters.new pays.new) out.new ≡ last_night (take s.cut.held buf.now) (desk_of [] s (tables accounts.old counters.old pays.old) out.old buf.now) }
    ensures fits { Fit result (tables accounts.new counters.new pays.new) (length out.old) × (result.cut ≡ fresh) × (turns_left result.stage 0 < turns_left s.stage s.cut.held) × Grown s.used result.used out.old out.new }
{
    if s.cut.held > 0 {
        return line_on(buf, counts, accounts, counters, pays, out, s);
    }
    stop(out, s, 0)
}
