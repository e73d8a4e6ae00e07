// The night as a library: fed the bytes of a day file in chunks of any size, it writes the sheet into a lent output.
// Kept: the tables stay three lent slices (document 01); with a struct of `&mut` fields each function would promise that they stay the same.
// Kept: a line's bytes and a group's counts are two lists too, since a host may hold them apart, and `close` only reads the bytes.
#![tactic(auto)]

mod turns;

ghost use Rattle.std.specs.Prelude.{◌≡◌, [], ◌≤◌, length, drop};
ghost use Rattle.dayfile.specs.Entries.{most_counts};
ghost use Rattle.dayfile.specs.Lines.{most_bytes};
ghost use Rattle.tables.specs.Layout.{tables};
ghost use Rattle.night.specs.Stages.{is_over};
ghost use Rattle.session.specs.Stops.{Stops};
ghost use Rattle.session.specs.Turns.{turn_of, goes_on, close_turn, closes_on};
ghost use Rattle.desk.specs.States.{desk_of, Grown, Fit};
ghost use Rattle.session.specs.Feeding.{dawn};

use desk::{State, Turn, between};
use night::Stage;

// Before the first line.
pub fn start() -> State
    ensures { result ≡ dawn }
{
    between(0, Stage::House, 0)
}

// Whether the night is over: what is read then adds nothing.
pub fn is_over(stage: Stage) -> bool
    ensures { result ≡ is_over stage }
{
    matches!(stage, Stage::Over)
}

// A chunk from from on, turn by turn, until it is eaten or the night is over and all is said, or less than 80 bytes are left in the output.
pub fn feed(
    chunk: &[u8],
    from: usize,
    buf: &mut [u8],
    counts: &mut [u64],
    accounts: &mut [i64],
    counters: &mut [u32],
    pays: &mut [u64],
    out: &mut [u8],
    s: State,
) -> Turn
    requires fit { Fit s (tables accounts.old counters.old pays.old) (length out.old) }
    requires lengths { (length counts.old ≡ most_counts) × (length buf.old ≡ most_bytes) × (from ≤ length chunk.now) }
    ensures stops { Stops turn_of (goes_on (length out.old)) (desk_of (drop from chunk.now) s (tables accounts.old counters.old pays.old) out.old buf.old) (desk_of (drop result.at chunk.now) result.state (tables accounts.new counters.new pays.new) out.new buf.new) }
    ensures fits { Fit result.state (tables accounts.new counters.new pays.new) (length out.old) × (result.at ≤ length chunk.now) × Grown s.used result.state.used out.old out.new }
{
    let Some(buf) = buf.as_mut_array() else {
        unreachable!()
    };
    let Some(counts) = counts.as_mut_array() else {
        unreachable!()
    };
    turns::feed_all(chunk, from, buf, counts, accounts, counters, pays, out, s)
}

// What is used of the output was written out, and its bytes are free again.
pub fn flushed(s: State) -> State
    ensures { result ≡ record { lines = s.lines; stage = s.stage; used = 0; cut = s.cut } }
{
    State { used: 0, ..s }
}

// The end of the input, turn by turn: what the end has still to say, a last line that no byte 10 ended, and a refusal where the night is
// not over; until it is over, or less than 80 bytes are left in the output.
pub fn close(
    buf: &[u8],
    counts: &mut [u64],
    accounts: &mut [i64],
    counters: &mut [u32],
    pays: &mut [u64],
    out: &mut [u8],
    s: State,
) -> State
    requires { Fit s (tables accounts.old counters.old pays.old) (length out.old) × (length counts.old ≡ most_counts) × (length buf.now ≡ most_bytes) }
    ensures stops { Stops close_turn (closes_on (length out.old)) (desk_of [] s (tables accounts.old counters.old pays.old) out.old buf.now) (desk_of [] result (tables accounts.new counters.new pays.new) out.new buf.now) }
    ensures fit { Fit result (tables accounts.new counters.new pays.new) (length out.old) × Grown s.used result.used out.old out.new }
{
    let Some(buf) = buf.as_array() else {
        unreachable!()
    };
    let Some(counts) = counts.as_mut_array() else {
        unreachable!()
    };
    turns::close_all(buf, counts, accounts, counters, pays, out, s)
}
