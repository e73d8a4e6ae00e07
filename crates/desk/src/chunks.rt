// The next line of a chunk, read where it stands or by way of the lent buffer.
ghost use Rattle.std.specs.Prelude.{◌≡◌, false, ◌+◌, ◌≤◌, ◌<◌, length, drop};
ghost use Rattle.sheet.specs.Room.{least_room};
ghost use Rattle.tables.specs.Layout.{tables};
ghost use Rattle.night.specs.Stages.{is_over};
ghost use Rattle.desk.specs.Desk.{eat_turn};
ghost use Rattle.desk.specs.States.{desk_of, Grown, Fit};

use crate::lines::line_on;
use crate::{State, Turn};
use dayfile::MOST_COUNTS;
use dayfile::lines::{Cut, MOST_BYTES};

// The next line of a chunk, or what is left of the chunk. A line that stands in the chunk as a whole is read there.
pub fn eat_on(
    chunk: &[u8],
    from: usize,
    buf: &mut [u8; MOST_BYTES],
    counts: &mut [u64; MOST_COUNTS],
    accounts: &mut [i64],
    counters: &mut [u32],
    pays: &mut [u64],
    out: &mut [u8],
    s: State,
) -> Turn
    requires fit { Fit s (tables accounts.old counters.old pays.old) (length out.old) × (is_over s.stage ≡ false) }
    requires lengths { (from < length chunk.now) × (s.used + least_room ≤ length out.old) }
    ensures turn { desk_of (drop result.at chunk.now) result.state (tables accounts.new counters.new pays.new) out.new buf.new ≡ eat_turn (desk_of (drop from chunk.now) s (tables accounts.old counters.old pays.old) out.old buf.old) }
    ensures fits { Fit result.state (tables accounts.new counters.new pays.new) (length out.old) × (from < result.at) × (result.at ≤ length chunk.now) × Grown s.used result.state.used out.old out.new }
{
    let Some(e) = dayfile::lines::whole(chunk, from, s.cut) else {
        return part_on(chunk, from, buf, counts, accounts, counters, pays, out, s);
    };
    let cut = Cut {
        held: e - from,
        is_long: false,
    };
    let state = line_on(
        &chunk[from..e],
        counts,
        accounts,
        counters,
        pays,
        out,
        State { cut, ..s },
    );
    Turn { at: e + 1, state }
}

// The next line of a chunk, by way of the buffer, or what is left of the chunk.
fn part_on(
    chunk: &[u8],
    from: usize,
    buf: &mut [u8; MOST_BYTES],
    counts: &mut [u64; MOST_COUNTS],
    accounts: &mut [i64],
    counters: &mut [u32],
    pays: &mut [u64],
    out: &mut [u8],
    s: State,
) -> Turn
    requires fit { Fit s (tables accounts.old counters.old pays.old) (length out.old) × (is_over s.stage ≡ false) }
    requires lengths { (from < length chunk.now) × (s.used + least_room ≤ length out.old) }
    ensures turn { desk_of (drop result.at chunk.now) result.state (tables accounts.new counters.new pays.new) out.new buf.new ≡ eat_turn (desk_of (drop from chunk.now) s (tables accounts.old counters.old pays.old) out.old buf.old) }
    ensures fits { Fit result.state (tables accounts.new counters.new pays.new) (length out.old) × (from < result.at) × (result.at ≤ length chunk.now) × Grown s.used result.state.used out.old out.new }
{
    let a = dayfile::lines::eat(chunk, from, buf, s.cut);
    let t = State { cut: a.cut, ..s };
    if a.is_done {
        let state = line_on(buf, counts, accounts, counters, pays, out, t);
        return Turn { at: a.at, state };
    }
    Turn { at: a.at, state: t }
}
