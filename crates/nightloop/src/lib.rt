// The loop of a program that reads a day file on standard input and writes its sheet on standard output, step by step. What is said stands
// there before more input is awaited.
#![tactic(auto)]

ghost use Rattle.std.specs.Prelude.{◌≡◌, ◌≤◌, length, take};
ghost use Rattle.std.specs.Io.{ReadsAtMost};
ghost use Rattle.std.specs.Result.{result_ok};
ghost use Rattle.tables.specs.Layout.{tables};
ghost use Rattle.desk.specs.Sheet.{morning};
ghost use Rattle.nightloop.specs.Steps.{out_bytes, Memory, CanGo, goes_on_from, run_of, taken_as, Took, fed_next, closed_next, Wrote, desk_in, Ate, Closed, SoFar};

use dayfile::MOST_COUNTS;
use dayfile::lines::MOST_BYTES;
use desk::State;
use night::Stage;
use std::io::{self, Read, Stderr, Stdin, Stdout, Write};

// The bytes that are read at once, and those of the output that is written at once.
pub const OUT: usize = 4096;

// Standard input, output and error: where the day file comes from, where its sheet goes, and where it is said that reading or writing failed.
#[derive(Clone, Copy)]
pub struct Streams {
    pub input: Stdin,
    pub output: Stdout,
    pub errors: Stderr,
}

// What comes next: a chunk is read, what is left of it is eaten, or the night is closed; or nothing, since the night is over, or reading or
// writing failed.
#[derive(Clone, Copy)]
pub enum Next {
    Read,
    Eat,
    Close,
    Done,
    Failed,
}

// Between two steps: got bytes of the chunk were read, and those before at are eaten; and the night there.
// Kept: at and got are of every step, as `nightloop::specs::Steps::CanGo` says, and the chunk is lent memory of fixed length.
#[derive(Clone, Copy)]
pub struct Run {
    pub next: Next,
    pub at: usize,
    pub got: usize,
    pub state: State,
}

// The whole night, step by step, from the input to the output.
pub fn whole(
    streams: Streams,
    chunk: &mut [u8],
    buf: &mut [u8],
    counts: &mut [u64],
    accounts: &mut [i64],
    counters: &mut [u32],
    pays: &mut [u64],
    out: &mut [u8],
) -> Run
    requires { Memory chunk.old buf.old counts.old (tables accounts.old counters.old pays.old) out.old × (tables accounts.old counters.old pays.old ≡ morning.tables) }
    ensures { SoFar result.next result chunk.new buf.new (tables accounts.new counters.new pays.new) out.new }
{
    let Some(chunk) = chunk.as_mut_array() else {
        unreachable!()
    };
    let Some(buf) = buf.as_mut_array() else {
        unreachable!()
    };
    let Some(counts) = counts.as_mut_array() else {
        unreachable!()
    };
    let Some(out) = out.as_mut_array() else {
        unreachable!()
    };
    let r = run_of(Next::Read, 0, session::start());
    all_steps(
        streams, chunk, buf, counts, accounts, counters, pays, out, r,
    )
}

// Step after step, while one follows. A proved loop has to end, and nothing says that the input does: so steps are counted.
fn all_steps(
    streams: Streams,
    chunk: &mut [u8; OUT],
    buf: &mut [u8; MOST_BYTES],
    counts: &mut [u64; MOST_COUNTS],
    accounts: &mut [i64],
    counters: &mut [u32],
    pays: &mut [u64],
    out: &mut [u8; OUT],
    r: Run,
) -> Run
    requires { SoFar r.next r chunk.old buf.old (tables accounts.old counters.old pays.old) out.old }
    ensures { SoFar result.next result chunk.new buf.new (tables accounts.new counters.new pays.new) out.new }
{
    let mut r = r;
    'steps: for _ in 0..u64::MAX {
        if !goes_on(r.next) {
            break;
        }
        r = step(
            streams, chunk, buf, counts, accounts, counters, pays, out, r,
        );
    }
    r
}

// Whether a step follows.
fn goes_on(next: Next) -> bool
    ensures { result ≡ goes_on_from next }
{
    match next {
        Next::Read | Next::Eat | Next::Close => true,
        Next::Done | Next::Failed => false,
    }
}

// So many bytes of the chunk are there, and none is eaten.
fn run_of(next: Next, got: usize, state: State) -> Run
    ensures { result ≡ run_of next got state }
{
    Run {
        next,
        at: 0,
        got,
        state,
    }
}

// One step. What was a session of the night before it is one after it.
// Kept: what comes next is a state that a step leaves behind (`nightloop::specs::Steps::SoFar`); no step is handed on, so no closure is plainer.
fn step(
    streams: Streams,
    chunk: &mut [u8; OUT],
    buf: &mut [u8; MOST_BYTES],
    counts: &mut [u64; MOST_COUNTS],
    accounts: &mut [i64],
    counters: &mut [u32],
    pays: &mut [u64],
    out: &mut [u8; OUT],
    r: Run,
) -> Run
    requires { SoFar r.next r chunk.old buf.old (tables accounts.old counters.old pays.old) out.old }
    ensures { SoFar result.next result chunk.new buf.new (tables accounts.new counters.new pays.new) out.new }
{
    match r.next {
        Next::Read => read_on(streams, chunk, r),
        Next::Eat => eat_on(
            streams, chunk, buf, counts, accounts, counters, pays, out, r,
        ),
        Next::Close => close_on(
            streams, chunk, buf, counts, accounts, counters, pays, out, r,
        ),
        Next::Done | Next::Failed => r,
    }
}

// Reads a chunk: what the read answered and put there comes next.
fn read_on(streams: Streams, chunk: &mut [u8; OUT], r: Run) -> Run
    ensures { Took result r.state (length chunk.new) }
{
    let got = read(streams, chunk);
    taken(streams, got, r.state)
}

// A read was answered: the bytes that it put at the start of the chunk are eaten next, or the input is at its end, or reading failed.
fn taken(streams: Streams, got: io::Result<usize>, s: State) -> Run
    ensures { result ≡ taken_as (result_ok got) s }
{
    match got {
        Ok(n) if n > 0 => run_of(Next::Eat, n, s),
        Ok(_) => run_of(Next::Close, 0, s),
        Err(_) => {
            complain(streams, b"nightsheet: cannot read\n");
            run_of(Next::Failed, 0, s)
        }
    }
}

// Reads: how many bytes stand at the start of the chunk, none at the end of the input.
fn read(streams: Streams, chunk: &mut [u8]) -> io::Result<usize>
    ensures { ReadsAtMost result chunk.new }
{
    let mut input = streams.input;
    input.read(chunk)
}

// What is left of the chunk is eaten, as far as the output has room, and what it says is written out.
fn eat_on(
    streams: Streams,
    chunk: &[u8; OUT],
    buf: &mut [u8; MOST_BYTES],
    counts: &mut [u64; MOST_COUNTS],
    accounts: &mut [i64],
    counters: &mut [u32],
    pays: &mut [u64],
    out: &mut [u8; OUT],
    r: Run,
) -> Run
    requires { CanGo r chunk.now (tables accounts.old counters.old pays.old) }
    ensures { Ate (desk_in r chunk.now buf.old (tables accounts.old counters.old pays.old) out.old) result chunk.now buf.new (tables accounts.new counters.new pays.new) out.new }
{
    let t = session::feed(
        &chunk[..r.got],
        r.at,
        buf,
        counts,
        accounts,
        counters,
        pays,
        out,
        r.state,
    );
    let e = Run {
        next: fed_next(t.state),
        at: t.at,
        state: t.state,
        ..r
    };
    write_out(streams, out, e)
}

// After a chunk was fed: the night is over, the output was full, or all is eaten.
fn fed_next(s: State) -> Next
    requires { s.used ≤ out_bytes }
    ensures { result ≡ fed_next s }
{
    if matches!(s.stage, Stage::Over) {
        return Next::Done;
    }
    if sheet::has_room(s.used, OUT) {
        return Next::Read;
    }
    Next::Eat
}

// The input is at its end: the night is closed, as far as the output has room, and what it says is written out.
fn close_on(
    streams: Streams,
    chunk: &[u8; OUT],
    buf: &[u8; MOST_BYTES],
    counts: &mut [u64; MOST_COUNTS],
    accounts: &mut [i64],
    counters: &mut [u32],
    pays: &mut [u64],
    out: &mut [u8; OUT],
    r: Run,
) -> Run
    requires { CanGo r chunk.now (tables accounts.old counters.old pays.old) }
    ensures { Closed (desk_in r chunk.now buf.now (tables accounts.old counters.old pays.old) out.old) result chunk.now buf.now (tables accounts.new counters.new pays.new) out.new }
{
    let state = session::close(buf, counts, accounts, counters, pays, out, r.state);
    let e = Run {
        next: closed_next(state),
        state,
        ..r
    };
    write_out(streams, out, e)
}

// After a turn at the end of the input: the night is over, or the output was full.
fn closed_next(s: State) -> Next
    ensures { result ≡ closed_next s }
{
    if matches!(s.stage, Stage::Over) {
        return Next::Done;
    }
    Next::Close
}

// Writes out what is used of the output: its bytes are free again, and what comes next stays, unless writing fails.
fn write_out(streams: Streams, out: &[u8], r: Run) -> Run
    requires { r.state.used ≤ length out.now }
    ensures { Wrote r result }
{
    let used = r.state.used;
    let state = session::flushed(r.state);
    match hand_out(streams, &out[..used], out, r.state) {
        Ok(()) => Run { state, ..r },
        Err(_) => {
            complain(streams, b"nightsheet: cannot write\n");
            Run {
                next: Next::Failed,
                state,
                ..r
            }
        }
    }
}

// Hands bytes to standard output: the night's, as they stand in the output, which is lent for this promise alone.
fn hand_out(streams: Streams, bytes: &[u8], out: &[u8], s: State) -> io::Result<()>
    requires { bytes.now ≡ take s.used out.now }
{
    let mut output = streams.output;
    output.write_all(bytes)
}

// Says on standard error why the night stops. Where not even that can be written, nothing is left to do.
fn complain(streams: Streams, words: &[u8]) {
    let mut errors = streams.errors;
    let _ = errors.write_all(words);
}
