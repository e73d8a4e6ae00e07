// A line of the night, with lent lists: the next line of a chunk is read and answered, or the next line of the end is said, into a lent output.
// Kept: the tables stay three lent slices (document 01); with a struct of `&mut` fields each function would promise that they stay the same.
// So what a state asks of them (`Fit`), what was read (`Read`) and the room in the lent output stand in each contract.
#![tactic(auto)]

pub mod chunks;
pub mod ends;
pub mod lines;
mod out;

ghost use Rattle.std.specs.Prelude.{◌≡◌};
ghost use Rattle.desk.specs.States.{state_at};

use dayfile::lines::Cut;
use night::Stage;

// The night between lines: lines read, where it stands, bytes of the output used, and what is held of the next line.
#[derive(Clone, Copy)]
pub struct State {
    pub lines: u64,
    pub stage: Stage,
    pub used: usize,
    pub cut: Cut,
}

// The next place of a chunk, and the night there.
#[derive(Clone, Copy)]
pub struct Turn {
    pub at: usize,
    pub state: State,
}

// A state with no line begun.
pub fn between(lines: u64, stage: Stage, used: usize) -> State
    ensures { result ≡ state_at lines stage used }
{
    State {
        lines,
        stage,
        used,
        cut: Cut {
            held: 0,
            is_long: false,
        },
    }
}
