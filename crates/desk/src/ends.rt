// The lines of the end, one at a time.
ghost use Rattle.std.specs.Prelude.{◌≡◌, ℕ, ◌+◌, ◌≤◌, ◌<◌, length};
ghost use Rattle.sheet.specs.Room.{least_room};
ghost use Rattle.tables.specs.Layout.{tables};
ghost use Rattle.night.specs.declared.Stage.TheVariants.{Ending};
ghost use Rattle.desk.specs.Desk.{end_said};
ghost use Rattle.desk.specs.States.{night_of, turns_left, Grown, Fit};

use crate::State;

// The next line of the end is said, behind k others.
pub fn end_on(
    accounts: &[i64],
    counters: &[u32],
    pays: &[u64],
    out: &mut [u8],
    s: State,
    k: u64,
) -> State
    requires { Fit s (tables accounts.now counters.now pays.now) (length out.old) × (s.stage ≡ Ending k) × (s.used + least_room ≤ length out.old) }
    ensures out_after { night_of result (tables accounts.now counters.now pays.now) out.new ≡ end_said (night_of s (tables accounts.now counters.now pays.now) out.old) }
    ensures fit { Fit result (tables accounts.now counters.now pays.now) (length out.old) × (result.cut ≡ s.cut) × ((n : ℕ) → turns_left result.stage n < turns_left s.stage n) × Grown s.used result.used out.old out.new }
{
    let l = night::end_line(accounts, counters, pays, k);
    let used = sheet::put_line(out, s.used, l);
    State {
        stage: night::end_next(counters, k),
        used,
        ..s
    }
}
