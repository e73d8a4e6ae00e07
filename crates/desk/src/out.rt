// The lent output: what a line says goes behind what is used.
ghost use Rattle.std.specs.Prelude.{◌≡◌, ◌++◌, ◌+◌, ◌≤◌, length, take};
ghost use Rattle.sheet.specs.Room.{least_room};
ghost use Rattle.night.specs.Lines.{said_in};
ghost use Rattle.night.specs.Stands.{SaidRanges};
ghost use Rattle.desk.specs.Sheet.{texts_of};
ghost use Rattle.desk.specs.States.{Grown};

use sheet::Says;

// What a line says at once goes behind what is used; gives what is used then.
pub fn tell(out: &mut [u8], used: usize, said: Option<Says>) -> usize
    requires { (used + least_room ≤ length out.old) × SaidRanges (said_in said) }
    ensures { (take result out.new ≡ take used out.old ++ texts_of (said_in said)) × (result ≤ length out.old) × Grown used result out.old out.new }
{
    match said {
        Some(s) => sheet::put_line(out, used, s),
        None => used,
    }
}
