// Lines of the sheet, written into the unused rest of the lent output.
// Kept: `Ranges` is of what a line says, and stands in each contract that is handed a line; the night shows it of each line that it says.
#![tactic(auto)]

ghost use Rattle.std.specs.Prelude.{◌≡◌, ◌+◌, ◌-◌, ◌≤◌, length};
ghost use Rattle.std.proofs.lemmas.List.Edits.{sets};
ghost use Rattle.sheet.specs.Lines.{start_of, shown_if, tabbed, line_text, text_of};
ghost use Rattle.sheet.specs.Room.{least_room, has_room, put_of, after_put, Ranges, AllShort};

use answers::Refusal;

// The bytes that must be left for a line.
const LEAST_ROOM: usize = 80;

// What a line of the sheet says, as the numbers that it shows. The first number is the line number: open count, sum; queued payer, number;
// deposited member, balance; released payer, number, amount; group payments, sum; resolve verdict, payments, sum, members that wait, the
// lowest; refused code. Without a line number: balance member, balance, payments waiting; money sum.
// Kept: a refusal and a verdict are the paper's numbers here, as `sheet::specs::Lines::parts_of` has them.
#[derive(Drop)]
pub enum Says {
    Open(u64, u64, i64),
    Queued(u64, u64, u64),
    Deposited(u64, u64, i64),
    Released(u64, u64, u64, u64),
    Group(u64, u64, u64),
    Resolve(u64, u64, u64, u64, u64, u64),
    Refused(u64, u64),
    Balance(u64, i64, u64),
    Money(i64),
}

// Whether there is room for a line behind what is used of n bytes.
pub fn has_room(used: usize, n: usize) -> bool
    requires { used ≤ n }
    ensures { result ≡ has_room n used }
{
    n - used >= LEAST_ROOM
}

// Writes a line of the sheet into the output, of which at bytes are used, or refuses it where there is no room.
pub fn write_line(out: &mut [u8], at: usize, s: Says) -> Result<usize, Refusal>
    requires { (at ≤ length out.old) × Ranges s }
    ensures value { result ≡ put_of (length out.old - at) (text_of s) }
    ensures out_after { out.new ≡ after_put (length out.old - at) out.old at (text_of s) }
{
    if !has_room(at, out.len()) {
        return Err(Refusal::Room);
    }
    let end = put_line(out, at, s);
    Ok(end - at)
}

// Writes a line where there is room, and gives the place behind it.
pub fn put_line(out: &mut [u8], at: usize, s: Says) -> usize
    requires { (at + least_room ≤ length out.old) × Ranges s }
    ensures { (result ≡ at + length (text_of s)) × (out.new ≡ sets out.old at (text_of s)) }
{
    let n = lay_line(&mut out[at..], s);
    at + n
}

// The same at the beginning of the lent rest; gives how many bytes it has.
fn lay_line(out: &mut [u8], s: Says) -> usize
    requires { (least_room ≤ length out.old) × Ranges s }
    ensures { (result ≡ length (text_of s)) × (out.new ≡ sets out.old 0 (text_of s)) }
{
    match s {
        Says::Open(line, count, sum) => put_text(out, Some(line), b"open", &[count as i64, sum]),
        Says::Queued(line, payer, number) => {
            put_text(out, Some(line), b"queued", &[payer as i64, number as i64])
        }
        Says::Deposited(line, member, balance) => {
            put_text(out, Some(line), b"deposited", &[member as i64, balance])
        }
        Says::Released(line, payer, number, amount) => {
            put_text(
                out,
                Some(line),
                b"released",
                &[payer as i64, number as i64, amount as i64],
            )
        }
        Says::Group(line, payments, sum) => {
            put_text(out, Some(line), b"group", &[payments as i64, sum as i64])
        }
        Says::Resolve(line, verdict, payments, sum, waiting, lowest) => {
            put_text(
                out,
                Some(line),
                b"resolve",
                &[
                    verdict as i64,
                    payments as i64,
                    sum as i64,
                    waiting as i64,
                    lowest as i64,
                ],
            )
        }
        Says::Refused(line, code) => put_text(out, Some(line), b"refused", &[code as i64]),
        Says::Balance(member, balance, waiting) => {
            put_text(
                out,
                None,
                b"balance",
                &[member as i64, balance, waiting as i64],
            )
        }
        Says::Money(sum) => put_text(out, None, b"money", &[sum]),
    }
}

// Writes a line at the beginning of the lent rest: its number if it has one, its word and its numbers. Gives the place behind it.
fn put_text(out: &mut [u8], line: Option<u64>, word: &[u8], zs: &[i64]) -> usize
    requires { (length (line_text (shown_if line word.now zs.now)) ≤ length out.old) × AllShort zs.now }
    ensures value { result ≡ length (line_text (shown_if line word.now zs.now)) }
    ensures out_after { out.new ≡ sets out.old 0 (line_text (shown_if line word.now zs.now)) }
{
    let a = put_start(out, line);
    let b = put_bytes(out, a, word);
    let c = put_fields(out, b, zs);
    put_bytes(out, c, b"\n")
}

// The line number with its tab, or nothing.
fn put_start(out: &mut [u8], line: Option<u64>) -> usize
    requires { length (start_of line) ≤ length out.old }
    ensures { (result ≡ length (start_of line)) × (out.new ≡ sets out.old 0 (start_of line)) }
{
    match line {
        Some(line) => {
            let a = numbers::put_number(out, 0, line);
            put_bytes(out, a, b"\t")
        }
        None => 0,
    }
}

// Copies text into the output from place at on, and gives the place behind it.
fn put_bytes(out: &mut [u8], at: usize, text: &[u8]) -> usize
    requires { at + length text.now ≤ length out.old }
    ensures { (result ≡ at + length text.now) × (out.new ≡ sets out.old at text.now) }
{
    let end = at + text.len();
    out[at..end].copy_from_slice(text);
    end
}

// A tab and a number for each of zs, from place at on; gives the place behind them.
fn put_fields(out: &mut [u8], at: usize, zs: &[i64]) -> usize
    requires { (at + length (tabbed zs.now) ≤ length out.old) × AllShort zs.now }
    ensures { (result ≡ at + length (tabbed zs.now)) × (out.new ≡ sets out.old at (tabbed zs.now)) }
{
    let mut p = at;
    for &z in zs {
        let q = put_bytes(out, p, b"\t");
        p = numbers::put_signed(out, q, z);
    }
    p
}
