// Numbers in text: read from a field of the day file, and written into the sheet.
#![tactic(auto)]

ghost use Rattle.std.specs.Prelude.{◌≡◌, ◌+◌, ◌≤◌, ◌<◌, ◌^◌, nat_abs, length};
ghost use Rattle.std.proofs.lemmas.List.Edits.{sets};
ghost use Rattle.numbers.specs.Numbers.{most_digits, number_of, signed_of, digits_of, width_of, signed_text};

// The most digits of a number.
const MOST_DIGITS: usize = 18;

// Reads a field as a number: 1 to 18 digits with no leading zero.
pub fn read_number(field: &[u8]) -> Option<u64>
    ensures { result ≡ number_of field.now }
{
    let n = field.len();
    if n < 1 || MOST_DIGITS < n {
        return None;
    }
    if field[0] == b'0' {
        return if 1 < n { None } else { Some(0) };
    }
    let mut x = 0;
    for &b in field {
        if !b.is_ascii_digit() {
            return None;
        }
        x = x * 10 + u64::from(b - b'0');
    }
    Some(x)
}

// How many digits x has.
fn width(x: u64) -> usize
    ensures { result ≡ width_of x }
{
    x.max(1).ilog10() as usize + 1
}

// Writes x from place at on, and gives the place behind it.
pub fn put_number(out: &mut [u8], at: usize, x: u64) -> usize
    requires { at + length (digits_of x) ≤ length out.old }
    ensures { (result ≡ at + length (digits_of x)) × (out.new ≡ sets out.old at (digits_of x)) }
{
    let w = width(x);
    let mut y = x;
    // Kept: tried with `iter_mut().rev()`; std says nothing of what such an adapter has written, so the proof stays open.
    for k in (0..w).rev() {
        out[at + k] = b'0' + (y % 10) as u8;
        y /= 10;
    }
    at + w
}

// Reads a field as a number that may have - before it, and not before 0.
pub fn read_signed(field: &[u8]) -> Option<i64>
    ensures { result ≡ signed_of field.now }
{
    match field {
        [] => None,
        [b'-', digits @ ..] => match read_number(digits)? {
            0 => None,
            x => Some(-(x as i64)),
        },
        _ => Some(read_number(field)? as i64),
    }
}

// Writes z from place at on, with - before it if it is below 0, and gives the place behind it.
pub fn put_signed(out: &mut [u8], at: usize, z: i64) -> usize
    requires { (at + length (signed_text z) ≤ length out.old) × (nat_abs z < 10 ^ most_digits) }
    ensures { (result ≡ at + length (signed_text z)) × (out.new ≡ sets out.old at (signed_text z)) }
{
    let m = z.unsigned_abs();
    if z < 0 {
        out[at] = b'-';
        return put_number(out, at + 1, m);
    }
    put_number(out, at, m)
}
