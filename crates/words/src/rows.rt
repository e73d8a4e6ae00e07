// Rows of values in lent bytes, one behind the other: read into a lent slice, and written from one.
ghost use Rattle.std.specs.Prelude.{◌≡◌, ◌+◌, ◌*◌, ◌≤◌, length};
ghost use Rattle.words.specs.Row.{row_at, put_row};

use crate::Word;

// Fills the slice with the values from the place on.
pub fn decode<T: Word>(s: &[u8], at: usize, out: &mut [T])
    requires { at + length out.old * T.WIDTH ≤ length s.now }
    ensures { out.new ≡ row_at T.value_of T.WIDTH (length out.old) s.now at }
{
    for (i, x) in out.iter_mut().enumerate() {
        *x = crate::read(s, at + i * T::WIDTH);
    }
}

// The N values from the place on.
#[inline]
pub fn array<T: Word, const N: usize>(s: &[u8], at: usize) -> [T; N]
    requires { at + N * T.WIDTH ≤ length s.now }
    ensures { (result ≡ row_at T.value_of T.WIDTH N s.now at) × (N ≡ length result) }
{
    let mut out = [T::from_number(0); N];
    decode(s, at, &mut out);
    out
}

// Writes the values xs from the place on, and no other byte.
pub fn encode<T: Word>(xs: &[T], s: &mut [u8], at: usize)
    requires { at + length xs.now * T.WIDTH ≤ length s.old }
    ensures { s.new ≡ put_row T.number_of T.WIDTH s.old at xs.now }
{
    for (i, x) in xs.iter().enumerate() {
        crate::write(s, at + i * T::WIDTH, *x);
    }
}
