// Numbers in lent bytes: the lowest byte first, signed numbers in two's complement.
#![tactic(auto)]

ghost use Rattle.std.specs.Prelude.{◌≡◌, ◌+◌, ◌≤◌, length};
ghost use Rattle.words.specs.Le.{le_at, put_at};

pub mod rows;
mod word;

pub use word::Word;

// The value in the bytes from the place on.
#[inline]
pub fn read<T: Word>(s: &[u8], at: usize) -> T
    requires { at + T.WIDTH ≤ length s.now }
    ensures { result ≡ T.value_of (le_at T.WIDTH s.now at) }
{
    let mut bytes = [0u8; 8];
    bytes[..T::WIDTH].copy_from_slice(&s[at..at + T::WIDTH]);
    T::from_number(u64::from_le_bytes(bytes))
}

// Writes x into the bytes from the place on, and no other.
#[inline]
pub fn write<T: Word>(s: &mut [u8], at: usize, x: T)
    requires { at + T.WIDTH ≤ length s.old }
    ensures { s.new ≡ put_at T.WIDTH s.old at (T.number_of x) }
{
    let bytes = x.to_number().to_le_bytes();
    s[at..at + T::WIDTH].copy_from_slice(&bytes[..T::WIDTH]);
}
