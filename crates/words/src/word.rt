// The types whose values stand in lent bytes: which number stands for a value, and how many bytes it has.
ghost use Rattle.std.specs.Prelude.{◌≡◌, ℕ, ◌≤◌, ◌<◌, ◌^◌};
ghost use Rattle.std.specs.Int.{w64};
ghost use Rattle.std.proofs.Common.{to_z, of_z, rules};
ghost use Rattle.std.proofs.lemmas.Int.{of_z-to_z};
ghost use Rattle.words.specs.Row.{as_it_is};

// A type whose values stand in lent bytes, each as a number of so many bytes.
pub trait Word: Copy {
    // How many bytes the number has.
    const WIDTH: usize;

    ghost WIDTH: { ℕ };

    // Which value a number stands for, and which number stands for a value.
    ghost value_of: { ℕ → Self };

    ghost number_of: { Self → ℕ };

    // The value that x stands for.
    fn from_number(x: u64) -> Self
        requires { x < 256 ^ WIDTH }
        ensures { result ≡ value_of x };

    // The number that stands for the value: its bytes hold it.
    fn to_number(self) -> u64
        ensures { (result ≡ number_of self) × (result < 256 ^ WIDTH) };

    // It has a byte, and no more than a u64 has,
    ghost widths: { (1 ≤ WIDTH) × (WIDTH ≤ 8) };

    // and each number stands for a value of its own.
    ghost own_value: { (x : ℕ) → x < 256 ^ WIDTH → number_of (value_of x) ≡ x };
}

impl Word for u16 {
    const WIDTH: usize = 2;

    ghost WIDTH = { 2 };

    ghost value_of = { as_it_is };

    ghost number_of = { as_it_is };

    ghost widths = { Prim.search rules };

    ghost own_value = { Prim.search rules };

    #[inline]
    fn from_number(x: u64) -> u16 {
        x as u16
    }

    #[inline]
    fn to_number(self) -> u64 {
        u64::from(self)
    }
}

impl Word for u32 {
    const WIDTH: usize = 4;

    ghost WIDTH = { 4 };

    ghost value_of = { as_it_is };

    ghost number_of = { as_it_is };

    ghost widths = { Prim.search rules };

    ghost own_value = { Prim.search rules };

    #[inline]
    fn from_number(x: u64) -> u32 {
        x as u32
    }

    #[inline]
    fn to_number(self) -> u64 {
        u64::from(self)
    }
}

impl Word for u64 {
    const WIDTH: usize = 8;

    ghost WIDTH = { 8 };

    ghost value_of = { as_it_is };

    ghost number_of = { as_it_is };

    ghost widths = { Prim.search rules };

    ghost own_value = { Prim.search rules };

    #[inline]
    fn from_number(x: u64) -> u64 {
        x
    }

    #[inline]
    fn to_number(self) -> u64 {
        self
    }
}

impl Word for i64 {
    const WIDTH: usize = 8;

    ghost WIDTH = { 8 };

    ghost value_of = { to_z w64 };

    ghost number_of = { of_z w64 };

    ghost widths = { Prim.search rules };

    ghost own_value = { of_z-to_z w64 };

    #[inline]
    fn from_number(x: u64) -> i64 {
        x.cast_signed()
    }

    #[inline]
    fn to_number(self) -> u64 {
        self.cast_unsigned()
    }
}
