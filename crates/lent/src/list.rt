// Counts, balances or lines that a host lends as bytes: how many they are, the bytes say.
ghost use Rattle.std.specs.Prelude.{◌≡◌, ◌*◌, ◌≤◌, length, take};
ghost use Rattle.words.specs.Row.{row_at};
ghost use Rattle.tables.specs.Sizes.{members};
ghost use Rattle.lent.specs.Bytes.{entries};

use crate::entries_of;
use tables::House;
use words::Word;

// A lent list as it was read out: its values, and behind them zeros.
#[derive(Drop)]
pub struct LentList<T> {
    values: [T; House::MEMBERS],
    len: usize,
    ghost within: { len ≤ members },
}

impl<T: Word> LentList<T> {
    // The list in the bytes t.
    pub fn of(t: &[u8]) -> LentList<T>
        ensures values { take result.len result.values ≡ row_at T.value_of T.WIDTH (entries T.WIDTH (length t.now)) t.now 0 }
        ensures bytes { result.len * T.WIDTH ≤ length t.now }
    {
        let len = entries_of(t.len(), T::WIDTH);
        let mut values = [T::from_number(0); House::MEMBERS];
        words::rows::decode(t, 0, &mut values[..len]);
        LentList { values, len }
    }

    // Its values.
    pub fn as_slice(&self) -> &[T]
        ensures { result.now ≡ take self.now.len self.now.values }
    {
        &self.values[..self.len]
    }

    // Its values, to be written.
    pub fn as_mut_slice(&mut self) -> &mut [T]
        ensures { result.now ≡ take self.old.len self.old.values }
    {
        let len = self.len;
        let values = self.values.as_mut_slice();
        &mut values[..len]
    }
}
