// The three lists of a house that travel together: read out of the lent tables, and put back.
ghost use Rattle.std.specs.Prelude.{◌≡◌, ◌≤◌, length};
ghost use Rattle.tables.specs.Sizes.{bytes};
ghost use Rattle.tables.specs.Layout.{tables};
ghost use Rattle.lent.specs.Bytes.{tables_in, with_lists};

use tables::House;

// The byte where the counters begin in the tables, and the places.
const COUNTERS_FROM: usize = House::TABLE * 8;

const PLACES_FROM: usize = COUNTERS_FROM + House::TABLE * 4;

// The accounts, the counters and the places, each of the least length.
// Kept: a call takes them apart for the house, and puts them together to store them; lent out of one value, all bytes would be copied once
// more, and a deposit would take 100,100 instructions, not 60,900.
#[derive(Drop)]
pub struct Lists(
    pub [i64; House::TABLE],
    pub [u32; House::TABLE],
    pub [u64; House::PLACES],
);

impl Lists {
    // The lists in the tables.
    pub fn of(s: &[u8]) -> Lists
        requires { bytes ≤ length s.now }
        ensures { tables result.0 result.1 result.2 ≡ tables_in s.now }
    {
        Lists(
            words::rows::array(s, 0),
            words::rows::array(s, COUNTERS_FROM),
            words::rows::array(s, PLACES_FROM),
        )
    }

    // Puts the lists back into the tables, and changes no other byte.
    pub fn store(&self, s: &mut [u8])
        requires { bytes ≤ length s.old }
        ensures { s.new ≡ with_lists s.old self.now.0 self.now.1 self.now.2 }
    {
        words::rows::encode(&self.0, s, 0);
        words::rows::encode(&self.1, s, COUNTERS_FROM);
        words::rows::encode(&self.2, s, PLACES_FROM);
    }
}
