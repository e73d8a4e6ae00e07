// The tables that a host lends: the house's fixed numbers, what stands where, and whether lent tables hold a state.
// Kept: the tables are three lent slices (document 01), so how long they are (`table ≤ length`) and what they hold
// (`Holds`, `Counted`, `Fit`) stands in each contract.
#![tactic(auto)]

ghost use Rattle.std.specs.Prelude.{◌≡◌, ◌≤◌};
ghost use Rattle.tables.specs.Sizes.{members, places, table, bytes, most_amount, most_line, most, highest, last_number};
ghost use Rattle.tables.specs.Layout.{lines_at, spare_accounts_at, spare_accounts, members_at, waiting_at, spare_singles_at, spare_singles, lasts_at, settled_at, spare_counters_at, spare_counters};

pub mod look;

// The house, to which its fixed numbers belong.
#[derive(Clone, Copy)]
pub struct House;

impl House {
    // At most so many members.
    pub const MEMBERS: usize = 64;

    // At most so many payments wait.
    pub const PLACES: usize = 2048;

    // The least length of the accounts, and of the counters.
    pub const TABLE: usize = 512;

    // Where the lines begin in the accounts, and from where on how many of those are spare.
    pub const LINES_AT: usize = House::MEMBERS;

    pub const SPARE_ACCOUNTS_AT: usize = 2 * House::MEMBERS;

    pub const SPARE_ACCOUNTS: usize = House::TABLE - House::SPARE_ACCOUNTS_AT;

    // The counters begin with single ones: how many members, and how many payments wait. The rest of that block is spare.
    pub const MEMBERS_AT: usize = 0;

    pub const WAITING_AT: usize = 1;

    pub const SPARE_SINGLES_AT: usize = 2;

    pub const SPARE_SINGLES: usize = House::MEMBERS - House::SPARE_SINGLES_AT;

    // Where the last accepted numbers begin in the counters, and how many were settled; from where on how many are spare.
    pub const LASTS_AT: usize = House::MEMBERS;

    pub const SETTLED_AT: usize = 2 * House::MEMBERS;

    pub const SPARE_COUNTERS_AT: usize = 3 * House::MEMBERS;

    pub const SPARE_COUNTERS: usize = House::TABLE - House::SPARE_COUNTERS_AT;

    // An amount and a deposit are at most this.
    pub const MOST_AMOUNT: u64 = 1_000_000_000_000;

    // A line is at most this.
    pub const MOST_LINE: u64 = 1_000_000_000_000;

    // The sum of all balances is at most this.
    pub const MOST: u64 = 1_000_000_000_000_000;

    // One balance is at most this.
    pub const HIGHEST: u64 = 2_000_000_000_000_000;

    // The last number that a payer can give.
    pub const LAST_NUMBER: u64 = 4_294_967_295;

    // The least length of all tables as bytes.
    pub const BYTES: usize = House::TABLE * 8 + House::TABLE * 4 + House::PLACES * 8;
}

// The definitions' numbers are the code's, and the least lengths are within 64 KiB.
pub fn tied()
    ensures sizes { (House.MEMBERS ≡ members) × (House.PLACES ≡ places) × (House.TABLE ≡ table) }
    ensures limits { (House.MOST ≡ most) × (House.HIGHEST ≡ highest) × (House.LAST_NUMBER ≡ last_number) }
    ensures amounts { (House.MOST_AMOUNT ≡ most_amount) × (House.MOST_LINE ≡ most_line) }
    ensures accounts { (House.LINES_AT ≡ lines_at) × (House.SPARE_ACCOUNTS_AT ≡ spare_accounts_at) × (House.SPARE_ACCOUNTS ≡ spare_accounts) }
    ensures singles { (House.MEMBERS_AT ≡ members_at) × (House.WAITING_AT ≡ waiting_at) × (House.SPARE_SINGLES_AT ≡ spare_singles_at) × (House.SPARE_SINGLES ≡ spare_singles) }
    ensures counters { (House.LASTS_AT ≡ lasts_at) × (House.SETTLED_AT ≡ settled_at) × (House.SPARE_COUNTERS_AT ≡ spare_counters_at) × (House.SPARE_COUNTERS ≡ spare_counters) }
    ensures lengths { (House.BYTES ≡ bytes) × (House.BYTES ≤ 65536) }
{}
