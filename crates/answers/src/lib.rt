// The answers of the calls and their codes, and the conditions that several calls judge. A call answers what it did, or why it is refused.
#![tactic(auto)]

ghost use Rattle.std.specs.Prelude.{◌≡◌};
ghost use Rattle.answers.specs.Codes.{code_of};
ghost use Rattle.answers.specs.Verdicts.{verdict_number};

pub mod judge;

// Why a call is refused.
#[derive(Clone, Copy, Debug, PartialEq, Eq)]
pub enum Refusal {
    // The lent tables are too short, or hold no state.
    State,
    // A member number outside 1 to the count.
    Member,
    // Payer and payee are the same.
    Same,
    // An amount outside 1 to 10^12.
    Amount,
    // The number is not the payer's last + 1.
    Number,
    // 2,048 payments wait.
    Full,
    // The deposit would take the sum of balances above 10^15.
    Money,
    // A release, and nothing waits there.
    Nothing,
    // A release or a group that is not covered.
    Cover,
    // The list of counts is not as long as the member count, or has a count above what waits.
    Counts,
    // A bad opening.
    Opening,
    // A bad line in the day file.
    Line,
    // Less than 80 bytes are left in the lent output.
    Room,
}

impl From<Refusal> for u32 {
    // The paper's number of a refusal.
    ghost from_gives = { λ r n. n ≡ code_of r };

    fn from(r: Refusal) -> u32 {
        match r {
            Refusal::State => 1,
            Refusal::Member => 2,
            Refusal::Same => 3,
            Refusal::Amount => 4,
            Refusal::Number => 5,
            Refusal::Full => 6,
            Refusal::Money => 7,
            Refusal::Nothing => 8,
            Refusal::Cover => 9,
            Refusal::Counts => 10,
            Refusal::Opening => 11,
            Refusal::Line => 12,
            Refusal::Room => 13,
        }
    }
}

// What a release did: it settled this payment of the payer.
#[derive(Clone, Copy, Debug, PartialEq, Eq)]
pub struct Released {
    pub payer: u64,
    pub number: u64,
    pub amount: u64,
}

// What a group did: it settled so many payments, of this sum.
#[derive(Clone, Copy, Debug, PartialEq, Eq)]
pub struct Grouped {
    pub payments: u64,
    pub sum: u64,
}

// What a resolution found the queue to be.
#[derive(Clone, Copy, Debug, PartialEq, Eq)]
pub enum Verdict {
    // Nothing waited.
    Empty,
    // All was settled.
    Full,
    // Some was settled.
    Partial,
    // Payments waited, and none was settled.
    Deadlocked,
}

impl From<Verdict> for u64 {
    // The paper's number of a verdict.
    ghost from_gives = { λ v n. n ≡ verdict_number v };

    fn from(v: Verdict) -> u64 {
        match v {
            Verdict::Empty => 0,
            Verdict::Full => 1,
            Verdict::Partial => 2,
            Verdict::Deadlocked => 3,
        }
    }
}

// What a resolution did: the verdict, how many payments it settled, their sum, and the set of members with payments still waiting.
#[derive(Clone, Copy, Debug, PartialEq, Eq)]
pub struct Resolution {
    pub verdict: Verdict,
    pub payments: u64,
    pub sum: u64,
    pub waiting: u64,
}
