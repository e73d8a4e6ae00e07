// A set of members as one number, in which member i counts as 2^(i - 1): how many stand in it, and the lowest.
#![tactic(auto)]

ghost use Rattle.std.specs.Prelude.{◌≡◌};
ghost use Rattle.std.specs.Int.Count.{ones};
ghost use Rattle.sets.specs.Sets.{lowest_in};

// How many members stand in the set.
pub fn size(set: u64) -> u32
    ensures { result ≡ ones set }
{
    set.count_ones()
}

// The lowest member of the set, and 0 for the empty one.
// Kept: 0 is what the sheet and a host are told then (`sets::specs::Sets::lowest_in`).
pub fn lowest(set: u64) -> u32
    ensures { result ≡ lowest_in set }
{
    if set == 0 {
        return 0;
    }
    set.trailing_zeros() + 1
}
