// The lines at the end: a balance for each member, then the money.
ghost use Rattle.std.specs.Prelude.{◌≡◌, ◌≤◌, ◌<◌, length};
ghost use Rattle.tables.specs.Sizes.{members};
ghost use Rattle.tables.specs.Layout.{tables};
ghost use Rattle.night.specs.Lines.{end_at, end_next};
ghost use Rattle.night.specs.Stands.{Telling};

use crate::Stage;
use sheet::Says;
use tables::House;

// The line that comes k-th at the end.
pub fn end_line(accounts: &[i64], counters: &[u32], pays: &[u64], k: u64) -> Says
    requires { Telling k (tables accounts.now counters.now pays.now) }
    ensures { result ≡ end_at (tables accounts.now counters.now pays.now) k }
{
    if k < u64::from(counters[House::MEMBERS_AT]) {
        let i = k as usize;
        let left = tables::look::waiting_of(counters, i);
        return Says::Balance(k + 1, accounts[i], u64::from(left));
    }
    Says::Money(tables::look::total(accounts, House::MEMBERS))
}

// The stage behind it.
pub fn end_next(counters: &[u32], k: u64) -> Stage
    requires { (0 < length counters.now) × (k ≤ members) }
    ensures { result ≡ end_next counters.now k }
{
    if k < u64::from(counters[House::MEMBERS_AT]) {
        Stage::Ending(k + 1)
    } else {
        Stage::Over
    }
}
