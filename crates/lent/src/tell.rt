// What an accepted call writes into the lent answer, 8 bytes a part.
ghost use Rattle.std.specs.Prelude.{◌≡◌, [], ◌∷◌, ◌≤◌, length};
ghost use Rattle.words.specs.Row.{put_row, as_it_is};
ghost use Rattle.lent.specs.Asks.{answer_parts};

use answers::Resolution;

// Writes two parts into the answer.
pub fn pair(answer: &mut [u8], x: u64, y: u64)
    requires { 16 ≤ length answer.old }
    ensures { answer.new ≡ put_row as_it_is 8 answer.old 0 (x ∷ y ∷ []) }
{
    words::rows::encode(&[x, y], answer, 0);
}

// Writes the six parts of a resolution into the answer.
pub fn resolution(answer: &mut [u8], x: Resolution)
    requires { 48 ≤ length answer.old }
    ensures { answer.new ≡ put_row as_it_is 8 answer.old 0 (answer_parts x) }
{
    let waiting = x.waiting;
    let parts = [
        u64::from(x.verdict),
        x.payments,
        x.sum,
        waiting,
        u64::from(sets::size(waiting)),
        u64::from(sets::lowest(waiting)),
    ];
    words::rows::encode(&parts, answer, 0);
}
