// Bytes in chunks of any size, cut into lines.
ghost use Rattle.std.specs.Prelude.{◌≡◌, ◌+◌, ◌≤◌, ◌<◌, length, drop, IfSome};
ghost use Rattle.dayfile.specs.Lines.{most_bytes};
ghost use Rattle.dayfile.specs.Chunks.{pushed, eat_of, state_of, AteSo, WholeAt};

// The most bytes of a line, before the byte 10.
pub const MOST_BYTES: usize = 400;

// What is held of the line that is not ended: how many bytes stand in the lent buffer, and whether there were more than 400.
// Kept: both fields are meant in both cases, since a long line's first 400 bytes stay in the buffer (`dayfile::specs::Chunks::state_of`).
#[derive(Clone, Copy)]
pub struct Cut {
    pub held: usize,
    pub is_long: bool,
}

// What eating found: whether a line is ended, or only the chunk; the next place; what is held of the line.
// Kept: the place and what is held are meant in both cases.
#[derive(Drop)]
pub struct Ate {
    pub is_done: bool,
    pub at: usize,
    pub cut: Cut,
}

// The end of the line from from on, where nothing is held of it and all of it stands in the chunk.
pub fn whole(chunk: &[u8], from: usize, c: Cut) -> Option<usize>
    requires { from ≤ length chunk.now }
    ensures { IfSome result (λ e. (e < length chunk.now) × WholeAt chunk.now from c e) }
{
    if c.held > 0 || c.is_long {
        return None;
    }
    let n = memchr::memchr(b'\n', &chunk[from..])?;
    if n > MOST_BYTES {
        return None;
    }
    Some(from + n)
}

// Eats the chunk from from on, up to and with the end of a line, or all of it.
pub fn eat(chunk: &[u8], from: usize, buf: &mut [u8; MOST_BYTES], c: Cut) -> Ate
    requires { (c.held ≤ most_bytes) × (from ≤ length chunk.now) }
    ensures ate_so { AteSo result (eat_of (drop from chunk.now) (state_of buf.old c)) buf.new from }
    ensures at_in_bounds { (result.at ≤ length chunk.now) × (result.cut.held ≤ most_bytes) }
{
    let mut t = c;
    for (k, &b) in chunk[from..].iter().enumerate() {
        if b == b'\n' {
            return Ate {
                is_done: true,
                at: from + k + 1,
                cut: t,
            };
        }
        t = push(buf, t, b);
    }
    Ate {
        is_done: false,
        at: chunk.len(),
        cut: t,
    }
}

// One byte more of the line that is not ended; past 400 it is only noted that there was one.
fn push(buf: &mut [u8; MOST_BYTES], c: Cut, b: u8) -> Cut
    requires { c.held ≤ most_bytes }
    ensures { (state_of buf.new result ≡ pushed b (state_of buf.old c)) × (result.held ≤ most_bytes) }
{
    if c.held < MOST_BYTES {
        buf[c.held] = b;
        Cut {
            held: c.held + 1,
            ..c
        }
    } else {
        Cut { is_long: true, ..c }
    }
}
