// The lines of an input that comes in pieces. As many bytes of the current line as a lent buffer has room for
// are pending in it, so that a line of any length passes through. The buffer has one byte more than a line
// may have.
#![tactic(auto)]

ghost use Rattle.std.specs.Prelude.{◌≡◌, cond, ◌∷◌, [], ◌-◌, ◌<◌, ◌≤◌, length, take, drop};
ghost use Rattle.text_lines.specs.Lines.{last_line};
ghost use Rattle.text_lines.specs.Scans.{NextLine, Went};

// What a scan for the next line end found: whether a line ended, how many bytes of it are pending, and the
// place after it in the piece. `complete` is no Option around the rest: both numbers are the caller's whether a
// line ended or not.
#[derive(Clone, Copy)]
pub struct Scan {
    pub complete: bool,
    pub pending: usize,
    pub at: usize,
}

// Scans the piece for the next line end, from `from` on. The bytes up to it join the `pending` bytes of the
// current line.
pub fn next_line(line: &mut [u8], pending: usize, piece: &[u8], from: usize) -> Scan
    requires { (1 ≤ length line.old) × ((pending ≤ length line.old) × (from ≤ length piece.now)) }
    ensures { NextLine (length line.old - 1) result.complete
        (take pending line.old) (drop from piece.now)
        (take result.pending line.new) (drop result.at piece.now)
        × Went (length line.old - 1) result from (length piece.now) }
{
    let mut n = pending;
    for i in from..piece.len() {
        let b = piece[i];
        if b == b'\n' {
            return Scan {
                complete: true,
                pending: n,
                at: i + 1,
            };
        }
        if n < line.len() {
            line[n] = b;
            n += 1;
        }
    }
    Scan {
        complete: false,
        pending: n,
        at: piece.len(),
    }
}

// True if the bytes pending at the end of the input are a line.
pub fn is_line(rest: &[u8]) -> bool
    ensures { last_line rest.now ≡ cond result (rest.now ∷ []) [] }
{
    0 < rest.len()
}
