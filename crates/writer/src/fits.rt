// The lines of a table against numbers: whether any is due an answer.
ghost use Rattle.std.specs.Prelude.{◌≡◌, [], ◌∷◌};
ghost use Rattle.format.specs.Format.{line_ok, fine, fill};
ghost use Rattle.packet.specs.InCode.{lines_in};
ghost use Rattle.writer.specs.Puts.{Puttable};

use crate::puts;
use format::Line;
use packet::Lines;

// A line of one number is no concern of the answer a, or the number x is in its range.
fn line_fits(a: u8, t: Line, x: u32) -> bool
    ensures { result ≡ line_ok a t (x ∷ []) }
{
    t.answer != a || (t.lo <= x && x <= t.hi)
}

// No line with the numbers xs is due the answer a.
pub(crate) fn lines_fit(a: u8, ts: Lines, xs: &[u32]) -> bool
    requires { Puttable ts xs.now 0 }
    ensures { result ≡ fine a (lines_in ts) (fill (lines_in ts) xs.now) }
{
    let mut i: usize = 0;
    for j in 0..ts.m {
        let t = table::line_at(ts.from + j);
        let x = puts::number_of(t, xs.get(i).copied().unwrap_or(0));
        if !line_fits(a, t, x) {
            return false;
        }
        i += puts::taken(t);
    }
    true
}
