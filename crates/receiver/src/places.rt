// Places where a frame may begin.
ghost use Rattle.std.specs.Prelude.{◌≡◌, ◌+◌, ◌/◌, ◌≤◌, length};
ghost use Rattle.laws.specs.Bits.{bits};
ghost use Rattle.receiver.specs.Search.{Marks, ClearUpTo, Holds, Further};

use crate::window::window;

// Marks each place of a number where a block A begins, and few others: the product of ten sums of bits, each of which is 1 in every block A.
fn marks(u: u64) -> u64
    ensures { Marks u result }
{
    let e = u ^ (u >> 1);
    let t = e ^ (u >> 2) ^ (u >> 7) ^ (u >> 11) ^ (u >> 16);
    let v = t ^ (u >> 19);
    let w = v ^ (u >> 21);
    let z = (t >> 10) ^ e ^ (u >> 26);
    let a = (t >> 7) & ((t >> 7) ^ (t >> 8)) & (v >> 5);
    let b = (w >> 2) & (w >> 3) & (w >> 4);
    let c = ((v >> 4) ^ (t >> 6)) & ((t >> 7) ^ (t >> 9) ^ u) & ((t >> 7) ^ z) & (z >> 1);
    a & b & c
}

// Marks of the next 39 places, the first of them highest: so many as stand above the first mark are none.
fn marked(b: &[u8], from: usize) -> u64
    requires { from / 8 + 9 ≤ length b.now }
    ensures { ClearUpTo (bits b.now) from result }
{
    marks(window(b, from)) % 0x80_0000_0000
}

// The first place from here on that is marked, or the last. Where none of 39 is, the next place to look at does not wait for the marks.
pub(crate) fn open_from(b: &[u8], end: usize, from: usize, last: usize) -> usize
    requires { Holds b.now end × (last + 103 ≡ end) × (from ≤ last) }
    ensures { Further b.now end from last result }
{
    let mut p = from;
    // a while: it ends at the first mark, and every turn but that one passes 39 places
    while p < last {
        let m = marked(b, p);
        if m != 0 {
            let q = p + (u64::leading_zeros(m) - 25) as usize;
            if last <= q {
                return last;
            }
            return q;
        }
        if last <= p + 39 {
            return last;
        }
        p += 39;
    }
    p
}
