// Lists of bytes: one byte of a list, a part of it, and whether two lists are the same.
#![tactic(auto)]

ghost use Rattle.std.specs.Prelude.{◌≡◌, get_or};
ghost use Rattle.laws.specs.Lists.{same};
ghost use Rattle.octets.specs.Parts.{part_of};

// Byte `i`, and 0 where there is none.
pub fn byte(b: &[u8], i: usize) -> u8
    ensures { result ≡ get_or b.now i 0 }
{
    b.get(i).copied().unwrap_or(0)
}

// k bytes from a byte on; as many as there are.
pub fn part(b: &[u8], from: usize, k: usize) -> &[u8]
    ensures { result.now ≡ part_of b.now from k }
{
    let p = b.len();
    if p <= from {
        return &b[0..0];
    }
    if k < p - from {
        let e = from + k;
        &b[from..e]
    } else {
        &b[from..p]
    }
}

// Whether two lists are the same.
pub fn same_bytes(a: &[u8], b: &[u8]) -> bool
    ensures { result ≡ same a.now b.now }
{
    a == b
}
