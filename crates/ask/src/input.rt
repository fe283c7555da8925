// Parts of the input. What is asked for past its end is 0, or nothing.
ghost use Rattle.std.specs.Prelude.{◌≡◌, ◌≤◌, length};

// The length of a record of two parts; 0 where there is less.
pub(crate) fn whole(b: &[u8], head: usize, rest: usize) -> usize
    requires { (head ≤ 1000) × (rest ≤ 199000) }
    ensures { result ≤ length b.now }
{
    let n = head + rest;
    if n <= b.len() { n } else { 0 }
}

// A number of two bytes.
pub(crate) fn two(b: &[u8], i: usize) -> u16
    requires { i ≤ 1000 }
{
    octets::byte(b, i) as u16 * 256 + octets::byte(b, i + 1) as u16
}

// A number of four bytes.
pub(crate) fn four(b: &[u8], i: usize) -> u32
    requires { i ≤ 900 }
{
    two(b, i) as u32 * 65536 + two(b, i + 2) as u32
}

// A number of eight bytes.
pub(crate) fn eight(b: &[u8], i: usize) -> u64
    requires { i ≤ 800 }
{
    four(b, i) as u64 * 0x1_0000_0000 + four(b, i + 4) as u64
}

// Copies bytes until the output is full; zeros where there are no more.
pub(crate) fn fill(b: &[u8], out: &mut [u8])
    ensures { length out.new ≡ length out.old }
{
    let n = b.len().min(out.len());
    out[..n].copy_from_slice(&b[..n]);
    out[n..].fill(0);
}
