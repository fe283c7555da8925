// The packets as they are lent: where one ends, how many there are, whether each is a part, where the one with a head begins.
ghost use Rattle.std.specs.Prelude.{◌≡◌, true, ◌+◌, ◌<◌, ◌≤◌, length, drop};
ghost use Rattle.laws.specs.Scan.{all};
ghost use Rattle.size.specs.Size.{packet_size};
ghost use Rattle.packet.specs.Reading.{body_of};
ghost use Rattle.story.specs.Telling.{head_of};
ghost use Rattle.story.specs.Joining.{lent, is_part, headed as has_head, with_head};
ghost use Rattle.join.specs.Places.{piece_at};

// How many bytes the packet that begins at i says it has.
fn size_at(packets: &[u8], i: usize) -> usize
    ensures { result ≡ packet_size (drop i packets.now) }
{
    let b = octets::part(packets, i, packets.len());
    size::packet_size(b)
}

// Where the next packet begins, or the end.
fn next(packets: &[u8], i: usize) -> usize
    requires { i < length packets.now }
    ensures { (drop result packets.now ≡ drop (i + packet_size (drop i packets.now)) packets.now) × (i < result) × (result ≤ length packets.now) }
{
    let n = packets.len();
    let size = size_at(packets, i);
    if size < n - i { i + size } else { n }
}

// The packet that begins at i.
pub(crate) fn piece(packets: &[u8], i: usize) -> &[u8]
    ensures { result.now ≡ piece_at packets.now i }
{
    let size = size_at(packets, i);
    octets::part(packets, i, size)
}

// How many packets there are, ten at most.
pub(crate) fn count(packets: &[u8]) -> usize
    ensures { result ≡ length (lent packets.now) }
{
    let n = packets.len();
    let mut i: usize = 0;
    let mut m: usize = 0;
    // Stays a while: each packet's own length field says where the next begins, and neither a range nor chunks step so.
    while i < n {
        if m == 10 {
            return 10;
        }
        i = next(packets, i);
        m += 1;
    }
    m
}

// Whether each packet that is lent is a part.
pub(crate) fn all_parts(packets: &[u8]) -> bool
    ensures { result ≡ all is_part (lent packets.now) }
{
    let n = packets.len();
    let mut i: usize = 0;
    let mut m: usize = 0;
    // Stays a while: each packet's own length field says where the next begins, and neither a range nor chunks step so.
    while i < n {
        if m == 10 {
            return true;
        }
        let b = piece(packets, i);
        if !crate::is_part(b) {
            return false;
        }
        i = next(packets, i);
        m += 1;
    }
    true
}

// The body of a part: behind the codes and 20 bytes, its length in the byte before it. The packet is not judged again.
pub(crate) fn body_of(b: &[u8]) -> &[u8]
    requires { is_part b.now ≡ true }
    ensures { result.now ≡ body_of b.now }
{
    let n = format::field(b, 16, 8) as usize;
    let t = format::field(b, 176 + 96 * n, 8) as usize;
    octets::part(b, 23 + 12 * n, t)
}

// Whether a part's body begins with the head of the part of n that has k before it.
fn headed(b: &[u8], k: usize, n: usize) -> bool
    requires { (k < 9) × (n ≤ 9) × (is_part b.now ≡ true) }
    ensures { result ≡ has_head (head_of (k + 1) n) b.now }
{
    let t = body_of(b);
    let u = octets::part(t, 0, 4);
    if u.len() != 4 {
        return false;
    }
    let h = [(49 + k) as u8, 47, (48 + n) as u8, 32];
    octets::same_bytes(&h, u)
}

// Where the first of the parts with that head begins; the end where there is none.
pub(crate) fn find(packets: &[u8], k: usize, n: usize) -> usize
    requires { (k < 9) × (n ≤ 9) × (all is_part (lent packets.now) ≡ true) }
    ensures { piece_at packets.now result ≡ with_head (head_of (k + 1) n) (lent packets.now) }
{
    let e = packets.len();
    let mut i: usize = 0;
    let mut m: usize = 0;
    // Stays a while, as above: a packet's length field says where the next begins.
    while i < e {
        if m == 10 {
            return e;
        }
        let b = piece(packets, i);
        if headed(b, k, n) {
            return i;
        }
        i = next(packets, i);
        m += 1;
    }
    e
}
