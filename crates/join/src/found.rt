// The parts as they are found, in the order of their heads: each is looked for once.
ghost use Rattle.std.specs.Prelude.{◌≡◌, true, ◌+◌, ◌<◌, ◌≤◌, length, drop};
ghost use Rattle.std.proofs.lemmas.List.Edits.{sets};
ghost use Rattle.laws.specs.Scan.{all};
ghost use Rattle.packet.specs.Reading.{body_of};
ghost use Rattle.story.specs.Joining.{lent as lent_in, is_part, digits_of, is_after, found, all_in_step, texts};
ghost use Rattle.join.specs.Places.{piece_at, Placed, Ready};

use crate::lent;

// Where each part of n begins.
pub(crate) fn places(packets: &[u8], n: usize) -> [usize; 9]
    requires { (n ≤ 9) × (all is_part (lent_in packets.now) ≡ true) }
    ensures { Placed n packets.now result n }
{
    let mut at = [0usize; 9];
    for k in 0..n {
        at[k] = lent::find(packets, k, n);
    }
    at
}

// Whether every part of n is there: what is found is one of the parts lent, or no byte.
pub(crate) fn all_found(packets: &[u8], at: [usize; 9], n: usize) -> bool
    requires { (n ≤ 9) × Placed n packets.now at n × (all is_part (lent_in packets.now) ≡ true) }
    ensures { result ≡ all is_part (found n (lent_in packets.now) 0 n) }
{
    for k in 0..n {
        if lent::piece(packets, at[k]).is_empty() {
            return false;
        }
    }
    true
}

// The message number of the part that begins at i: 35 digits behind the codes and 12 bits. The packet is not judged again.
fn digits_at(packets: &[u8], i: usize) -> [u8; 35]
    requires { is_part (piece_at packets.now i) ≡ true }
    ensures { result ≡ digits_of (piece_at packets.now i) }
{
    let b = lent::piece(packets, i);
    let n = format::field(b, 16, 8) as usize;
    let mut d = [0u8; 35];
    format::fields(b, 36 + 96 * n, 35, 4, &mut d, 0);
    d
}

// The text behind the head of the part that begins at i.
fn text_at(packets: &[u8], i: usize) -> &[u8]
    requires { is_part (piece_at packets.now i) ≡ true }
    ensures { result.now ≡ drop 4 (body_of (piece_at packets.now i)) }
{
    let b = lent::piece(packets, i);
    let t = lent::body_of(b);
    octets::part(t, 4, t.len())
}

// Whether a message number is k after the first.
fn is_after(d: [u8; 35], first: [u8; 35], k: usize) -> bool
    requires { k < 9 }
    ensures { result ≡ is_after d first k }
{
    octets::same_bytes(&d[0..31], &first[0..31])
        && story::last_four(&d) as usize == story::last_four(&first) as usize + k
}

// Whether the message numbers are in step with that of part 1.
pub(crate) fn in_step(packets: &[u8], at: [usize; 9], n: usize) -> bool
    requires { (1 ≤ n) × Ready n packets.now at }
    ensures { result ≡ all_in_step (found n (lent_in packets.now) 0 n) }
{
    let first = digits_at(packets, at[0]);
    for k in 0..n {
        if !is_after(digits_at(packets, at[k]), first, k) {
            return false;
        }
    }
    true
}

// How long the text is.
pub(crate) fn text_length(packets: &[u8], at: [usize; 9], n: usize) -> usize
    requires { Ready n packets.now at }
    ensures { result ≡ length (texts (found n (lent_in packets.now) 0 n)) }
{
    let mut sum = 0;
    for k in 0..n {
        sum += text_at(packets, at[k]).len();
    }
    sum
}

// A text, from byte p on.
fn put_text(out: &mut [u8], p: usize, text: &[u8])
    requires { p + length text.now ≤ length out.old }
    ensures { out.new ≡ sets out.old p text.now }
{
    let end = p + text.len();
    out[p..end].copy_from_slice(text);
}

// The texts of all parts, one behind the other.
pub(crate) fn put_texts(packets: &[u8], at: [usize; 9], n: usize, out: &mut [u8])
    requires { Ready n packets.now at × (length (texts (found n (lent_in packets.now) 0 n)) ≤ length out.old) }
    ensures { out.new ≡ sets out.old 0 (texts (found n (lent_in packets.now) 0 n)) }
{
    let mut p = 0;
    for k in 0..n {
        let t = text_at(packets, at[k]);
        put_text(out, p, t);
        p += t.len();
    }
}
