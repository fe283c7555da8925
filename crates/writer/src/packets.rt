// A whole packet put into bits.
ghost use Rattle.std.specs.Prelude.{◌≡◌, ◌+◌, ◌*◌, ◌%◌, ◌<◌, ◌≤◌, length, drop};
ghost use Rattle.std.proofs.lemmas.List.Edits.{sets};
ghost use Rattle.laws.specs.Bits.{bits, bits_of, spread};
ghost use Rattle.packet.specs.Table.{code};
ghost use Rattle.packet.specs.Writing.{table_for, values_for, size_for};
ghost use Rattle.format.specs.Format.{size, encode, fill, times};
ghost use Rattle.writer.specs.Puts.{After};
ghost use Rattle.writer.specs.Parts.{head_bits, code_bits, ending_bits, Writable};

use crate::{columns, content};
use packet::Fields;

// Type, length field and count of codes.
fn put_head(out: &mut [u8], kind: u8, size: usize, codes: usize)
    requires { (2 ≤ size) × (size ≤ 250) × (codes ≤ 255) }
    ensures { bits out.new ≡ sets (bits out.old) 0 (head_bits kind size codes) }
{
    format::put_field(out, 0, 5, kind as u32);
    format::put_field(out, 5, 11, (size - 2) as u32);
    format::put_field(out, 16, 8, codes as u32);
}

// A code in twelve bytes from byte k on, its digits those from the i-th on: four reserved bits, and a digit to each four behind.
fn put_code(out: &mut [u8], k: usize, codes: &[u8], i: usize)
    requires { (k + 12 ≤ length out.old) × (i + 23 ≤ length codes.now) }
    ensures { bits out.new ≡ sets (bits out.old) (k * 8) (code_bits (drop i codes.now)) }
{
    out[k] = 240 + codes[i] % 16;
    columns::put_pairs(out, k + 1, 11, codes, i + 1);
}

// n codes behind the head; the place behind them.
fn put_codes(out: &mut [u8], n: usize, codes: &[u8]) -> usize
    requires { (3 + 12 * n ≤ length out.old) × (length codes.now ≡ n * 23) × (n ≤ 255) }
    ensures { After out.old out.new 24 (encode (times n code) (fill (times n code) codes.now)) result (n * size code) }
{
    for j in 0..n {
        put_code(out, 3 + 12 * j, codes, 23 * j);
    }
    24 + 96 * n
}

// Bytes from byte k on, as they are.
fn put_bytes(out: &mut [u8], k: usize, d: &[u8])
    requires { k + length d.now ≤ length out.old }
    ensures { bits out.new ≡ sets (bits out.old) (k * 8) (spread 8 d.now) }
{
    out[k..k + d.len()].copy_from_slice(d);
}

// A time in four bytes from byte k on.
fn put_time(out: &mut [u8], k: usize, time: u32)
    requires { k + 4 ≤ length out.old }
    ensures { bits out.new ≡ sets (bits out.old) (k * 8) (bits_of 32 time) }
{
    put_bytes(out, k, &time.to_be_bytes());
}

// Time, certificate number and signature.
fn put_ending(
    out: &mut [u8],
    p: usize,
    time: u32,
    certificate: [u8; 12],
    signature: [u8; 64],
) -> usize
    requires { (p % 8 ≡ 0) × (p + 592 ≤ 8 * length out.old) × (p < 30000) }
    ensures { After out.old out.new p (ending_bits time certificate signature) result 592 }
{
    let k = p / 8;
    put_time(out, k, time);
    columns::put_pairs(out, k + 4, 6, &certificate, 0);
    put_bytes(out, k + 10, &signature);
    p + 592
}

// The packet of so many bytes, from the output's first bit on.
pub(crate) fn put_packet(f: Fields, codes: &[u8], body: &[u8], size: usize, out: &mut [u8])
    requires { Writable f codes.now body.now × (size ≡ size_for f body.now) × (size ≤ length out.old) }
    ensures { bits out.new ≡ sets (bits out.old) 0 (encode (table_for f body.now) (values_for f codes.now body.now)) }
{
    put_head(out, f.typenumber, size, f.codes);
    let q = put_codes(out, f.codes, codes);
    let e = content::put_content(out, q, f.content, &f.digits, body);
    put_ending(out, e, f.time, f.certificate, f.signature);
}
