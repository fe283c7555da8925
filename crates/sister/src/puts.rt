// A command put into bits.
ghost use Rattle.std.specs.Prelude.{◌≡◌, false, ◌*◌, ◌<◌, ◌≤◌, length};
ghost use Rattle.std.proofs.lemmas.List.Edits.{sets};
ghost use Rattle.laws.specs.Bits.{bits};
ghost use Rattle.format.specs.Format.{encode};
ghost use Rattle.sister.specs.Table.{kind_for, count_for};
ghost use Rattle.sister.specs.Writing.{table_for, values_for, size_for, count_bad};
ghost use Rattle.sister.specs.Layout.{layout_of, head_bits, number_bits, code_bits};

use crate::parts::Layout;
use crate::{Command, Kind, parts};

pub(crate) fn kind_for(c: Command) -> Kind
    ensures { result ≡ kind_for c }
{
    match c {
        Command::Clock { .. } => Kind::Clock,
        Command::Resource { .. } => Kind::Resource,
        Command::Lock { .. } => Kind::Lock,
        Command::Unknown => Kind::Unknown,
    }
}

pub(crate) fn count_for(c: Command) -> usize
    ensures { result ≡ count_for c }
{
    match c {
        Command::Resource { length } => length,
        Command::Lock { count, .. } => count,
        Command::Clock { .. } | Command::Unknown => 0,
    }
}

// Where the parts of a command stand.
pub(crate) fn laid_for(c: Command) -> Layout
    requires { count_for c ≤ 255 }
    ensures { result ≡ layout_of (kind_for c) (count_for c) }
{
    parts::laid(kind_for(c), count_for(c))
}

// Tag and length.
fn put_head(out: &mut [u8], tag: u8, bytes: usize)
    requires { bytes < 65536 }
    ensures { bits out.new ≡ sets (bits out.old) 0 (head_bits tag bytes) }
{
    format::put_field(out, 0, 8, u32::from(tag));
    format::put_field(out, 8, 16, bytes as u32);
}

// The numbers that are the command's own, and its count.
fn put_numbers(out: &mut [u8], c: Command)
    requires { count_for c ≤ 255 }
    ensures { bits out.new ≡ sets (bits out.old) 24 (number_bits c) }
{
    match c {
        Command::Clock {
            year,
            month,
            day,
            hour,
            minute,
            second,
        } => {
            format::put_field(out, 24, 16, u32::from(year));
            format::put_fields(out, 40, 8, &[month, day, hour, minute, second]);
        }
        Command::Resource { length } => {
            format::put_field(out, 24, 8, length as u32);
        }
        Command::Lock { khz, count } => {
            format::put_field(out, 24, 32, khz);
            format::put_field(out, 56, 8, count as u32);
        }
        Command::Unknown => (),
    }
}

// n codes from bit p on.
fn put_codes(out: &mut [u8], p: usize, n: usize, codes: &[u8])
    requires { (p < 30000) × (n ≤ 255) × (length codes.now ≡ 23 * n) }
    ensures { bits out.new ≡ sets (bits out.old) p (code_bits n codes.now) }
{
    for j in 0..n {
        let q = p + 96 * j;
        format::put_field(out, q, 4, 15);
        format::put_fields(out, q + 4, 4, octets::part(codes, 23 * j, 23));
    }
}

// The whole command from the output's first bit on; its bytes.
pub(crate) fn put_command(c: Command, address: &[u8], codes: &[u8], out: &mut [u8]) -> usize
    requires { count_bad c address.now codes.now ≡ false }
    ensures size { result ≡ size_for c }
    ensures bits { bits out.new ≡ sets (bits out.old) 0 (encode (table_for c) (values_for c address.now codes.now)) }
{
    let l = laid_for(c);
    put_head(out, parts::tag_of(kind_for(c)), l.bytes);
    put_numbers(out, c);
    format::put_fields(out, l.place - 8 * l.address, 8, address);
    put_codes(out, l.place, l.codes, codes);
    3 + l.bytes
}
