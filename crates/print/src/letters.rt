// What the letters program prints of 26 bits that carry a letter.
ghost use Rattle.std.specs.Prelude.{Some, ◌≡◌, ◌∷◌, ◌+◌, ◌/◌, ◌%◌, ◌<◌, ◌≤◌, length};
ghost use Rattle.std.proofs.lemmas.List.Edits.{sets};
ghost use Rattle.print.specs.Letters.{number_text, number_written, number_into, letter_text, info_text, letter_written, letter_output};

use crate::put_hex;
use block::AnyLetter;

// The number's digits from the output's start, and how many.
pub(crate) fn put_number(n: u64, out: &mut [u8]) -> usize
    requires { length (number_text n) ≤ length out.old }
    ensures length { result ≡ length (number_text n) }
    ensures output { out.new ≡ sets out.old 0 (number_text n) }
{
    if n < 10 {
        out[0] = b'0' + n as u8;
        return 1;
    }
    let k = put_number(n / 10, out);
    out[k] = b'0' + (n % 10) as u8;
    k + 1
}

// Writes a number in decimal at the output's start and answers how many digits it has. Where the output has no room for twenty, it writes nothing and
// answers 0.
pub fn number(n: u64, out: &mut [u8]) -> usize
    ensures length { result ≡ number_written n out.old }
    ensures output { out.new ≡ number_into n out.old }
{
    if out.len() < 20 {
        return 0;
    }
    put_number(n, out)
}

// The name of a letter.
fn name_of(letter: AnyLetter) -> &'static [u8]
    ensures { 32 ∷ result.now ≡ letter_text (Some letter) }
{
    match letter {
        AnyLetter::A => b"A",
        AnyLetter::B => b"B",
        AnyLetter::C => b"C",
        AnyLetter::D => b"D",
        AnyLetter::CPrime => b"C'",
    }
}

// A space and the letter's name from a byte on, and how many bytes.
fn put_letter(letter: AnyLetter, at: usize, out: &mut [u8]) -> usize
    requires { at + 3 ≤ length out.old }
    ensures length { result ≡ length (letter_text (Some letter)) }
    ensures output { out.new ≡ sets out.old at (letter_text (Some letter)) }
{
    let name = name_of(letter);
    let end = at + 1 + name.len();
    out[at] = b' ';
    out[at + 1..end].copy_from_slice(name);
    1 + name.len()
}

// A space, the information in hex and the line's end, from a byte on.
fn put_info(info: u16, at: usize, out: &mut [u8])
    requires { at + 6 ≤ length out.old }
    ensures { out.new ≡ sets out.old at (info_text info) }
{
    out[at] = b' ';
    put_hex(&info.to_be_bytes(), &mut out[at + 1..]);
    out[at + 5] = b'\n';
}

// Writes the line of 26 bits that carry a letter at the output's start and answers its length. Where they carry none, or the output has
// no room for the longest line, it writes nothing and answers 0.
pub fn letter_line(place: u64, bits: u32, out: &mut [u8]) -> usize
    ensures length { result ≡ letter_written place bits out.old }
    ensures output { out.new ≡ letter_output place bits out.old }
{
    if out.len() < 29 {
        return 0;
    }
    let Some(letter) = block::letter_of(bits) else {
        return 0;
    };
    let digits = put_number(place, out);
    let behind = digits + put_letter(letter, digits, out);
    put_info((bits / 1024) as u16, behind, out);
    behind + 6
}
