// What the listing program prints of a frame; the letters program's lines are in `letters`, the shelf program's in `records`.
#![tactic(auto)]

mod letters;
mod records;

ghost use Rattle.std.specs.Prelude.{◌≡◌, [], ◌∷◌, ◌++◌, ◌+◌, ◌*◌, ◌<◌, ◌≤◌, length};
ghost use Rattle.std.proofs.lemmas.List.Edits.{sets};
ghost use Rattle.print.specs.Lines.{glyph, hex_of, decimal_of, written_of, line_into};

pub use letters::{letter_line, number};
pub use records::record_line;

// 0 to 9, A to F.
pub(crate) fn hex_glyph(d: u8) -> u8
    requires { d < 16 }
    ensures { result ≡ glyph d }
{
    if d < 10 { b'0' + d } else { b'A' - 10 + d }
}

// The two characters of a byte.
pub fn hex_of(b: u8) -> [u8; 2]
    ensures { result ≡ hex_of (b ∷ []) }
{
    [hex_glyph(b / 16), hex_glyph(b % 16)]
}

// Two characters a byte from the output's start.
pub(crate) fn put_hex(frame: &[u8], out: &mut [u8])
    requires { 2 * length frame.now ≤ length out.old }
    ensures { out.new ≡ sets out.old 0 (hex_of frame.now) }
{
    for (i, b) in frame.iter().enumerate() {
        out[2 * i] = hex_glyph(b / 16);
        out[2 * i + 1] = hex_glyph(b % 16);
    }
}

pub(crate) fn decimal_length(n: u8) -> usize
    ensures { (result ≡ length (decimal_of n)) × (result < 4) }
{
    match n {
        0..=9 => 1,
        10..=99 => 2,
        _ => 3,
    }
}

// The number, then the line's end.
pub(crate) fn put_answer(answer: u8, out: &mut [u8])
    requires { length (decimal_of answer) + 1 ≤ length out.old }
    ensures { out.new ≡ sets out.old 0 (decimal_of answer ++ (10 ∷ [])) }
{
    let end = letters::put_number(u64::from(answer), out);
    out[end] = b'\n';
}

// Writes the frame's line at the output's start and answers its length; where the output is too short it writes nothing and answers 0.
pub fn frame_line(frame: &[u8], answer: u8, out: &mut [u8]) -> usize
    ensures length { result ≡ written_of frame.now answer out.old }
    ensures output { out.new ≡ line_into frame.now answer out.old }
{
    let digits = decimal_length(answer);
    let room = out.len();
    if room < digits + 2 {
        return 0;
    }
    if (room - digits - 2) / 2 < frame.len() {
        return 0;
    }
    let at = 2 * frame.len();
    put_hex(frame, out);
    out[at] = b' ';
    let from = at + 1;
    put_answer(answer, &mut out[from..]);
    at + digits + 2
}
