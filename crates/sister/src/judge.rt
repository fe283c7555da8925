// What is wrong with a command's bytes, or with what is to be written.
ghost use Rattle.std.specs.Prelude.{◌≡◌, false, ◌<◌, ◌≤◌, drop};
ghost use Rattle.laws.specs.Bits.{bits};
ghost use Rattle.laws.specs.Refusals.{first};
ghost use Rattle.format.specs.Format.{times, decode, fine, inside};
ghost use Rattle.refusal.specs.Refusal.{number_of, answer_of};
ghost use Rattle.packet.specs.Table.{code};
ghost use Rattle.sister.specs.Reading.{length_bad, read_cases, read_answer};
ghost use Rattle.sister.specs.Writing.{count_bad, write_cases, written_answer};
ghost use Rattle.sister.specs.Layout.{fields_fine};

use crate::{Command, Kind, parts, puts};
use packet::Content;
use refusal::Refusal;

// ---- reading

// The length field is not that of what follows, or not that of the command.
#[tactic(auto, unfolding(crate::specs::Reading::length_bad))]
fn length_bad(b: &[u8]) -> bool
    ensures { result ≡ length_bad b.now }
{
    let n = usize::from(parts::medium(b, 8));
    b.len() != 3 + n || n != parts::laid_in(b).bytes
}

// No line of the code from bit p on is due the refusal.
fn code_fine(refusal: Refusal, b: &[u8], p: usize) -> bool
    requires { p < 60000 }
    ensures { result ≡ fine (number_of refusal) code (decode code (bits b.now) p) }
{
    match refusal {
        Refusal::ReservedBit => format::ranged(b, p, 1, 4, 15, 15),
        Refusal::Digit => format::ranged(b, p + 4, 23, 4, 0, 9),
        _ => true,
    }
}

// The same of n codes.
fn codes_fine(refusal: Refusal, b: &[u8], p: usize, n: usize) -> bool
    requires { (p < 30000) × (n ≤ 255) }
    ensures { result ≡ fine (number_of refusal) (times n code) (decode (times n code) (bits b.now) p) }
{
    (0..n).all(|j| code_fine(refusal, b, p + j * 96))
}

// The fields of a command are in their ranges, and its day is one that the month has.
#[tactic(auto, unfolding(crate::specs::Layout::fields_fine, format::specs::Format::fine, format::specs::Format::fill))]
fn fields_fine(c: Command) -> bool
    ensures { result ≡ fields_fine c }
{
    match c {
        Command::Clock {
            year,
            month,
            day,
            hour,
            minute,
            second,
        } => {
            let no_day = packet::no_such_day(Content::Clock {
                year,
                month,
                day,
                hour,
                minute,
                second,
            });
            (1 <= month)
                & (month <= 12)
                & (1 <= day)
                & (day <= 31)
                & (hour <= 23)
                & (minute <= 59)
                & (second <= 59)
                & !no_day
        }
        Command::Resource { .. } | Command::Lock { .. } | Command::Unknown => true,
    }
}

// What the lines of a command whose length is right are due: 24, 25 or 27.
fn lines_answer(b: &[u8]) -> Result<(), Refusal>
    ensures { answer_of result ≡ first (drop 3 (read_cases b.now)) }
{
    let l = parts::laid_in(b);
    if !codes_fine(Refusal::ReservedBit, b, l.place, l.codes) {
        return Err(Refusal::ReservedBit);
    }
    if !codes_fine(Refusal::Digit, b, l.place, l.codes) {
        return Err(Refusal::Digit);
    }
    if !fields_fine(parts::command(b)) {
        return Err(Refusal::Range);
    }
    Ok(())
}

// The reader's answer.
pub(crate) fn answer(b: &[u8]) -> Result<(), Refusal>
    ensures { answer_of result ≡ read_answer b.now }
{
    if b.len() < 3 {
        return Err(Refusal::Length);
    }
    if parts::tag_of(parts::kind(b)) == 0 {
        return Err(Refusal::Tag);
    }
    if length_bad(b) {
        return Err(Refusal::Length);
    }
    lines_answer(b)
}

// ---- writing

// No digit is above 9.
fn digits_fine(xs: &[u8]) -> bool
    ensures { result ≡ inside 0 9 xs.now }
{
    xs.iter().all(|x| *x <= 9)
}

// The count is above 255, or the address or the codes are not as many as the command has.
#[tactic(auto, unfolding(crate::specs::Writing::count_bad))]
fn count_bad(c: Command, address: &[u8], codes: &[u8]) -> bool
    ensures { result ≡ count_bad c address.now codes.now }
{
    if puts::count_for(c) > 255 {
        return true;
    }
    let l = puts::laid_for(c);
    address.len() != l.address || codes.len() != 23 * l.codes
}

// What a command whose counts are right is due: 25, 27 or 10.
fn rest_answer(c: Command, address: &[u8], codes: &[u8], room: usize) -> Result<(), Refusal>
    requires { count_bad c address.now codes.now ≡ false }
    ensures { answer_of result ≡ first (drop 2 (write_cases c address.now codes.now room)) }
{
    if !digits_fine(codes) {
        return Err(Refusal::Digit);
    }
    if !fields_fine(c) {
        return Err(Refusal::Range);
    }
    if room < 3 + puts::laid_for(c).bytes {
        return Err(Refusal::Room);
    }
    Ok(())
}

// The writer's answer.
pub(crate) fn written_answer(
    c: Command,
    address: &[u8],
    codes: &[u8],
    room: usize,
) -> Result<(), Refusal>
    ensures { answer_of result ≡ written_answer c address.now codes.now room }
{
    if parts::tag_of(puts::kind_for(c)) == 0 {
        return Err(Refusal::Tag);
    }
    if count_bad(c, address, codes) {
        return Err(Refusal::Length);
    }
    rest_answer(c, address, codes, room)
}
