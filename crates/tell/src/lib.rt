// Tells a story: a text of any length as one to nine packets, back to back.
#![tactic(auto)]

mod characters;
mod packets;

ghost use Rattle.std.specs.Prelude.{◌≡◌, length};
ghost use Rattle.story.specs.Telling.{told_as, told, tell_output};

use packets::Parts;
use refusal::Refusal;
use story::{Story, Told};

// The story's packets from the output's first byte on, how many they are, and their bytes: 23, 26, 25, 27, 20, 30, 31, 32 or 10 where it is
// refused, and then nothing is written.
pub fn tell(story: Story, codes: &[u8], text: &[u8], out: &mut [u8]) -> Result<Told, Refusal>
    ensures answer { told_as result ≡ told story codes.now text.now (length out.old) }
    ensures output { out.new ≡ tell_output story codes.now text.now out.old }
{
    packets::own_answer(story, codes)?;
    if characters::lone(text) {
        return Err(Refusal::LoneByte);
    }
    let each = 101 + 12 * story.codes;
    let room = 250 - each;
    let n = characters::count(text, room);
    if n > 9 {
        return Err(Refusal::Parts);
    }
    if story::last_four(&story.digits) as usize + (n - 1) > 9999 {
        return Err(Refusal::MessageNumber);
    }
    let length = n * each + text.len();
    if out.len() < length {
        return Err(Refusal::Room);
    }
    let parts = Parts {
        count: n,
        room,
        each,
    };
    packets::put_all(story, codes, text, parts, out);
    Ok(Told { parts: n, length })
}
