// One story: which it is, and the parts that were heard of it.
ghost use Rattle.std.specs.Prelude.{◌≡◌, true, ◌&&◌, ◌+◌, ◌-◌, ◌<◌, ◌≤◌, length, get_or};
ghost use Rattle.std.proofs.lemmas.List.Edits.{sets};
ghost use Rattle.laws.specs.Lists.{same};
ghost use Rattle.stories.specs.Tales.{untold as untold_tale, is_story, fair, text_at, holds_text, is_whole, whole_text, taken_for, with_text, opened};
ghost use Rattle.stories.specs.Steps.{all_short, Steady};

use crate::{Part, Tale};

// A place that was never taken.
pub(crate) fn untold() -> Tale
    ensures { result ≡ untold_tale }
{
    Tale {
        held: false,
        number: [0; 35],
        total: 0,
        lengths: [0; 9],
        bytes: [0; 1341],
    }
}

// A place taken for the part's story, with no part.
fn take(x: Part) -> Tale
    ensures { result ≡ taken_for x }
{
    let number = x.number;
    Tale {
        held: true,
        number,
        total: x.total,
        lengths: [0; 9],
        bytes: [0; 1341],
    }
}

// Whether the place is held for the story that x is a part of.
#[tactic(auto, unfolding(crate::specs::Tales::is_story))]
pub(crate) fn is_story(p: Tale, x: Part) -> bool
    ensures { result ≡ is_story x p }
{
    p.held && p.number == x.number && p.total == x.total
}

// Whether a held place has a total of 1 to 9, and no body longer than a packet's can be.
#[tactic(auto, unfolding(crate::specs::Tales::fair))]
pub(crate) fn is_fair(p: Tale) -> bool
    ensures { result ≡ fair p }
{
    !p.held || ((1..=9).contains(&p.total) && short_bodies(&p.lengths))
}

// No body is longer than 153 bytes.
fn short_bodies(lengths: &[u8]) -> bool
    ensures { result ≡ all_short lengths.now }
{
    lengths.iter().all(|n| *n <= 153)
}

// The length of the text of the part with k before it.
fn size_at(p: Tale, k: usize) -> usize
    requires { k < 9 }
    ensures { result ≡ get_or p.lengths k 0 - 4 }
{
    usize::from(p.lengths[k]).saturating_sub(4)
}

// Whether the part that was heard has this text.
#[tactic(auto, unfolding(crate::specs::Tales::text_at))]
fn same_text(p: Tale, k: usize, text: &[u8]) -> bool
    requires { (k < 9) × (all_short p.lengths ≡ true) }
    ensures { result ≡ same (text_at p k) text.now }
{
    let at = 149 * k;
    &p.bytes[at..at + size_at(p, k)] == text
}

// Whether the part was heard before, with this text.
#[tactic(auto, unfolding(crate::specs::Tales::holds_text, crate::specs::Tales::is_heard, crate::specs::Tales::fair))]
pub(crate) fn repeats(p: Tale, k: usize, text: &[u8]) -> bool
    requires { (k < 9) × (fair p ≡ true) }
    ensures { result ≡ (p.held && holds_text p k text.now) }
{
    p.held && p.lengths[k] != 0 && same_text(p, k, text)
}

// The place as it is; taken afresh where it is not held, or the part was heard with another text.
#[tactic(auto, unfolding(crate::specs::Tales::opened, crate::specs::Tales::contradicts, crate::specs::Tales::is_heard, crate::specs::Tales::fair))]
pub(crate) fn open(p: Tale, x: Part, text: &[u8]) -> Tale
    requires { (x.place < 9) × (fair p ≡ true) }
    ensures { result ≡ opened p x text.now }
{
    let k = usize::from(x.place);
    if p.held && (p.lengths[k] == 0 || same_text(p, k, text)) {
        p
    } else {
        take(x)
    }
}

// The place with the part kept.
pub(crate) fn with_text(p: Tale, k: usize, text: &[u8]) -> Tale
    requires { (k < 9) × (length text.now ≤ 149) }
    ensures { result ≡ with_text p k text.now }
{
    let at = 149 * k;
    let mut q = p;
    q.lengths[k] = (4 + text.len()) as u8;
    q.bytes[at..at + text.len()].copy_from_slice(text);
    q
}

// Whether every part was heard.
pub(crate) fn is_whole(p: Tale) -> bool
    requires { p.total ≤ 9 }
    ensures { result ≡ is_whole p }
{
    p.lengths[..p.total as usize].iter().all(|n| *n != 0)
}

// Puts the text of a part to byte `to` of the output, and says where the next one goes.
fn put_text(p: Tale, k: usize, out: &mut [u8], to: usize) -> usize
    requires { (k < 9) × (all_short p.lengths ≡ true) × (to + 149 ≤ length out.old) }
    ensures place { result ≡ to + length (text_at p k) }
    ensures output { out.new ≡ sets out.old to (text_at p k) }
{
    let n = size_at(p, k);
    let at = 149 * k;
    out[to..to + n].copy_from_slice(&p.bytes[at..at + n]);
    to + n
}

// Puts the texts of all parts one behind the other, and says how many bytes they are.
pub(crate) fn put_texts(p: Tale, out: &mut [u8]) -> usize
    requires { Steady p × (1341 ≤ length out.old) }
    ensures size { result ≡ length (whole_text p) }
    ensures output { out.new ≡ sets out.old 0 (whole_text p) }
{
    let mut to = 0;
    for k in 0..usize::from(p.total) {
        to = put_text(p, k, out, to);
    }
    to
}
