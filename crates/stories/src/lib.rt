// The stories that a pier board waits for: parts in any order, with repeats, become texts; each text is shown once.
#![tactic(auto)]

mod parts;
mod tales;

ghost use Rattle.std.specs.Prelude.{◌≡◌, ◌<◌, length, MatchOption};
ghost use Rattle.laws.specs.Scan.{all};
ghost use Rattle.stories.specs.Tales.{fair};
ghost use Rattle.stories.specs.Stories.{no_stories, index_of_story, leaves, moved_last, taken_in, taken_output};
ghost use Rattle.stories.specs.Steps.{found_for, Keepable, unshown_with, shown_with, kept_shown, kept_output};

// What a packet is a part of: the number of its story's part 1, the total, and how many parts are before it.
#[derive(Clone, Copy)]
pub struct Part {
    pub belongs: bool,
    pub number: [u8; 35],
    pub total: u8,
    pub place: u8,
}

// The parts of one story: the length of each body, 0 where the part was not heard, and 149 bytes of text for each.
#[derive(Clone, Copy)]
pub struct Tale {
    pub held: bool,
    pub number: [u8; 35],
    pub total: u8,
    pub lengths: [u8; 9],
    pub bytes: [u8; 1341],
}

// The stories, the one that has waited longest for a part first.
#[derive(Clone, Copy)]
pub struct Stories {
    pub tales: [Tale; 4],
}

// What taking a packet in gives back: its answer; beside 1 the text's length, parts and message number; the stories then.
#[derive(Clone, Copy)]
pub struct Shown {
    pub answer: u8,
    pub length: usize,
    pub parts: u8,
    pub number: [u8; 35],
    pub stories: Stories,
}

// No story is waited for.
pub fn none() -> Stories
    ensures { result ≡ no_stories }
{
    Stories {
        tales: [tales::untold(); 4],
    }
}

// Whether the record is one that taking packets in can leave.
pub fn is_good(stories: Stories) -> bool
    ensures { result ≡ all fair stories.tales }
{
    stories.tales.iter().all(|p| tales::is_fair(*p))
}

// Where the story is held, if it is.
fn index_of(s: Stories, x: Part) -> Option<usize>
    ensures { let at = index_of_story x s.tales in MatchOption result (at ≡ 4) (λ i. (i ≡ at) × (i < 4)) }
{
    s.tales.iter().position(|p| tales::is_story(*p, x))
}

// The stories with the one at `j` gone and `q` behind the others.
fn move_last(s: Stories, j: usize, q: Tale) -> Stories
    requires { j < 4 }
    ensures { result ≡ record { tales = moved_last s.tales j q } }
{
    let mut d = s;
    d.tales[j..].rotate_left(1);
    d.tales[3] = q;
    d
}

// An answer with nothing shown.
fn unshown(answer: u8, s: Stories) -> Shown
    ensures { result ≡ unshown_with answer s }
{
    Shown {
        answer,
        length: 0,
        parts: 0,
        number: [0; 35],
        stories: s,
    }
}

// A text of n bytes is shown.
fn show(x: Part, n: usize, s: Stories) -> Shown
    ensures { result ≡ shown_with x n s }
{
    let number = x.number;
    Shown {
        answer: 1,
        length: n,
        parts: x.total,
        number,
        stories: s,
    }
}

// The place that the part's story is held in, and it; else the first place, and one that is not held.
fn find(s: Stories, x: Part) -> (usize, Tale)
    ensures { (result.0 ≡ leaves s.tales x) × (result.1 ≡ found_for x s.tales) }
{
    match index_of(s, x) {
        Some(i) => (i, s.tales[i]),
        None => (0, tales::untold()),
    }
}

// Takes in a part of a story: 5, 4, or 1 with its text in the output.
fn keep(s: Stories, x: Part, text: &[u8], out: &mut [u8]) -> Shown
    requires { Keepable s.tales x text.now (length out.old) }
    ensures answer { result ≡ kept_shown s x text.now }
    ensures output { out.new ≡ kept_output s x text.now out.old }
{
    let (at, p) = find(s, x);
    let k = x.place as usize;
    if tales::repeats(p, k, text) {
        return unshown(5, s);
    }
    let q = tales::with_text(tales::open(p, x, text), k, text);
    let d = move_last(s, at, q);
    if !tales::is_whole(q) {
        return unshown(4, d);
    }
    let n = tales::put_texts(q, out);
    show(x, n, d)
}

// Takes a whole packet in: 28, 10, 6, 5 or 4 where nothing is shown; 1, and the text from the output's first byte on.
pub fn take_in(stories: Stories, packet: &[u8], out: &mut [u8]) -> Shown
    ensures answer { result ≡ taken_in stories packet.now (length out.old) }
    ensures output { out.new ≡ taken_output stories packet.now out.old }
{
    if !is_good(stories) {
        return unshown(28, stories);
    }
    if out.len() < 1341 {
        return unshown(10, stories);
    }
    if !join::is_part(packet) {
        return unshown(6, stories);
    }
    let x = parts::part_of(packet);
    let body = reader::body(packet);
    if !x.belongs {
        let n = body.len();
        out[0..n].copy_from_slice(body);
        return show(x, n, stories);
    }
    keep(stories, x, &body[4..], out)
}
