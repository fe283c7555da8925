// A pier board: it hears frames in any order, with repeats, and shows each text once every frame of every part of it came.
#![tactic(auto)]

ghost use Rattle.std.specs.Prelude.{◌≡◌, cond, length, eqb};
ghost use Rattle.collector.specs.Layout.{left_by, offer_told, offer_gives};
ghost use Rattle.stories.specs.Stories.{taken_output};
ghost use Rattle.board.specs.Board.{quiet_board, room_made, offered_at, packet_of, refused_for_this, unheard as unheard_with, whole_heard, heard_of, heard_output};

use collector::{Holdings, Kept, Offered};
use refusal::Refusal;
use stories::Stories;

// What a board keeps: the packets being collected, and the stories that it waits for.
#[derive(Clone, Copy)]
pub struct Board {
    pub collector: Holdings,
    pub stories: Stories,
}

// What hearing a frame gives back: its answer; beside 1 the text's length, level, parts and message number; the board then.
#[derive(Clone, Copy)]
pub struct Heard {
    pub answer: u8,
    pub length: usize,
    pub level: u8,
    pub parts: u8,
    pub number: [u8; 35],
    pub board: Board,
}

// A board that has heard nothing.
pub fn quiet() -> Board
    ensures { result ≡ quiet_board }
{
    Board {
        collector: collector::empty(),
        stories: stories::none(),
    }
}

// An answer with nothing shown.
fn unheard(answer: u8, collector: Holdings, stories: Stories) -> Heard
    ensures { result ≡ unheard_with answer (record { collector = collector; stories = stories }) }
{
    Heard {
        answer,
        length: 0,
        level: 0,
        parts: 0,
        number: [0; 35],
        board: Board { collector, stories },
    }
}

// The level, beside 1.
fn level_with(answer: u8, level: u8) -> u8
    ensures { result ≡ cond (eqb answer 1) level 0 }
{
    if answer == 1 { level } else { 0 }
}

// The frame made its pair's packet whole: it is copied, the pair released, and the packet taken into the stories.
fn take_whole(board: Board, frame: &[u8], offered: Offered, out: &mut [u8]) -> Heard
    requires { (left_by offered ≡ offered_at board.collector frame.now) × ((left_by offered).answer ≡ 1) }
    ensures answer { result ≡ whole_heard board frame.now (length out.old) }
    ensures output { out.new ≡ taken_output board.stories (packet_of board frame.now) out.old }
{
    let h = frame::heading_of(frame).unwrap();
    let c = offered.collector;
    let mut packet = [0u8; 250];
    let n = collector::copy(c, h.level, h.version, &mut packet).unwrap_or(0);
    let d = collector::release(c, h.level, h.version).unwrap_or(c);
    let s = board.stories;
    let shown = stories::take_in(s, octets::part(&packet, 0, n), out);
    let number = shown.number;
    Heard {
        answer: shown.answer,
        length: shown.length,
        level: level_with(shown.answer, h.level),
        parts: shown.parts,
        number,
        board: Board {
            collector: d,
            stories: shown.stories,
        },
    }
}

// The collector with its first place free, and behind the others.
fn make_room(c: Holdings) -> Holdings
    ensures { result ≡ room_made c }
{
    let mut d = c;
    d.places[0].held = false;
    d.places.rotate_left(1);
    d
}

// Whether the offer was refused, and for this.
fn is_refused(offered: Result<Offered, Refusal>, why: Refusal) -> bool
    ensures { result ≡ refused_for_this offered why }
{
    match offered {
        Ok(_) => false,
        Err(refusal) => refusal == why,
    }
}

// A collector that a frame was offered to, and what came of it.
#[derive(Clone, Copy)]
struct Trial {
    collector: Holdings,
    offered: Result<Offered, Refusal>,
}

// The offer as it was; where other pairs hold every place one gives way, and the frame is offered again.
fn offer_with_room(c: Holdings, frame: &[u8], first: Result<Offered, Refusal>) -> Trial
    requires { offer_told c first ≡ offer_gives c frame.now }
    ensures { offer_told result.collector result.offered ≡ offered_at c frame.now }
{
    if is_refused(first, Refusal::Place) {
        let room = make_room(c);
        return Trial {
            collector: room,
            offered: collector::offer(room, frame),
        };
    }
    Trial {
        collector: c,
        offered: first,
    }
}

// Hears a frame: 28 or 10; the collector's answer where no packet is whole with it; else 6, 5 or 4, or 1 and a text from the output's first byte on.
pub fn hear(board: Board, frame: &[u8], out: &mut [u8]) -> Heard
    ensures answer { result ≡ heard_of board frame.now (length out.old) }
    ensures output { out.new ≡ heard_output board frame.now out.old }
{
    let c = board.collector;
    let s = board.stories;
    if !stories::is_good(s) {
        return unheard(28, c, s);
    }
    let first = collector::offer(c, frame);
    if is_refused(first, Refusal::State) {
        return unheard(28, c, s);
    }
    if out.len() < 1341 {
        return unheard(10, c, s);
    }
    let trial = offer_with_room(c, frame, first);
    match trial.offered {
        Ok(o) => {
            if o.kept == Kept::Whole {
                return take_whole(board, frame, o, out);
            }
            unheard(o.kept.number(), o.collector, s)
        }
        Err(refusal) => unheard(refusal.number(), trial.collector, s),
    }
}
