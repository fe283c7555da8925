// The packet of GY/T 390-2023, clause 6.1: what its fields are called, and its table of contents.
#![tactic(auto)]

ghost use Rattle.std.specs.Prelude.{◌≡◌, [], ◌∷◌, ◌%◌, get_or};
ghost use Rattle.packet.specs.Table.{kind_of, type_of};
ghost use Rattle.packet.specs.InCode.{laid_of, named_by};
ghost use Rattle.packet.specs.Content.{no_such_day};
ghost use Rattle.packet.specs.declared.Kind.TheVariants as kind;

// The kinds of content (000, tables 3 to 6, 13 to 16 and 18); Raw is carried unopened, Unknown refused.
#[derive(Clone, Copy)]
pub enum Kind {
    Frequencies,
    Address,
    Keep,
    Clock,
    Reset,
    Factory,
    Drill,
    Text,
    Hold,
    Raw,
    Unknown,
}

// Lines alone; lines, a count, a row as often as it says, lines; bytes, as many as there are; nothing known.
#[derive(Clone, Copy)]
pub enum Counting {
    Fixed,
    Counted,
    Raw,
    Unknown,
}

// Lines that stand one behind the other in the table: where, how many, their bits, and their own numbers.
#[derive(Clone, Copy)]
pub struct Lines {
    pub from: usize,
    pub m: usize,
    pub bits: usize,
    pub numbers: usize,
}

// A row of the table of contents: lines, of which the first own ones hold the content's own numbers, a row that is repeated, lines.
#[derive(Clone, Copy)]
pub struct RowLines {
    pub counting: Counting,
    pub own: usize,
    pub before: Lines,
    pub each: Lines,
    pub after: Lines,
}

// Of a kind: the bits before what is repeated, the count among them, those of a row and those behind; and their own numbers.
#[derive(Clone, Copy)]
pub struct Sizes {
    pub lead: usize,
    pub each: usize,
    pub rest: usize,
    pub first: usize,
    pub row: usize,
    pub last: usize,
}

// A typed content. Its digits stand beside it, in Fields, and its bytes or entries in what is lent.
#[derive(Clone, Copy)]
pub enum Content {
    Raw,
    Frequencies {
        count: usize,
    },
    Address {
        length: usize,
    },
    Keep {
        on: u8,
        period: u16,
    },
    Clock {
        year: u16,
        month: u8,
        day: u8,
        hour: u8,
        minute: u8,
        second: u8,
    },
    Reset {
        change: u8,
    },
    Factory,
    Drill {
        action: u8,
    },
    Text {
        kind: u8,
        set: u8,
        length: usize,
    },
    Hold {
        serial: u8,
    },
}

// A content as plain numbers: its kind, how many numbers it has of its own, these and then zeros, and its count.
#[derive(Clone, Copy)]
pub struct Laid {
    pub kind: Kind,
    pub n: usize,
    pub numbers: [u32; 6],
    pub count: usize,
}

// The fields that every packet has, the opened content among them; codes is the count n.
#[derive(Clone, Copy)]
pub struct Fields {
    pub typenumber: u8,
    pub codes: usize,
    pub content: Content,
    pub digits: [u8; 35],
    pub time: u32,
    pub certificate: [u8; 12],
    pub signature: [u8; 64],
}

// What a packet says: 23 digits a code, and for frequencies eight numbers an entry; 0 past the last.
#[derive(Clone, Copy)]
pub struct Opened {
    pub fields: Fields,
    pub codes: [u8; 322],
    pub entries: [u8; 272],
}

// The kind of a type (000, table 2).
#[tactic(auto, unfolding(crate::specs::Table::kind_of))]
pub fn kind_of(t: u8) -> Kind
    ensures { result ≡ kind_of t }
{
    match t {
        0 => Kind::Frequencies,
        1 => Kind::Address,
        2 => Kind::Keep,
        3 => Kind::Clock,
        12 => Kind::Reset,
        13 => Kind::Factory,
        14 => Kind::Drill,
        15 => Kind::Text,
        21 => Kind::Hold,
        4..=8 | 11 | 16 | 22..=24 => Kind::Raw,
        _ => Kind::Unknown,
    }
}

// A type of the kind, by which kinds are compared.
pub fn type_of(f: Kind) -> u8
    ensures { result ≡ type_of f }
{
    match f {
        Kind::Frequencies => 0,
        Kind::Address => 1,
        Kind::Keep => 2,
        Kind::Clock => 3,
        Kind::Reset => 12,
        Kind::Factory => 13,
        Kind::Drill => 14,
        Kind::Text => 15,
        Kind::Hold => 21,
        Kind::Raw => 4,
        Kind::Unknown => 31,
    }
}

// A clock that names a day which its month doesn't have.
pub fn no_such_day(c: Content) -> bool
    ensures { result ≡ no_such_day c }
{
    match c {
        Content::Clock {
            year,
            month,
            day,
            ..
        } => days::days_in(year, month) < day,
        _ => false,
    }
}

// From a content to its numbers: an arm a type.
#[tactic(auto, unfolding(crate::specs::Reading::zeros))]
pub fn lay(c: Content) -> Laid
    ensures { result ≡ laid_of c }
{
    let (kind, n, numbers, count) = match c {
        Content::Raw => (Kind::Raw, 0, [0; 6], 0),
        Content::Frequencies { count } => (Kind::Frequencies, 0, [0; 6], count),
        Content::Address { length } => (Kind::Address, 0, [0; 6], length),
        Content::Keep { on, period } => {
            let numbers = [u32::from(on), u32::from(period), 0, 0, 0, 0];
            (Kind::Keep, 2, numbers, 0)
        }
        Content::Clock {
            year,
            month,
            day,
            hour,
            minute,
            second,
        } => {
            let numbers = [
                u32::from(year),
                u32::from(month),
                u32::from(day),
                u32::from(hour),
                u32::from(minute),
                u32::from(second),
            ];
            (Kind::Clock, 6, numbers, 0)
        }
        Content::Reset { change } => (Kind::Reset, 1, [u32::from(change), 0, 0, 0, 0, 0], 0),
        Content::Factory => (Kind::Factory, 0, [0; 6], 0),
        Content::Drill { action } => (Kind::Drill, 1, [u32::from(action), 0, 0, 0, 0, 0], 0),
        Content::Text { kind, set, length } => {
            let numbers = [u32::from(kind), u32::from(set), 0, 0, 0, 0];
            (Kind::Text, 2, numbers, length)
        }
        Content::Hold { serial } => (Kind::Hold, 1, [u32::from(serial), 0, 0, 0, 0, 0], 0),
    };
    Laid {
        kind,
        n,
        numbers,
        count,
    }
}

// The two low bytes of the number at i, 0 past the last; and the low one of them.
fn word_at(xs: &[u32], i: usize) -> u16
    ensures { result ≡ get_or xs.now i 0 % 65536 }
{
    (xs.get(i).copied().unwrap_or(0) % 65536) as u16
}

fn byte_at(xs: &[u32], i: usize) -> u8
    ensures { result ≡ get_or xs.now i 0 % 256 }
{
    (word_at(xs, i) % 256) as u8
}

#[tactic(auto, using(crate::proofs::Contents::cut_at), unfolding(crate::specs::InCode::widths))]
fn clock(xs: &[u32]) -> Content
    ensures { result ≡ named_by kind.Clock xs.now 0 }
{
    Content::Clock {
        year: word_at(xs, 0),
        month: byte_at(xs, 1),
        day: byte_at(xs, 2),
        hour: byte_at(xs, 3),
        minute: byte_at(xs, 4),
        second: byte_at(xs, 5),
    }
}

// From numbers to a content: an arm a type. A number that is too large for its field keeps its low bytes.
#[tactic(auto, using(crate::proofs::Contents::cut_at), unfolding(crate::specs::InCode::widths))]
pub fn named(f: Kind, numbers: &[u32], count: usize) -> Content
    ensures { result ≡ named_by f numbers.now count }
{
    match f {
        Kind::Frequencies => Content::Frequencies { count },
        Kind::Address => Content::Address { length: count },
        Kind::Keep => Content::Keep {
            on: byte_at(numbers, 0),
            period: word_at(numbers, 1),
        },
        Kind::Clock => clock(numbers),
        Kind::Reset => Content::Reset {
            change: byte_at(numbers, 0),
        },
        Kind::Factory => Content::Factory,
        Kind::Drill => Content::Drill {
            action: byte_at(numbers, 0),
        },
        Kind::Text => Content::Text {
            kind: byte_at(numbers, 0),
            set: byte_at(numbers, 1),
            length: count,
        },
        Kind::Hold => Content::Hold {
            serial: byte_at(numbers, 0),
        },
        Kind::Raw | Kind::Unknown => Content::Raw,
    }
}
