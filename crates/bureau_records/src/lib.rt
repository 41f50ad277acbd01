// The records of a batch, part by part as they are read: each goes into the digest and, with the line end that is asked for, into the file.
// A record may be of any length, since it is taken in pieces.

#![tactic(auto)]

ghost use Rattle.std.specs.Prelude.{◌≡◌, false, ◌==◌, IfOk};
ghost use Rattle.ground.specs.Choice.{pick};
ghost use Rattle.ground.specs.Lists.{member};
ghost use Rattle.des.specs.Des.{cipher_by, schedule_of};
ghost use Rattle.des.specs.Tables.{boxes};
ghost use Rattle.des.specs.Joined.{joined_by};
ghost use Rattle.digest.specs.Running.{begun, alike, took_bytes, ended};
ghost use Rattle.digest.specs.declared.Method.{Method};
ghost use Rattle.bureau_records.specs.Pieces.{freed, heard_byte, heard_bytes};
ghost use Rattle.bureau_records.specs.Sofar.{heard_of};

// Why a record can't be sent.
#[derive(Clone, Copy, Debug, PartialEq, Eq)]
pub enum Fault {
    LikeMessage,
    EndsInCr,
    NoRoom,
}

// What is the matter with the record of that line.
#[derive(Clone, Copy, Debug, PartialEq, Eq)]
pub struct Bad {
    pub line: u64,
    pub fault: Fault,
}

// A record on its way: the digest; how many of its first five characters there are, and which; whether a CR was held back, since it may be
// of a line end; whether the last character is a CR. Then the number of its line, and the characters put into the room.
#[derive(Clone, Copy)]
pub struct Lines {
    pub running: digest::Running,
    pub first: [u8; 5],
    pub known: usize,
    pub held: bool,
    pub ends: bool,
    pub line: u64,
    pub filled: usize,
}

// How the records are sent.
#[derive(Clone, Copy)]
pub struct Way {
    pub method: digest::Method,
    pub crlf: bool,
    pub keys: [u64; 16],
}

pub fn begin() -> Lines
    ensures { heard_of result ≡ record { running = alike begun; waits = false } }
{
    Lines {
        running: digest::at_record(digest::start()),
        first: [0; 5],
        known: 0,
        held: false,
        ends: false,
        line: 1,
        filled: 0,
    }
}

// How a batch of that one-time key and method is sent.
pub fn way_of(once: u64, method: digest::Method, crlf: bool) -> Way
    ensures { (result.method ≡ method) × (result.crlf ≡ crlf) × (result.keys ≡ schedule_of once) }
{
    Way {
        method,
        crlf,
        keys: des::schedule(once),
    }
}

// ---- the room for what goes into the file

// Puts characters into the room; one more than the room has where they don't fit.
fn put(room: &mut [u8], at: usize, s: &[u8]) -> usize {
    let n = room.len();
    if n < at {
        return at;
    }
    if n - at < s.len() {
        return n.wrapping_add(1);
    }
    text::copy(&mut room[at..], s);
    at + s.len()
}

// ---- a piece of a record

// Characters of a record more.
fn took(table: &[u32; 512], keys: [u64; 16], l: Lines, room: &mut [u8], piece: &[u8]) -> Lines
    ensures { (result.running ≡ took_bytes (joined_by table.now keys) l.running piece.now) × (result.held ≡ l.held) }
{
    let mut first = l.first;
    let known = l.known.min(5);
    text::copy(&mut first[known..], piece);
    Lines {
        running: digest::run(table, keys, l.running, piece),
        first,
        known: known + piece.len().min(5 - known),
        ends: match piece {
            [.., last] => *last == b'\r',
            [] => l.ends,
        },
        filled: put(room, l.filled, piece),
        ..l
    }
}

fn holding(l: Lines, held: bool) -> Lines
    ensures { heard_of result ≡ record { running = l.running; waits = held } }
{
    Lines { held, ..l }
}

// With a CR that was held back: it is a character of the record after all.
fn freed(table: &[u32; 512], keys: [u64; 16], l: Lines, room: &mut [u8]) -> Lines
    ensures { result.running ≡ freed (joined_by table.now keys) (heard_of l) }
{
    if l.held {
        took(table, keys, l, room, b"\r")
    } else {
        l
    }
}

// A piece of a record, without LF; a CR at its end is held back.
fn pieced(table: &[u32; 512], keys: [u64; 16], l: Lines, room: &mut [u8], piece: &[u8]) -> Lines
    requires { member 10 piece.now ≡ false }
    ensures { (m : Method) → heard_of result ≡ heard_bytes (joined_by table.now keys) m (heard_of l) piece.now }
{
    if piece.is_empty() {
        return l;
    }
    let now = freed(table, keys, l, room);
    let solid = cli_words::without_cr(piece);
    let held = solid.len() < piece.len();
    holding(took(table, keys, now, room, solid), held)
}

// ---- a record's end

fn is_like_message(l: &Lines) -> bool {
    5 <= l.known && matches!(&l.first, b">>ESI" | b">>SUO" | b">>VAR")
}

fn fault_of(l: &Lines) -> Option<Fault> {
    if is_like_message(l) {
        Some(Fault::LikeMessage)
    } else if l.ends {
        Some(Fault::EndsInCr)
    } else {
        None
    }
}

fn put_end(room: &mut [u8], at: usize, crlf: bool) -> usize {
    if crlf {
        put(room, at, b"\r\n")
    } else {
        put(room, at, b"\n")
    }
}

// A record's end: the CR that was held back is of the line end.
fn ended(m: digest::Method, crlf: bool, l: Lines, room: &mut [u8]) -> Result<Lines, Bad>
    ensures { IfOk result (λ x. heard_of x ≡ record { running = ended m l.running; waits = false }) }
{
    if let Some(fault) = fault_of(&l) {
        return Err(Bad {
            line: l.line,
            fault,
        });
    }
    Ok(Lines {
        running: digest::end_record(m, l.running),
        line: l.line.wrapping_add(1),
        filled: put_end(room, l.filled, crlf),
        ..begin()
    })
}

// ---- a part of the file of records

// The rest of a record, and its end.
fn lined(table: &[u32; 512], w: Way, l: Lines, room: &mut [u8], piece: &[u8]) -> Result<Lines, Bad>
    requires { member 10 piece.now ≡ false }
    ensures { IfOk result (λ x. let e = joined_by table.now w.keys in
        heard_of x ≡ heard_byte e w.method (heard_bytes e w.method (heard_of l) piece.now) 10) }
{
    let now = pieced(table, w.keys, l, room, piece);
    ended(w.method, w.crlf, now, room)
}

// One part more: its characters into the digest, and into the room, which is empty before it.
pub fn next(w: Way, l: Lines, part: &[u8], room: &mut [u8]) -> Result<Lines, Bad>
    ensures { IfOk result (λ x. heard_of x ≡ heard_bytes (cipher_by boxes w.keys) w.method (heard_of l) part.now) }
{
    let table = des::joined_table();
    let mut now = emptied(l);
    let mut left = part;
    while !left.is_empty() {
        let (piece, more) = cli_words::first_part(left, b'\n');
        let Some(more) = more else {
            return Ok(pieced(&table, w.keys, now, room, piece));
        };
        now = lined(&table, w, now, room, piece)?;
        left = more;
    }
    Ok(now)
}

fn emptied(l: Lines) -> Lines
    ensures { (heard_of result ≡ heard_of l) × (result.known ≡ l.known) }
{
    Lines { filled: 0, ..l }
}

// The end of the file: a last record may have no line end, but then no CR either.
pub fn finish(w: Way, l: Lines, room: &mut [u8]) -> Result<Lines, Bad>
    ensures { IfOk result (λ x. heard_of x
        ≡ record { running = pick (l.known == 0) l.running (ended w.method l.running); waits = false }) }
{
    let now = emptied(l);
    if now.held {
        return Err(Bad {
            line: now.line,
            fault: Fault::EndsInCr,
        });
    }
    if now.known == 0 {
        return Ok(now);
    }
    ended(w.method, w.crlf, now, room)
}

// The digest of all the records.
pub fn state_of(l: Lines) -> digest::State
    ensures { result ≡ l.running.last }
{
    l.running.last
}
