// Replies in words, for people: a line for each while a file is received, where its messages are at hand, and a file of replies.
#![tactic(auto)]

mod facts;
mod fields;
mod file;
mod generations;
mod heard;
mod parts;

use crate::fields::Field;
use crate::heard::Heard;
use crate::parts::{Reply, Whom};
use cli_texts::sheet::Sheet;
use cli_texts::{Line, add_advice, add_text};
use session::Session;
use std::io;
use std::io::{Read, Write};

// How many were accepted and refused, and how many batches were answered.
#[derive(Clone, Copy)]
pub struct Count {
    pub accepted: u64,
    pub refused: u64,
    pub batches: u64,
}

// Where a reply was settled, and the lines where the SUO and the VAR on their way begin.
#[derive(Clone, Copy)]
pub struct Settled {
    pub line: u64,
    pub byte: u64,
    pub suo: u64,
    pub var: u64,
}

// Why a file of replies was not told whole: it has what is no reply, or is cut short; a read or a write failed.
#[derive(Drop)]
pub enum Untold {
    NotReplies,
    Unread(io::Error),
    Unwritten(io::Error),
}

// The same, and how many were told before.
#[derive(Drop)]
pub struct Unfinished {
    pub why: Untold,
    pub count: Count,
}

// An error on the way is one of reading; what is written is told by itself.
impl From<io::Error> for Untold {
    fn from(e: io::Error) -> Untold {
        Untold::Unread(e)
    }
}

// ---- the count

impl Count {
    pub fn none() -> Count {
        Count {
            accepted: 0,
            refused: 0,
            batches: 0,
        }
    }

    // With one reply more.
    pub fn with(self, reply: &[u8]) -> Count {
        if reply.len() < 237 {
            return self;
        }
        self.with_reply(&Reply::of(reply))
    }

    fn with_reply(self, r: &Reply) -> Count {
        Count {
            accepted: self.accepted.wrapping_add(r.is_accepted() as u64),
            refused: self.refused.wrapping_add(!r.is_accepted() as u64),
            batches: self.batches.wrapping_add(r.is_of_batch() as u64),
        }
    }
}

// At the end: how many were accepted and refused.
pub fn tell_count<W: Write>(out: &mut W, c: Count) -> io::Result<()> {
    let mut s = Sheet::blank();
    s.number(b'a', c.accepted);
    s.number(b'e', c.refused);
    let mut l = Line::blank();
    add_text(&mut l, &s, cli_texts::COUNT);
    cli_texts::write(out, &l)
}

// ---- a reply and its messages

// Identity, qualifier and stamp as far as they came and can be shown.
fn add_whom(l: &mut Line, s: &Sheet, whom: &Whom, key: u64) {
    if whom.is_named() {
        add_text(l, s, key);
        if whom.is_stamped() {
            add_text(l, s, cli_texts::STAMP);
        }
    }
}

// Whether a reply's code leaves open whether its message is well formed: then the fields may stand elsewhere.
fn is_formless(r: &Reply) -> bool {
    matches!(
        r.key(),
        1010 | 1011 | 1023 | 1024 | 1032 | cli_texts::TOO_LARGE
    )
}

// Whom a full reply names; for a bare one whom the message does, or, where that may not be well formed, the file's ESI.
fn whom_of(r: &Reply, m: &[u8; 161], sender: &[u8; 25]) -> Whom {
    if !r.is_bare() {
        return r.whom();
    }
    if is_formless(r) {
        return Whom::of(sender, b"");
    }
    Whom::of(&m[60..85], &m[87..102])
}

fn add_customer(l: &mut Line, s: &Sheet, r: &Reply, whom: &Whom) {
    if r.is_bare() && is_formless(r) {
        if !r.is_esi() {
            add_text(l, s, cli_texts::SENDER);
        }
    } else if r.is_bare() && r.code() == 1033 {
        add_whom(l, s, whom, cli_texts::IDENTITY);
    } else {
        add_whom(l, s, whom, cli_texts::CUSTOMER);
    }
}

fn put_told(s: &mut Sheet, h: &Heard, r: &Reply, at: Settled, field: Option<Field>) {
    s.number(b'l', at.line);
    s.number(b'b', at.byte);
    s.number(b'I', at.suo);
    s.number(b'J', h.line);
    s.number(b'K', at.var);
    s.part(b't', &h.answered[85..86]);
    s.part(b'w', &h.answered[86..87]);
    fields::put_heard(s, h, r, field);
}

fn sender_of(m: &[u8; 161]) -> [u8; 25] {
    let mut out = [0u8; 25];
    text::copy(&mut out, &m[60..85]);
    out
}

// A batch has the lines from its SUO's first to where it was settled.
fn place_key(r: &Reply, at: Settled) -> u64 {
    if r.is_of_batch() && at.suo != at.line {
        return cli_texts::LINES;
    }
    cli_texts::PLACE
}

fn told_line(
    t: &[u8],
    after: &[u8],
    before: &Session,
    r: &Reply,
    batches: u64,
    at: Settled,
) -> Line {
    let h = heard::heard_of(before, r.is_esi(), at);
    let who = sender_of(&h.answered);
    let whom = whom_of(r, &h.answered, &before.sender);
    let field = fields::named_in(r);
    let f = facts::of(t, after, who);
    let mut s = r.sheet(batches, &whom);
    put_told(&mut s, &h, r, at, field);
    f.put(&mut s, &h.answered, before.opening.kind);
    let mut l = Line::blank();
    add_text(&mut l, &s, cli_texts::BEGINNING);
    add_text(&mut l, &s, r.about());
    add_text(&mut l, &s, place_key(r, at));
    add_text(&mut l, &s, f.key_of(r, fields::key_on(r, field)));
    generations::add_held(&mut l, &mut s, t, who, r.code());
    add_customer(&mut l, &s, r, &whom);
    add_text(&mut l, &s, cli_texts::END);
    l
}

// One reply: the line of the plain listing, then what is known of it. `t` and `after` are the table before and after it, `before` the
// session just before the byte, or the end, that settled it; `c` the count before it.
pub fn tell<W: Write>(
    out: &mut W,
    t: &[u8],
    after: &[u8],
    before: Session,
    reply: &[u8],
    c: Count,
    at: Settled,
) -> io::Result<()> {
    if reply.len() < 237 {
        return Err(io::Error::from(io::ErrorKind::InvalidInput));
    }
    let l = told_line(t, after, &before, &Reply::of(reply), c.batches, at);
    cli_texts::write(out, &l)
}

// ---- a file of replies

// Whom a full reply answers; field 18 is 1 where a key is enclosed.
fn add_answered(l: &mut Line, s: &Sheet, r: &Reply) {
    if !r.is_bare() {
        let is_enclosed = r.text[160] == b'1';
        let key = if is_enclosed {
            cli_texts::ENCLOSED
        } else {
            cli_texts::ANSWERED
        };
        add_text(l, s, key);
    }
}

fn tell_one<W: Write>(out: &mut W, r: &Reply, c: Count) -> io::Result<()> {
    let before = c.accepted.wrapping_add(c.refused);
    let field = fields::named_in(r);
    let mut s = r.sheet(c.batches, &r.whom());
    fields::put_named(&mut s, r, field);
    s.number(b'o', before.wrapping_add(1));
    let mut l = Line::blank();
    add_text(&mut l, &s, cli_texts::NUMBER);
    add_text(&mut l, &s, r.about());
    add_text(&mut l, &s, cli_texts::NOTICE);
    add_answered(&mut l, &s, r);
    add_advice(&mut l, &s, fields::key_on(r, field));
    add_text(&mut l, &s, cli_texts::END);
    cli_texts::write(out, &l)
}

// The next reply of the file, told; at its end how many they were is told, and there is none.
fn told_next<R: Read, W: Write>(
    input: &mut R,
    output: &mut W,
    count: Count,
) -> Result<Option<Reply>, Untold> {
    let Some(r) = file::read_next(input)? else {
        tell_count(output, count).map_err(|e| Untold::Unwritten(e))?;
        return Ok(None);
    };
    tell_one(output, &r, count).map_err(|e| Untold::Unwritten(e))?;
    Ok(Some(r))
}

// The replies of an open file, told to another, and how many they were.
pub fn replies<R: Read, W: Write>(input: &mut R, output: &mut W) -> Result<Count, Unfinished> {
    let mut count = Count::none();
    for _ in 0..u64::MAX {
        match told_next(input, output, count) {
            Ok(Some(r)) => count = count.with_reply(&r),
            Ok(None) => return Ok(count),
            Err(why) => return Err(Unfinished { why, count }),
        }
    }
    Err(Unfinished {
        why: Untold::Unread(io::Error::from(io::ErrorKind::FileTooLarge)),
        count,
    })
}
