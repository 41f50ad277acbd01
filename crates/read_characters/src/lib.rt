// Characters of the record on its way.

#![tactic(auto)]

ghost use Rattle.std.specs.Prelude.{◌≡◌, ◌+◌, ◌≤◌, min, eqb, ltb, length};
ghost use Rattle.ground.specs.Choice.{both, either};
ghost use Rattle.des.specs.Joined.{joined_by};
ghost use Rattle.whole_file.specs.Messages.{most_length};
ghost use Rattle.session.specs.Lines.{line_after};
ghost use Rattle.session.specs.Events.{gathered_all, batch_with, heard_by};

// One more past the room: counted up to the longest message's.
fn counted(count: usize) -> usize
    ensures { result ≡ min (count + 1) most_length }
{
    count.saturating_add(1).min(500)
}

// Whether all that must be blank is, with one more at the place `count`.
#[tactic(auto, unfolding(ground::specs::Choice::both, ground::specs::Choice::either))]
fn still_blank(blank: bool, count: usize, wanted: usize, b: u8) -> bool
    ensures { result ≡ both «blank» (either (ltb count wanted) (eqb b 0x20)) }
{
    blank && (count < wanted || b == b' ')
}

// More characters past the room: only whether those past the stated length are blank is kept of them.
fn pass_over(g: session::Gathered, bytes: &[u8]) -> session::Gathered
    requires { 161 ≤ g.count }
    ensures { result ≡ gathered_all g bytes.now }
{
    let wanted = session::wanted_length(g.text, 161);
    let mut count = g.count;
    let mut blank = g.blank;
    for &b in bytes {
        blank = still_blank(blank, count, wanted, b);
        count = counted(count);
    }
    session::Gathered { count, blank, ..g }
}

// More characters as far as there is room for them.
fn keep(g: session::Gathered, bytes: &[u8]) -> session::Gathered
    requires { g.count + length bytes.now ≤ 161 }
    ensures { result ≡ gathered_all g bytes.now }
{
    let count = g.count + bytes.len();
    let mut text = g.text;
    text[g.count..count].copy_from_slice(bytes);
    session::Gathered { count, text, ..g }
}

// The record or message on its way with more characters.
pub fn gather(g: session::Gathered, bytes: &[u8]) -> session::Gathered
    ensures { result ≡ gathered_all g bytes.now }
{
    if 161 <= g.count {
        return pass_over(g, bytes);
    }
    let room = 161 - g.count;
    if bytes.len() <= room {
        return keep(g, bytes);
    }
    pass_over(keep(g, &bytes[..room]), &bytes[room..])
}

// In data the characters go into the digest too.
#[tactic(auto, unfolding(session::specs::Events::batch_with, ground::specs::Choice::pick))]
fn batch_with(
    table: &[u32; 512],
    keys: [u64; 16],
    p: session::Place,
    b: session::Batch,
    bytes: &[u8],
) -> session::Batch
    ensures { result ≡ batch_with (joined_by table.now keys) p b bytes.now }
{
    if !session::is_data(p) {
        return b;
    }
    session::Batch {
        running: digest::run(table, keys, b.running, bytes),
        ..b
    }
}

// The session with more characters of the record on its way; `keys` are the round keys of the one-time key.
#[tactic(auto, unfolding(session::specs::Events::heard_by))]
pub fn hear(
    table: &[u32; 512],
    keys: [u64; 16],
    s: session::Session,
    bytes: &[u8],
) -> session::Session
    ensures { result ≡ heard_by (joined_by table.now keys) s bytes.now }
{
    session::Session {
        gathered: gather(s.gathered, bytes),
        batch: batch_with(table, keys, s.place, s.batch, bytes),
        ..s
    }
}

// The bytes' side after one byte more.
#[tactic(auto, unfolding(session::specs::Lines::line_after, ground::specs::Choice::pick))]
pub fn line_after(l: session::Line, b: u8) -> session::Line
    ensures { result ≡ line_after l b }
{
    match l.size.checked_add(1) {
        Some(size) => session::Line {
            size,
            cr: b == b'\r',
        },
        None => l,
    }
}
