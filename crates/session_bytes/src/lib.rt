// A session as bytes that a host keeps between calls. The offsets are those of docs/FORMAT.md.

#![tactic(auto)]

ghost use Rattle.std.specs.Prelude.{◌≡◌, ◌+◌, ◌≤◌, leb, length};
ghost use Rattle.ground.specs.Lists.{part};
ghost use Rattle.splices.specs.Bytes.{num, splice};
ghost use Rattle.codec.specs.Layout.{perhaps, enc, dec, ok, Sized};
ghost use Rattle.session_bytes.specs.Names.{place_number, place_numbered, extent_number, extent_numbered};
ghost use Rattle.session_bytes.specs.Session.{session_size, head_shape, line_shape, front_shape, gathered_shape, suo_shape, once_shape, state_shape};
ghost use Rattle.session_bytes.specs.Session.{running_shape, batch_shape, state_from, state_to, head_to, front_to, gathered_to, suo_to, key_to, running_to};
ghost use Rattle.session_bytes.specs.Session.{batch_to, session_bytes, session_of, is_session, session_in, session_stored};

// The bytes that a session takes.
const SIZE: usize = 472;

// ---- reading, where the bytes have a session's length

fn place_numbered(n: u32) -> session::Place
    ensures { result ≡ place_numbered n }
{
    match n {
        0 => session::Place::BeforeEsi,
        1 => session::Place::Outside,
        2 => session::Place::Collecting(message::Kind::Esi),
        3 => session::Place::Collecting(message::Kind::Suo),
        4 => session::Place::Collecting(message::Kind::Var),
        5 => session::Place::InData,
        _ => session::Place::Closed,
    }
}

fn opening_in(b: &[u8]) -> opening::Opening
    requires { length b.now ≡ session_size }
    ensures { result ≡ (session_of b.now).opening }
{
    opening::Opening {
        today: calendar::Date {
            yymmdd: codec::read4(b, 4),
        },
        time: codec::read4(b, 8),
        kind: codec::read4(b, 12),
        clock: codec::read8(b, 16),
    }
}

fn gathered_in(b: &[u8]) -> session::Gathered
    requires { length b.now ≡ session_size }
    ensures { result ≡ (session_of b.now).gathered }
{
    let mut text = [0u8; 161];
    codec::read_bytes(&mut text, b, 67);
    session::Gathered {
        count: codec::read4(b, 62) as usize,
        blank: codec::read1(b, 66) == 1,
        text,
    }
}

fn extent_numbered(n: u32) -> message::Extent
    ensures { result ≡ extent_numbered n }
{
    match n {
        0 => message::Extent::Whole,
        1 => message::Extent::TooShort,
        2 => message::Extent::LengthNotDigits,
        3 => message::Extent::OtherLength,
        _ => message::Extent::CutShort,
    }
}

fn suo_in(b: &[u8]) -> message::Collected
    requires { length b.now ≡ session_size }
    ensures { result ≡ (session_of b.now).batch.suo }
{
    let mut text = [0u8; 161];
    codec::read_bytes(&mut text, b, 230);
    message::Collected {
        extent: extent_numbered(codec::read1(b, 228)),
        blank: codec::read1(b, 229) == 1,
        text,
    }
}

fn key_in(b: &[u8]) -> Option<u64>
    requires { length b.now ≡ session_size }
    ensures { result ≡ (session_of b.now).batch.once }
{
    (codec::read1(b, 391) == 1).then(|| codec::read8(b, 392))
}

fn state_at(b: &[u8], at: usize) -> digest::State
    requires { at + 24 ≤ length b.now }
    ensures { result ≡ state_from (dec state_shape at b.now) }
{
    digest::State {
        chain: codec::read8(b, at),
        block: codec::read8(b, at + 8),
        n: codec::read8(b, at + 16),
    }
}

fn batch_in(b: &[u8]) -> session::Batch
    requires { length b.now ≡ session_size }
    ensures { result ≡ (session_of b.now).batch }
{
    session::Batch {
        suo: suo_in(b),
        once: key_in(b),
        running: digest::Running {
            start: state_at(b, 400),
            solid: state_at(b, 424),
            last: state_at(b, 448),
        },
    }
}

fn session_in(b: &[u8]) -> session::Session
    requires { length b.now ≡ session_size }
    ensures { result ≡ session_of b.now }
{
    let mut sender = [0u8; 25];
    codec::read_bytes(&mut sender, b, 32);
    session::Session {
        opened: codec::read1(b, 0) == 1,
        ended: codec::read1(b, 1) == 1,
        told: codec::read1(b, 2) == 1,
        opening: opening_in(b),
        made: codec::read8(b, 24),
        sender,
        line: session::Line {
            size: codec::read4(b, 57),
            cr: codec::read1(b, 61) == 1,
        },
        place: place_numbered(codec::read1(b, 3)),
        gathered: gathered_in(b),
        batch: batch_in(b),
    }
}

// ---- exactness

// Whether the 9 bytes of the one-time key are just what it is written as: all zero, unless it is held.
fn is_exact_key(b: &[u8]) -> bool
    requires { length b.now ≡ session_size }
    ensures { result ≡ ok (perhaps once_shape) 391 b.now }
{
    codec::read1(b, 391) == 1 || codec::same_at(&[0; 9], b, 391)
}

// Whether a byte is a flag's: 0 or 1.
fn is_flag(b: &[u8], at: usize) -> bool
    requires { at + 1 ≤ length b.now }
    ensures { result ≡ leb (num (part at 1 b.now)) 1 }
{
    codec::read1(b, at) <= 1
}

// Whether bytes are a session's.
pub fn is_session(b: &[u8]) -> bool
    ensures { result ≡ is_session b.now }
{
    b.len() == SIZE
        && is_flag(b, 0)
        && is_flag(b, 1)
        && is_flag(b, 2)
        && codec::read1(b, 3) <= 6
        && is_flag(b, 61)
        && is_flag(b, 66)
        && codec::read1(b, 228) <= 4
        && is_flag(b, 229)
        && is_exact_key(b)
}

// The session that bytes say; bytes that are none say one that is not open.
pub fn load(b: &[u8]) -> session::Session
    ensures { result ≡ session_in b.now }
{
    if !is_session(b) {
        return session::no_file();
    }
    session_in(b)
}

// ---- writing, where the bytes have a session's length

fn place_number(p: session::Place) -> u32
    ensures { result ≡ place_number p }
{
    match p {
        session::Place::BeforeEsi => 0,
        session::Place::Outside => 1,
        session::Place::Collecting(message::Kind::Esi) => 2,
        session::Place::Collecting(message::Kind::Suo) => 3,
        session::Place::Collecting(message::Kind::Var) => 4,
        session::Place::InData => 5,
        session::Place::Closed => 6,
    }
}

fn extent_number(x: message::Extent) -> u32
    ensures { result ≡ extent_number x }
{
    match x {
        message::Extent::Whole => 0,
        message::Extent::TooShort => 1,
        message::Extent::LengthNotDigits => 2,
        message::Extent::OtherLength => 3,
        message::Extent::CutShort => 4,
    }
}

// The numbers before the sender.
fn store_head(b: &mut [u8], s: session::Session)
    requires { length b.old ≡ session_size }
    ensures { b.new ≡ splice 0 (enc head_shape (head_to s)) b.old }
{
    codec::write1(b, 0, codec::flag_number(s.opened));
    codec::write1(b, 1, codec::flag_number(s.ended));
    codec::write1(b, 2, codec::flag_number(s.told));
    codec::write1(b, 3, place_number(s.place));
    codec::write4(b, 4, s.opening.today.yymmdd);
    codec::write4(b, 8, s.opening.time);
    codec::write4(b, 12, s.opening.kind);
    codec::write8(b, 16, s.opening.clock);
    codec::write8(b, 24, s.made);
}

fn store_line(b: &mut [u8], line: session::Line)
    requires { length b.old ≡ session_size }
    ensures { b.new ≡ splice 57 (enc line_shape (line.size, line.cr)) b.old }
{
    codec::write4(b, 57, line.size);
    codec::write1(b, 61, codec::flag_number(line.cr));
}

// All that stands before the characters on their way.
fn store_front(b: &mut [u8], s: session::Session)
    requires { length b.old ≡ session_size }
    ensures written { b.new ≡ splice 0 (enc front_shape (front_to s)) b.old }
    ensures sizes { Sized front_shape (front_to s) }
{
    store_head(b, s);
    codec::write_bytes(b, 32, &s.sender);
    store_line(b, s.line);
}

// The count's lowest four bytes, and the characters.
fn store_gathered(b: &mut [u8], g: session::Gathered)
    requires { length b.old ≡ session_size }
    ensures written { b.new ≡ splice 62 (enc gathered_shape (gathered_to g)) b.old }
    ensures sizes { Sized gathered_shape (gathered_to g) }
{
    codec::write_number(b, 62, 4, g.count as u64);
    codec::write1(b, 66, codec::flag_number(g.blank));
    codec::write_bytes(b, 67, &g.text);
}

fn store_suo(b: &mut [u8], c: message::Collected)
    requires { length b.old ≡ session_size }
    ensures written { b.new ≡ splice 228 (enc suo_shape (suo_to c)) b.old }
    ensures sizes { Sized suo_shape (suo_to c) }
{
    codec::write1(b, 228, extent_number(c.extent));
    codec::write1(b, 229, codec::flag_number(c.blank));
    codec::write_bytes(b, 230, &c.text);
}

// The one-time key, or as many zeros where none is held.
fn store_key(b: &mut [u8], once: Option<u64>)
    requires { length b.old ≡ session_size }
    ensures { b.new ≡ splice 391 (enc (perhaps once_shape) (key_to once)) b.old }
{
    match once {
        None => codec::write_bytes(b, 391, &[0; 9]),
        Some(key) => {
            codec::write1(b, 391, 1);
            codec::write8(b, 392, key);
        }
    }
}

fn store_state(b: &mut [u8], at: usize, s: digest::State)
    requires { at + 24 ≤ length b.old }
    ensures { b.new ≡ splice at (enc state_shape (state_to s)) b.old }
{
    codec::write8(b, at, s.chain);
    codec::write8(b, at + 8, s.block);
    codec::write8(b, at + 16, s.n);
}

// All that stands past the SUO.
fn store_running(b: &mut [u8], a: session::Batch)
    requires { length b.old ≡ session_size }
    ensures { b.new ≡ splice 391 (enc running_shape (running_to a)) b.old }
{
    store_key(b, a.once);
    store_state(b, 400, a.running.start);
    store_state(b, 424, a.running.solid);
    store_state(b, 448, a.running.last);
}

fn store_batch(b: &mut [u8], a: session::Batch)
    requires { length b.old ≡ session_size }
    ensures written { b.new ≡ splice 228 (enc batch_shape (batch_to a)) b.old }
    ensures sizes { Sized batch_shape (batch_to a) }
{
    store_suo(b, a.suo);
    store_running(b, a);
}

fn store_session(b: &mut [u8], s: session::Session)
    requires { length b.old ≡ session_size }
    ensures { b.new ≡ session_bytes s }
{
    store_front(b, s);
    store_gathered(b, s.gathered);
    store_batch(b, s.batch);
}

// Writes a session over bytes of its length; others stay.
pub fn store(b: &mut [u8], s: session::Session)
    ensures { b.new ≡ session_stored b.old s }
{
    if b.len() == SIZE {
        store_session(b, s);
    }
}
