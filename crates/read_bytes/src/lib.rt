// The bytes of a file up to the first reply, and the end of a last record that no LF ended.

#![tactic(auto)]

ghost use Rattle.std.specs.Prelude.{◌≡◌, true, false, ◌+◌, ◌<◌, ◌≤◌, length};
ghost use Rattle.des.specs.Des.{schedule_of};
ghost use Rattle.des.specs.Joined.{joined, joined_by};
ghost use Rattle.checks.specs.Checks.{key_or0};
ghost use Rattle.session.specs.Lines.{waited};
ghost use Rattle.session.specs.Events.{heard};
ghost use Rattle.session.specs.Machine.{with_line, scanned, stepped, last_ended};
ghost use Rattle.read_bytes.specs.Runs.{Runs, told_by};
ghost use Rattle.read_bytes.specs.Passes.{LineEnd, Whole, Passes, passed_to, Skims};

// How far a read came.
#[derive(Drop)]
pub struct Scanned {
    pub session: session::Session,
    pub reply: session::Reply,
    pub taken: usize,
}

// The one-time key of the open frame.
fn batch_key(s: session::Session) -> u64
    ensures { result ≡ key_or0 s.batch.once }
{
    checks::key_or_0(s.batch.once)
}

// Where a run of characters ends: at an LF, a CR, the size limit or the input's end; none while a CR waits.
fn run_end(input: &[u8], from: usize, l: session::Line) -> usize
    requires { from ≤ length input.now }
    ensures { Runs input.now from l result }
{
    if l.cr {
        return from;
    }
    let room = (4294967295 - l.size) as usize;
    let mut end = from;
    // kept: a run ends at the first of four limits, and this loop is the reader's hot path
    while end < input.len() {
        let c = input[end];
        if c == 0x0A {
            break;
        }
        if c == 0x0D {
            break;
        }
        if room <= end - from {
            break;
        }
        end += 1;
    }
    end
}

// The session after a run of characters.
fn run_on(
    boxes: &[u32; 512],
    keys: [u64; 16],
    s: session::Session,
    bytes: &[u8],
) -> session::Session
    requires { (boxes.now ≡ joined) × (keys ≡ schedule_of (key_or0 s.batch.once)) × (s.line.size + length bytes.now ≤ 4294967295) }
    ensures { result ≡ with_line (heard s bytes.now) (record { size = s.line.size + length bytes.now; cr = false }) }
{
    let size = s.line.size + bytes.len() as u32;
    let after = read_characters::hear(boxes, keys, s, bytes);
    session::with_line(after, session::Line { size, cr: false })
}

// How far data records were passed, with the digest and the file's size after them.
#[derive(Drop)]
struct Passed {
    running: digest::Running,
    size: u32,
    to: usize,
}

// Where the LF stands that would end a record: behind its characters, or behind a CR there.
fn lf_place(input: &[u8], end: usize) -> usize
    requires { end ≤ length input.now }
    ensures { LineEnd input.now end result }
{
    if end < input.len() && input[end] == b'\r' {
        end + 1
    } else {
        end
    }
}

// Whether a run is a whole data record: it has characters, an LF ends it, and no message begins with its first one.
fn is_whole(input: &[u8], at: usize, end: usize, to: usize, size: u32) -> bool
    requires { Runs input.now at (record { size = size; cr = false }) end × LineEnd input.now end to }
    ensures { result ≡ true → Whole input.now at size end to }
{
    at < end
        && to < input.len()
        && input[at] != b'>'
        && input[to] == b'\n'
        && to - at < (u32::MAX - size) as usize
}

// The whole data records from a place on, one after the other: a session isn't needed between them.
fn pass_records(
    boxes: &[u32; 512],
    keys: [u64; 16],
    m: digest::Method,
    before: digest::Running,
    first: u32,
    input: &[u8],
    from: usize,
) -> Passed
    requires { from ≤ length input.now }
    ensures { Passes (joined_by boxes.now keys) m input.now from before first result.to result.running result.size }
{
    let mut running = before;
    let mut size = first;
    let mut at = from;
    // kept: no `for` goes on by whole records, each of its own length; hot path
    while at < input.len() {
        let end = run_end(input, at, session::Line { size, cr: false });
        let to = lf_place(input, end);
        if !is_whole(input, at, end, to, size) {
            break;
        }
        running = digest::end_record(
            m,
            digest::run_last(boxes, keys, m, running, &input[at..end]),
        );
        size = size + (to - at) as u32 + 1;
        at = to + 1;
    }
    Passed {
        running,
        size,
        to: at,
    }
}

// The session after them.
#[tactic(auto, unfolding(session::specs::Events::placed, session::specs::Events::with_batch, session::specs::Machine::with_line))]
fn passed_to(s: session::Session, running: digest::Running, size: u32) -> session::Session
    ensures { result ≡ passed_to s running size }
{
    let at = session::at_place(s, session::Place::InData, s.told, session::no_characters());
    let taken = session::with_batch(at, session::Batch { running, ..s.batch });
    session::with_line(taken, session::Line { size, cr: false })
}

// How far a run came.
#[derive(Drop)]
struct Ran {
    session: session::Session,
    to: usize,
}

// The session after a run of characters, or after the whole data records that begin with it.
fn run_from(
    boxes: &[u32; 512],
    keys: [u64; 16],
    s: session::Session,
    input: &[u8],
    from: usize,
    end: usize,
) -> Ran
    requires { (boxes.now ≡ joined) × (keys ≡ schedule_of (key_or0 s.batch.once)) × Runs input.now from s.line end × (from < end) }
    ensures { Skims input.now from s result.to result.session }
{
    if session::is_data(s.place) && s.gathered.count == 0 {
        let m = message::method(s.batch.suo.text);
        let p = pass_records(boxes, keys, m, s.batch.running, s.line.size, input, from);
        if from < p.to {
            return Ran {
                session: passed_to(s, p.running, p.size),
                to: p.to,
            };
        }
    }
    Ran {
        session: run_on(boxes, keys, s, &input[from..end]),
        to: end,
    }
}

// The characters of a waiting CR and a byte.
fn told_by(
    boxes: &[u32; 512],
    keys: [u64; 16],
    s: session::Session,
    waiting: bool,
    b: u8,
) -> session::Session
    requires { (boxes.now ≡ joined) × (keys ≡ schedule_of (key_or0 s.batch.once)) }
    ensures { result ≡ heard s (told_by waiting b) }
{
    let both = [b'\r', b];
    match (waiting, b == b'\r') {
        (true, true) => read_characters::hear(boxes, keys, s, &both[..1]),
        (true, false) => read_characters::hear(boxes, keys, s, &both),
        (false, true) => s,
        (false, false) => read_characters::hear(boxes, keys, s, &both[1..]),
    }
}

// One byte.
fn step(
    boxes: &[u32; 512],
    keys: [u64; 16],
    s: session::Session,
    t: &mut [u8],
    b: u8,
) -> session::Stepped
    requires { (boxes.now ≡ joined) × (keys ≡ schedule_of (key_or0 s.batch.once)) }
    ensures value { result ≡ (stepped s t.old b).out }
    ensures t_after { t.new ≡ (stepped s t.old b).table }
{
    let at = session::with_line(s, read_characters::line_after(s.line, b));
    if s.line.size == u32::MAX {
        return read_records::size_passed(at, t);
    }
    if b == b'\n' {
        return read_records::record_ended(at, t);
    }
    session::Stepped {
        session: told_by(boxes, keys, at, s.line.cr, b),
        reply: session::no_reply(),
    }
}

// Bytes up to the first reply: runs of characters at once, other bytes one by one; round keys are made anew where the one-time key changes.
pub fn scan(s: session::Session, t: &mut [u8], input: &[u8]) -> Scanned
    ensures session_value { (result.session ≡ (scanned s t.old input.now).turn.out.session)
        × (result.reply ≡ (scanned s t.old input.now).turn.out.reply)
        × (result.taken ≡ (scanned s t.old input.now).taken) }
    ensures t_after { t.new ≡ (scanned s t.old input.now).turn.table }
{
    let boxes = des::joined_table();
    let mut at = s;
    let mut key = batch_key(s);
    let mut keys = des::schedule(key);
    let mut i = 0;
    // kept: a `for` over the input cannot skip a run
    while i < input.len() {
        let end = run_end(input, i, at.line);
        if i < end {
            let x = run_from(&boxes, keys, at, input, i, end);
            at = x.session;
            i = x.to;
        } else {
            let x = step(&boxes, keys, at, t, input[i]);
            at = x.session;
            i += 1;
            if x.reply.given {
                return Scanned {
                    session: at,
                    reply: x.reply,
                    taken: i,
                };
            }
            let next = batch_key(at);
            if next != key {
                key = next;
                keys = des::schedule(next);
            }
        }
    }
    Scanned {
        session: at,
        reply: session::no_reply(),
        taken: i,
    }
}

// The end of a last record that no LF ended.
pub fn last_ended(s: session::Session, t: &mut [u8]) -> session::Stepped
    ensures value { result ≡ (last_ended s t.old).out }
    ensures t_after { t.new ≡ (last_ended s t.old).table }
{
    if !s.line.cr && s.gathered.count == 0 {
        return session::Stepped {
            session: s,
            reply: session::no_reply(),
        };
    }
    let boxes = des::joined_table();
    let keys = des::schedule(batch_key(s));
    let ended = session::Line {
        cr: false,
        ..s.line
    };
    let heard = waiting_heard(&boxes, keys, s);
    read_records::record_ended(session::with_line(heard, ended), t)
}

// A CR that waited is a character.
fn waiting_heard(boxes: &[u32; 512], keys: [u64; 16], s: session::Session) -> session::Session
    requires { (boxes.now ≡ joined) × (keys ≡ schedule_of (key_or0 s.batch.once)) }
    ensures { result ≡ heard s (waited s.line.cr) }
{
    if s.line.cr {
        read_characters::hear(boxes, keys, s, b"\r")
    } else {
        s
    }
}
