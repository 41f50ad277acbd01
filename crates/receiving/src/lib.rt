// A caller of the front end: a whole file, in reads of one size. Its promise names no size, for the answers do not depend on it.

#![tactic(auto)]

ghost use Rattle.std.specs.Prelude.{◌≡◌, ◌+◌, ◌<◌, ◌≤◌, ◌^◌, [], ◌∷◌, length, replicate};
ghost use Rattle.calls.specs.Reading.{opening_answer, read_done, end_done};
ghost use Rattle.law_protocol.specs.Ready.{Good, EndGood};
ghost use Rattle.receiving.specs.Receiving.{received, capacity, replies_kept, places_kept};
ghost use Rattle.receiving.specs.Steps.{Adds, seen_in, Called, saw_from, saw_end, AllRead};

// The refusal's number, or 0, and how many replies the file gave.
#[derive(Drop)]
pub struct Received {
    pub refusal: u32,
    pub count: u64,
}

// How far a caller has come: the session, the file's bytes taken, the replies seen, and whether a call said finished.
#[derive(Drop)]
pub struct Going {
    pub session: session::Session,
    pub at: usize,
    pub count: usize,
    pub finished: bool,
}

// ---- a reply

// How many replies the buffers hold.
#[tactic(auto, unfolding(crate::specs::Receiving::capacity, crate::specs::Receiving::smaller, ground::specs::Choice::pick))]
fn capacity_of(replies: &[u8], places: &[u64]) -> usize
    ensures { result ≡ capacity replies.now places.now }
{
    (replies.len() / 317).min(places.len())
}

// Keeps reply number `count` and its place, if the buffers hold so many.
fn keep(replies: &mut [u8], places: &mut [u64], count: usize, at: usize, reply: &[u8])
    requires { (count + 1 < 2 ^ 64) × (length reply.now ≤ 317) }
    ensures { Adds (record { at = at; reply = reply.now } ∷ []) count replies.old places.old (count + 1)
        replies.new places.new }
{
    if count < capacity_of(replies, places) {
        codec::write_bytes(replies, 317 * count, reply);
        places[count] = at as u64;
    }
}

// Keeps a call's reply, if it gave one, and counts it.
fn note(
    replies: &mut [u8],
    places: &mut [u64],
    count: usize,
    at: usize,
    room: [u8; 317],
    length: usize,
) -> usize
    requires { (length ≤ 317) × (count + 1 < 2 ^ 64) }
    ensures { Adds (seen_in at length room) count replies.old places.old result replies.new places.new }
{
    if length == 0 {
        return count;
    }
    keep(replies, places, count, at, &room[0..length]);
    count + 1
}

// ---- reads

// One read, and its reply.
fn one_read(
    t: &mut [u8],
    s: session::Session,
    input: &[u8],
    replies: &mut [u8],
    places: &mut [u64],
    at: usize,
    count: usize,
) -> Going
    requires { Good s t.old × (at + length input.now < 2 ^ 64) × (count + 1 < 2 ^ 64) }
    ensures { Called (read_done s t.old input.now (replicate 317 0)) at count replies.old places.old
        result t.new replies.new places.new }
{
    let mut room = [0u8; 317];
    let a = calls::read(t, s, input, &mut room);
    let reached = at + a.taken;
    let more = note(replies, places, count, reached, room, a.length);
    Going {
        session: a.session,
        at: reached,
        count: more,
        finished: a.finished,
    }
}

// Where the next read ends: after `size` bytes, at least one, or at the file's end.
fn reach(at: usize, size: usize, end: usize) -> usize
    requires { at < end }
    ensures { (at < result) × (result ≤ end) }
{
    at + size.clamp(1, end - at)
}

// Reads the file to its end, or until a read closes it.
fn read_all(
    t: &mut [u8],
    s: session::Session,
    file: &[u8],
    size: usize,
    replies: &mut [u8],
    places: &mut [u64],
) -> Going
    requires { Good s t.old × (length (saw_from 0 s t.old file.now).given + 1 < 2 ^ 64) }
    ensures { AllRead (saw_from 0 s t.old file.now) (length file.now) replies.old
        places.old
        result t.new replies.new places.new }
{
    let mut session = s;
    let mut at = 0;
    let mut count = 0;
    // kept: no `for` goes on from the bytes that a read took, which may be fewer than it was given
    while at < file.len() {
        let to = reach(at, size, file.len());
        let g = one_read(t, session, &file[at..to], replies, places, at, count);
        if g.finished {
            return g;
        }
        session = g.session;
        at = g.at;
        count = g.count;
    }
    Going {
        session,
        at,
        count,
        finished: false,
    }
}

// ---- ends

// One end, and its reply.
fn one_end(
    t: &mut [u8],
    s: session::Session,
    replies: &mut [u8],
    places: &mut [u64],
    at: usize,
    count: usize,
) -> Going
    requires { EndGood s t.old × (count + 1 < 2 ^ 64) }
    ensures { Called (end_done s t.old (replicate 317 0)) at count replies.old places.old
        result t.new replies.new places.new }
{
    let mut room = [0u8; 317];
    let a = calls::end(t, s, &mut room);
    let more = note(replies, places, count, at, room, a.length);
    Going {
        session: a.session,
        at,
        count: more,
        finished: a.finished,
    }
}

// Signals the file's end: twice where another reply is due after the first. The number of replies.
fn end_all(
    t: &mut [u8],
    s: session::Session,
    replies: &mut [u8],
    places: &mut [u64],
    at: usize,
    count: usize,
) -> usize
    requires { EndGood s t.old × (count + 2 < 2 ^ 64) }
    ensures adds { Adds (saw_end at s t.old).given count replies.old places.old result replies.new
        places.new }
    ensures t_after { t.new ≡ (saw_end at s t.old).table }
{
    let first = one_end(t, s, replies, places, at, count);
    if first.finished {
        return first.count;
    }
    one_end(t, first.session, replies, places, at, first.count).count
}

// ---- the whole file

// Receives a file in reads of `size` bytes (0 counts as 1): opens it, reads it to its end and signals the end. Reply number i stands at 317
// times i in `replies` with its place in `places`; those that the buffers do not hold are counted alone.
pub fn receive(
    t: &mut [u8],
    o: opening::Opening,
    file: &[u8],
    size: usize,
    replies: &mut [u8],
    places: &mut [u64],
) -> Received
    ensures value { result
        ≡ record { refusal = opening_answer t.old o; count = length (received t.old o file.now).given } }
    ensures t_after { t.new ≡ (received t.old o file.now).table }
    ensures replies_after { replies.new
        ≡ replies_kept (capacity replies.old places.old) (received t.old o file.now).given
        replies.old }
    ensures places_after { places.new
        ≡ places_kept (capacity replies.old places.old) (received t.old o file.now).given
        places.old }
{
    let a = calls::open(t, o);
    if a.refusal != 0 {
        return Received {
            refusal: a.refusal,
            count: 0,
        };
    }
    let g = read_all(t, a.session, file, size, replies, places);
    if g.finished {
        return Received {
            refusal: 0,
            count: g.count as u64,
        };
    }
    let count = end_all(t, g.session, replies, places, file.len(), g.count);
    Received {
        refusal: 0,
        count: count as u64,
    }
}
