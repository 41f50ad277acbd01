// The three calls that read a file: open, read, end. Each promises one record of specs/Promises.antt: its answer, and the later contents of
// every buffer lent to it. The four that keep the table are in `table_calls`; specs/Calls.antt has all seven as data.

#![tactic(auto)]

ghost use Rattle.std.specs.Prelude.{◌≡◌, false};
ghost use Rattle.refusals.specs.Numbers.{code_of};
ghost use Rattle.ground.specs.Choice.{either, fails, between};
ghost use Rattle.calendar.specs.Dates.{real_time};
ghost use Rattle.table.specs.Decode.{table_of};
ghost use Rattle.refusals.specs.Refusals.{lowest, bad_day};
ghost use Rattle.calls.specs.Reading.{opening_answer, awaits, finishes, room_after, length_of, reading_refusals, ending_refusals};
ghost use Rattle.calls.specs.Reading.{read_done, end_done};
ghost use Rattle.calls.specs.Promises.{MeetsOpen, MeetsReading};

use refusals::Refusal;

#[derive(Clone, Copy)]
pub struct OpenAnswer {
    pub refusal: u32,
    pub session: session::Session,
}

// What a read or an end answers: the refusal's number or 0, the bytes taken, the reply's length (0: none),
// whether the file is finished, and the session to hand in with the next call.
#[derive(Clone, Copy)]
pub struct Answer {
    pub refusal: u32,
    pub taken: usize,
    pub length: usize,
    pub finished: bool,
    pub session: session::Session,
}

// ---- open

// Whether the day is no day to open a file on, or the time is not real.
#[tactic(auto, unfolding(ground::specs::Choice::either, ground::specs::Choice::fails))]
fn is_moment_bad(t: &[u8], o: opening::Opening) -> bool
    ensures { result ≡ either (bad_day (table_of t.now) o.today) (fails (real_time o.time)) }
{
    refusals::is_bad_day(t, o.today) || !calendar::is_real_time(o.time)
}

// Whether the data type is none of the sixteen.
#[tactic(auto, using(ground::proofs::Std::words))]
fn is_kind_out(kind: u32) -> bool
    ensures { result ≡ fails (between 1 16 kind) }
{
    !(1 <= kind && kind <= 16)
}

/// Why a file can't be opened, if it can't.
pub fn opening_refusal(t: &[u8], o: opening::Opening) -> Result<(), Refusal>
    ensures { code_of result ≡ opening_answer t.now o }
{
    refusals::first_of(&[
        (!table::is_table(t), Refusal::NoTable),
        (is_moment_bad(t, o), Refusal::BadDate),
        (is_kind_out(o.kind), Refusal::OutOfLimits),
    ])
}

/// Opens a file: stores today's date in the table.
pub fn open(t: &mut [u8], o: opening::Opening) -> OpenAnswer
    ensures { MeetsOpen t.old o result t.new }
{
    let outcome = opening_refusal(t, o);
    if let Err(_) = outcome {
        return OpenAnswer {
            refusal: refusals::code(outcome),
            session: session::no_file(),
        };
    }
    table::store_day(t, o.today);
    OpenAnswer {
        refusal: 0,
        session: session::opened_file(o),
    }
}

// ---- read

// Writes a reply, if there is one, and says how long it is.
#[tactic(auto, unfolding(crate::specs::Reading::length_of, crate::specs::Reading::room_after, ground::specs::Choice::pick))]
fn put_reply(room: &mut [u8], r: session::Reply) -> usize
    ensures value { result ≡ length_of r room.old }
    ensures room_after { room.new ≡ room_after r room.old }
{
    if r.given {
        reply::write(room, r.answer)
    } else {
        0
    }
}

fn refused(refusal: u32, session: session::Session) -> Answer
    ensures { result ≡ record { refusal = refusal; taken = 0; length = 0; finished = false; session = session } }
{
    Answer {
        refusal,
        taken: 0,
        length: 0,
        finished: false,
        session,
    }
}

/// Why a read is refused, if it is.
pub fn reading_refusal(t: &[u8], s: session::Session, room: &[u8]) -> Result<(), Refusal>
    ensures { code_of result ≡ lowest (reading_refusals s t.now room.now) }
{
    // The room is looked at first, before all of the table is.
    if room.len() < 317 {
        return Err(Refusal::NoRoom);
    }
    let day = table::day(t);
    refusals::first_of(&[
        (!table::is_table(t), Refusal::NoTable),
        (session::is_read_refused(s, day.yymmdd), Refusal::NoSession),
    ])
}

/// Takes bytes through the LF that settles a reply, or all of them.
pub fn read(t: &mut [u8], s: session::Session, input: &[u8], room: &mut [u8]) -> Answer
    ensures { MeetsReading (read_done s t.old input.now room.old) result t.new room.new }
{
    let outcome = reading_refusal(t, s, room);
    if let Err(_) = outcome {
        return refused(refusals::code(outcome), s);
    }
    let x = read_bytes::scan(s, t, input);
    let session = x.session;
    let length = put_reply(room, x.reply);
    Answer {
        refusal: 0,
        taken: x.taken,
        length,
        finished: session::is_closed(session.place),
        session,
    }
}

// ---- end

// Another reply is due.
#[tactic(auto, unfolding(crate::specs::Reading::awaits))]
fn awaiting(s: session::Session) -> session::Session
    ensures { result ≡ awaits s }
{
    session::Session { ended: true, ..s }
}

fn finished(s: session::Session) -> session::Session
    ensures { result ≡ finishes s }
{
    session::at_place(
        awaiting(s),
        session::Place::Closed,
        s.told,
        session::no_characters(),
    )
}

fn answered(session: session::Session, length: usize, finished: bool) -> Answer
    ensures { result ≡ record { refusal = 0; taken = 0; length = length; finished = finished; session = session } }
{
    Answer {
        refusal: 0,
        taken: 0,
        length,
        finished,
        session,
    }
}

/// Why an end is refused, if it is.
pub fn ending_refusal(t: &[u8], s: session::Session, room: &[u8]) -> Result<(), Refusal>
    ensures { code_of result ≡ lowest (ending_refusals s t.now room.now) }
{
    // The room is looked at first, before all of the table is.
    if room.len() < 317 {
        return Err(Refusal::NoRoom);
    }
    let day = table::day(t);
    refusals::first_of(&[
        (!table::is_table(t), Refusal::NoTable),
        (session::is_end_refused(s, day.yymmdd), Refusal::NoSession),
    ])
}

/// Signals the file's end: at most one reply, and finished with the last or at once.
pub fn end(t: &mut [u8], s: session::Session, room: &mut [u8]) -> Answer
    ensures { MeetsReading (end_done s t.old room.old) result t.new room.new }
{
    let outcome = ending_refusal(t, s, room);
    if let Err(_) = outcome {
        return refused(refusals::code(outcome), s);
    }
    let x = read_bytes::last_ended(s, t);
    let after = x.session;
    let reply = x.reply;
    if reply.given {
        let length = put_reply(room, reply);
        if session::is_due(after.place) {
            return answered(awaiting(after), length, false);
        }
        return answered(finished(after), length, true);
    }
    let y = read_records::file_ended(after, t);
    let length = put_reply(room, y.reply);
    answered(finished(y.session), length, true)
}
