// The session of a file on its way, and what each event does to it and to the table.

#![tactic(auto)]

ghost use Rattle.std.specs.Prelude.{◌≡◌, take};
ghost use Rattle.whole_file.specs.Messages.{wanted_length};
ghost use Rattle.whole_file.specs.WholeFile.{occasion};
ghost use Rattle.session.specs.Events.{is_data, is_due, no_reply, nothing, placed, with_batch, judged, shut, keeps_on};
ghost use Rattle.session.specs.Machine.{opened, unopened, with_line};
ghost use Rattle.session.specs.Ranges.{is_cut, is_closed, in_range, end_refused, read_refused};

// The bytes' side: how many were taken, and whether a CR waits for the byte after it.
#[derive(Clone, Copy, Debug, PartialEq, Eq)]
pub struct Line {
    pub size: u32,
    pub cr: bool,
}

// Where the reader stands.
#[derive(Clone, Copy)]
pub enum Place {
    BeforeEsi,
    Outside,
    Collecting(message::Kind),
    InData,
    Closed,
}

// The record or message on its way: how many characters it has, up to the longest message's; whether those past its stated length that are
// not kept were all blank; and the first 161.
#[derive(Clone, Copy)]
pub struct Gathered {
    pub count: usize,
    pub blank: bool,
    pub text: [u8; 161],
}

// The open frame: its SUO, the one-time key deciphered at the SUO's end, and the digest of its records.
#[derive(Clone, Copy)]
pub struct Batch {
    pub suo: message::Collected,
    pub once: Option<u64>,
    pub running: digest::Running,
}

// A file on its way: whether it was opened, an end was signalled (and another reply is due), 1023 was told; what was given at opening; the
// keys made in this file; its ESI's sender; where the reader stands.
#[derive(Clone, Copy)]
pub struct Session {
    pub opened: bool,
    pub ended: bool,
    pub told: bool,
    pub opening: opening::Opening,
    pub made: u64,
    pub sender: [u8; 25],
    pub line: Line,
    pub place: Place,
    pub gathered: Gathered,
    pub batch: Batch,
}

// A reply, or none.
#[derive(Drop)]
pub struct Reply {
    pub given: bool,
    pub answer: reply::Answering,
}

// What an event gives.
#[derive(Drop)]
pub struct Stepped {
    pub session: Session,
    pub reply: Reply,
}

// ---- where the reader stands

#[tactic(auto, unfolding(crate::specs::Events::is_data))]
pub fn is_data(p: Place) -> bool
    ensures { result ≡ is_data p }
{
    matches!(p, Place::InData)
}

#[tactic(auto, unfolding(crate::specs::Ranges::is_closed))]
pub fn is_closed(p: Place) -> bool
    ensures { result ≡ is_closed p }
{
    matches!(p, Place::Closed)
}

// Whether the file's end has a reply to give there.
#[tactic(auto, unfolding(crate::specs::Events::is_due))]
pub fn is_due(p: Place) -> bool
    ensures { result ≡ is_due p }
{
    matches!(p, Place::Collecting(_) | Place::InData)
}

// ---- which sessions a call takes

// Whether a message was cut short by the file's end.
#[tactic(auto, unfolding(crate::specs::Ranges::is_cut))]
fn is_cut(extent: message::Extent) -> bool
    ensures { result ≡ is_cut extent }
{
    matches!(extent, message::Extent::CutShort)
}

// Whether each number of a session lies in its range.
#[tactic(auto, unfolding(crate::specs::Ranges::in_range, ground::specs::Choice::both, ground::specs::Choice::fails, ground::specs::Choice::between))]
pub fn is_in_range(s: Session) -> bool
    ensures { result ≡ in_range s }
{
    calendar::is_real_time(s.opening.time)
        && (1..=16).contains(&s.opening.kind)
        && s.gathered.count <= 500
        && !is_cut(s.batch.suo.extent)
}

// Whether an end is refused (3): not open, closed, another day, a number out of its range.
#[tactic(auto, unfolding(crate::specs::Ranges::end_refused, ground::specs::Choice::either, ground::specs::Choice::fails))]
pub fn is_end_refused(s: Session, day: u32) -> bool
    ensures { result ≡ end_refused s day }
{
    !s.opened || is_closed(s.place) || s.opening.today.yymmdd != day || !is_in_range(s)
}

// Whether a read is refused (3): also after an end.
#[tactic(auto, unfolding(crate::specs::Ranges::read_refused, ground::specs::Choice::either))]
pub fn is_read_refused(s: Session, day: u32) -> bool
    ensures { result ≡ read_refused s day }
{
    s.ended || is_end_refused(s, day)
}

// ---- with its parts changed

// The reply that stands where none is given.
pub fn no_reply() -> Reply
    ensures { result ≡ no_reply }
{
    Reply {
        given: false,
        answer: reply::Answering {
            pte: false,
            bare: false,
            code: 0,
            field: 0,
            contents: message::no_contents(),
            time: 0,
            bank: [0; 25],
            software: [0; 16],
            message: [0; 161],
            closing: [0; 161],
            working: None,
            transport: None,
            enclosed: None,
        },
    }
}

// Nothing on its way.
#[tactic(auto, unfolding(crate::specs::Events::nothing))]
pub fn no_characters() -> Gathered
    ensures { result ≡ nothing }
{
    Gathered {
        count: 0,
        blank: true,
        text: [0; 161],
    }
}

// The length that a message has to reach, by its first `count` characters.
pub fn wanted_length(text: [u8; 161], count: usize) -> usize
    ensures { result ≡ wanted_length (take count text) }
{
    text::number(&text[count.min(5)..count.min(8)]).min(500) as usize
}

#[tactic(auto, unfolding(whole_file::specs::WholeFile::occasion))]
pub fn occasion_of(o: opening::Opening, made: u64) -> checks::Occasion
    ensures { result ≡ occasion o made }
{
    checks::Occasion {
        today: o.today,
        kind: o.kind,
        clock: o.clock,
        made,
    }
}

#[tactic(auto, unfolding(crate::specs::Events::placed))]
pub fn at_place(s: Session, place: Place, told: bool, gathered: Gathered) -> Session
    ensures { result ≡ placed s place told gathered }
{
    Session {
        place,
        told,
        gathered,
        ..s
    }
}

#[tactic(auto, unfolding(crate::specs::Events::with_batch))]
pub fn with_batch(s: Session, batch: Batch) -> Session
    ensures { result ≡ with_batch s batch }
{
    Session { batch, ..s }
}

#[tactic(auto, unfolding(crate::specs::Machine::with_line))]
pub fn with_line(s: Session, line: Line) -> Session
    ensures { result ≡ with_line s line }
{
    Session { line, ..s }
}

// After a verdict.
#[tactic(auto, unfolding(crate::specs::Events::judged))]
pub fn after_verdict(s: Session, place: Place, made: u64, sender: [u8; 25]) -> Session
    ensures { result ≡ judged s place made sender }
{
    Session {
        told: false,
        made,
        sender,
        place,
        gathered: no_characters(),
        ..s
    }
}

#[tactic(auto, unfolding(crate::specs::Events::shut))]
pub fn closed_at(s: Session) -> Session
    ensures { result ≡ shut s }
{
    at_place(s, Place::Closed, s.told, no_characters())
}

// The message goes on with the next record.
#[tactic(auto, unfolding(crate::specs::Events::keeps_on))]
pub fn keeps_on(s: Session, k: message::Kind) -> Session
    ensures { result ≡ keeps_on s k }
{
    at_place(s, Place::Collecting(k), s.told, s.gathered)
}

// The batch of no frame.
#[tactic(auto, unfolding(crate::specs::Machine::unopened))]
fn no_batch() -> Batch
    ensures { result ≡ unopened.batch }
{
    Batch {
        suo: message::Collected {
            extent: message::Extent::Whole,
            blank: false,
            text: [0; 161],
        },
        once: None,
        running: digest::at_record(digest::start()),
    }
}

// A file that was just opened.
#[tactic(auto, unfolding(crate::specs::Machine::unopened, crate::specs::Machine::opened))]
pub fn opened_file(opening: opening::Opening) -> Session
    ensures { result ≡ opened opening }
{
    Session {
        opened: true,
        ended: false,
        told: false,
        opening,
        made: 0,
        sender: [0; 25],
        line: Line { size: 0, cr: false },
        place: Place::BeforeEsi,
        gathered: no_characters(),
        batch: no_batch(),
    }
}

// No file: what a refused opening hands back, with every number in its range.
#[tactic(auto, unfolding(crate::specs::Machine::unopened, crate::specs::Machine::opened))]
pub fn no_file() -> Session
    ensures { result ≡ unopened }
{
    let opening = opening::Opening {
        today: calendar::Date { yymmdd: 800101 },
        time: 0,
        kind: 1,
        clock: 0,
    };
    Session {
        opened: false,
        place: Place::Closed,
        ..opened_file(opening)
    }
}
