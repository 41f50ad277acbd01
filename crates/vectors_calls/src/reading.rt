// Openings, reads and ends on the session in hand.
use vectors_words::{beginning, behind, small_at};

// What is in hand: a session, and of the file how many bytes there are and how many were taken.
#[derive(Clone, Copy)]
pub struct Hand {
    pub session: session::Session,
    pub length: usize,
    pub taken: usize,
}

// A read of so many bytes at most, or an end, each with that room for a reply.
#[derive(Clone, Copy)]
pub enum Call {
    Read { most: usize, room: usize },
    End { room: usize },
}

// open DATE TIME TYPE CLOCK; an opening that is refused leaves the session in hand.
pub fn open(t: &mut [u8], h: Hand, line: &[u8]) -> Hand {
    let o = opening::Opening {
        today: calendar::Date {
            yymmdd: small_at(line, 1),
        },
        time: small_at(line, 2),
        kind: small_at(line, 3),
        clock: vectors_words::hex_at(line, 4),
    };
    let a = calls::open(t, o);
    crate::say::answered(line, a.refusal);
    crate::say::table(t);
    let session = if a.refusal == 0 { a.session } else { h.session };
    Hand {
        session,
        taken: 0,
        ..h
    }
}

// One call; a read has the next bytes that are not taken yet.
fn answer_to(
    t: &mut [u8],
    file: &[u8],
    h: Hand,
    call: Call,
    buffer: &mut [u8; 400],
) -> calls::Answer {
    match call {
        Call::Read { most, room } => {
            let left = behind(beginning(file, h.length), h.taken);
            calls::read(
                t,
                h.session,
                beginning(left, most),
                &mut buffer[..room.min(400)],
            )
        }
        Call::End { room } => calls::end(t, h.session, &mut buffer[..room.min(400)]),
    }
}

// What is in hand after a call.
fn after(h: Hand, a: calls::Answer) -> Hand {
    Hand {
        session: a.session,
        taken: h.taken.wrapping_add(a.taken),
        ..h
    }
}

// read N ROOM · end ROOM: one call, and what it answered.
pub fn once(t: &mut [u8], file: &[u8], h: Hand, asked: Call, line: &[u8]) -> Hand {
    let mut buffer = [b'.'; 400];
    let a = answer_to(t, file, h, asked, &mut buffer);
    let next = after(h, a);
    crate::say::answer(line, a, next.taken, &buffer, t, 400);
    next
}

// Whether a whole file is over with a call.
fn is_over(asked: Call, a: calls::Answer) -> bool {
    a.finished || a.refusal != 0 || matches!(asked, Call::Read { .. }) && a.taken == 0
}

// run N: reads from the file's first byte on, and ends, until one says finished or is refused. A call is told where there is something to
// tell, so that nothing written hangs on how the file was cut. The turns are counted, since a loop has to end.
pub fn run(t: &mut [u8], file: &[u8], h: Hand, most: usize, line: &[u8]) -> Hand {
    let mut hand = Hand { taken: 0, ..h };
    for _ in 0..10000 {
        let asked = if hand.length <= hand.taken {
            Call::End { room: 400 }
        } else {
            Call::Read { most, room: 400 }
        };
        let mut buffer = [b'.'; 400];
        let a = answer_to(t, file, hand, asked, &mut buffer);
        hand = after(hand, a);
        let over = is_over(asked, a);
        if over || a.length != 0 {
            crate::say::answer(line, a, hand.taken, &buffer, t, 16);
        }
        if over {
            break;
        }
    }
    hand
}
