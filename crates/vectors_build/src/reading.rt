// Reads and ends of the file in hand at the bank, and the replies' lines.
use crate::hand::{Hand, part};
use vectors_words::say::words;
use vectors_words::{beginning, behind};

// How far it came: what is in hand, and the last call's refusal and whether it said finished.
#[derive(Clone, Copy)]
pub struct Turned {
    pub hand: Hand,
    pub refusal: u32,
    pub finished: bool,
}

// Ends, or reads of so many bytes.
#[derive(Clone, Copy)]
pub struct Asked {
    pub ending: bool,
    pub cut: usize,
}

fn numbered(name: &[u8], n: usize) {
    words(name);
    io::print_decimal(1, n as u64);
}

// A reply's kind, letter, code and field 18, and how far the file is taken.
fn say_reply(reply: &[u8], taken: usize) {
    words(b"reply: ");
    words(part(reply, 2, 3));
    words(b" ");
    words(part(reply, 11, 1));
    words(b" ");
    words(part(reply, 12, 4));
    words(b" ");
    words(part(reply, 160, 1));
    numbered(b", taken ", taken);
    words(b"\n");
}

// One call, whose answer is one number.
fn call(
    table: &mut [u8],
    session: &mut [u8],
    file: &[u8],
    h: Hand,
    asked: Asked,
    room: &mut [u8],
) -> u64 {
    if asked.ending {
        return edge::lp_end(table, session, room);
    }
    let left = behind(beginning(file, h.length), h.taken);
    edge::lp_read(table, session, beginning(left, asked.cut), room)
}

// The reply, if there is one, is in hand from then on.
fn replied(own: &mut [u8], h: Hand, room: [u8; 317], length: usize) -> Hand {
    if length == 0 {
        return h;
    }
    say_reply(&room, h.taken);
    crate::hand::with_reply(own, h, beginning(&room, length))
}

fn turn(
    own: &mut [u8],
    table: &mut [u8],
    session: &mut [u8],
    file: &[u8],
    h: Hand,
    asked: Asked,
) -> Turned {
    let mut room = [0u8; 317];
    let told = call(table, session, file, h, asked, &mut room);
    let after = Hand {
        taken: h.taken.wrapping_add((told % 1099511627776) as usize),
        ..h
    };
    Turned {
        hand: replied(own, after, room, (told / 1099511627776 % 65536) as usize),
        refusal: (told / 144115188075855872) as u32,
        finished: told / 72057594037927936 % 2 == 1,
    }
}

fn is_over(asked: Asked, r: Turned) -> bool {
    r.finished || r.refusal != 0 || !asked.ending && r.hand.length <= r.hand.taken
}

// Calls until one says finished or is refused, or all is taken. The turns are counted, since a loop has to end.
fn turns_of(
    own: &mut [u8],
    table: &mut [u8],
    session: &mut [u8],
    file: &[u8],
    h: Hand,
    asked: Asked,
) -> Turned {
    let mut r = Turned {
        hand: h,
        refusal: 0,
        finished: false,
    };
    for _ in 0..100000 {
        if is_over(asked, r) {
            break;
        }
        r = turn(own, table, session, file, r.hand, asked);
    }
    r
}

// read CUT · end
pub fn calls(
    own: &mut [u8],
    table: &mut [u8],
    session: &mut [u8],
    file: &[u8],
    h: Hand,
    asked: Asked,
    line: &[u8],
) -> Hand {
    let r = turns_of(own, table, session, file, h, asked);
    vectors_words::say::told(line, r.refusal);
    numbered(b", taken ", r.hand.taken);
    if r.finished {
        words(b", finished");
    }
    words(b"\n");
    r.hand
}
