// A script's lines, and what each of them does.
use vectors_words::{
    beginning, behind, bytes_at, command, copy_at, decimal_at, text_at, write_over,
};

// How many bytes are lent as a desk and for what was sent, and how many characters the reply has.
#[derive(Clone, Copy)]
pub struct Lengths {
    pub held: usize,
    pub sent: usize,
    pub reply: usize,
}

// The lengths of what is in hand and of what is kept, those of the two messages, and how many words are lent.
#[derive(Clone, Copy)]
pub struct Hand {
    pub now: Lengths,
    pub kept: Lengths,
    pub first: usize,
    pub closing: usize,
    pub words: usize,
}

pub fn empty_hand() -> Hand {
    let none = Lengths {
        held: 88,
        sent: 100,
        reply: 0,
    };
    Hand {
        now: none,
        kept: none,
        first: 0,
        closing: 0,
        words: 3,
    }
}

// ---- what is lent

fn with_held(h: Hand, held: usize) -> Hand {
    Hand {
        now: Lengths { held, ..h.now },
        ..h
    }
}

fn with_sent(h: Hand, sent: usize) -> Hand {
    Hand {
        now: Lengths { sent, ..h.now },
        ..h
    }
}

fn with_reply(h: Hand, reply: usize) -> Hand {
    Hand {
        now: Lengths { reply, ..h.now },
        ..h
    }
}

// The two messages stand one behind the other.
fn message(said: &mut [u8], at: usize, line: &[u8]) -> usize {
    let m = beginning(text_at(line, 1), 512);
    copy_at(said, at, m);
    m.len()
}

fn obey_reply(reply: &mut [u8], h: Hand, line: &[u8]) -> Hand {
    let n = decimal_at(line, 1) as usize;
    match command(line) {
        b"put" => {
            copy_at(reply, n, text_at(line, 2));
            h
        }
        b"over" => {
            write_over(reply, line);
            h
        }
        b"reply" => {
            text::pad(reply, text_at(line, 2));
            with_reply(h, n)
        }
        _ => with_reply(h, n),
    }
}

// ---- what is kept: a desk, what was sent and a reply, one behind the other

fn keep(held: &[u8], sent: &[u8], reply: &[u8], kept: &mut [u8], h: Hand) -> Hand {
    copy_at(kept, 0, held);
    copy_at(kept, 128, sent);
    copy_at(kept, 256, reply);
    Hand { kept: h.now, ..h }
}

fn back(held: &mut [u8], sent: &mut [u8], reply: &mut [u8], kept: &[u8], h: Hand) -> Hand {
    text::copy(held, kept);
    text::copy(sent, behind(kept, 128));
    text::copy(reply, behind(kept, 256));
    Hand { now: h.kept, ..h }
}

// ---- calls

fn obey_sent(sent: &mut [u8], said: &[u8], h: Hand, line: &[u8]) {
    let n = h.now.sent.min(sent.len());
    let first = beginning(said, h.first);
    let closing = beginning(behind(said, 512), h.closing);
    vectors_desks::sent(first, closing, &mut sent[..n], line);
}

fn obey_check(pte: bool, held: &mut [u8], sent: &[u8], reply: &[u8], h: Hand, line: &[u8]) {
    let n = h.now.held.min(held.len());
    let sent = beginning(sent, h.now.sent);
    let reply = beginning(reply, h.now.reply);
    vectors_desks::check(pte, &mut held[..n], sent, reply, h.words, line);
}

fn obey_keys(held: &mut [u8], line: &[u8]) {
    match command(line) {
        b"open" => vectors_desks::open(held, line),
        b"enter" => vectors_desks::enter(held, line),
        _ => vectors_desks::values(held, line),
    }
}

// ---- any line

fn sizes(line: &[u8]) {
    vectors_words::say::told(line, desk_edge::lp_held_size());
    vectors_words::say::numbers(&[desk_edge::lp_sent_size()]);
    vectors_words::say::words(b"\n");
}

// Does what a line says; any other line is a comment, which is written as it is.
pub fn obey(
    held: &mut [u8],
    sent: &mut [u8],
    reply: &mut [u8],
    said: &mut [u8],
    kept: &mut [u8],
    h: Hand,
    line: &[u8],
) -> Hand {
    match command(line) {
        b"held" => return with_held(h, bytes_at(held, line, 1)),
        b"into" => return with_sent(h, bytes_at(sent, line, 1)),
        b"spoil" => write_over(held, line),
        b"forge" => write_over(sent, line),
        b"reply" | b"long" | b"put" | b"over" => return obey_reply(reply, h, line),
        b"first" => {
            return Hand {
                first: message(said, 0, line),
                ..h
            };
        }
        b"closing" => {
            return Hand {
                closing: message(said, 512, line),
                ..h
            };
        }
        b"words" => {
            return Hand {
                words: decimal_at(line, 1) as usize,
                ..h
            };
        }
        b"keep" => return keep(held, sent, reply, kept, h),
        b"back" => return back(held, sent, reply, kept, h),
        b"open" | b"enter" | b"values" => {
            let n = h.now.held.min(held.len());
            obey_keys(&mut held[..n], line);
        }
        b"esi" => obey_check(false, held, sent, reply, h, line),
        b"pte" => obey_check(true, held, sent, reply, h, line),
        b"sent" => obey_sent(sent, said, h, line),
        b"sizes" => sizes(line),
        _ => {
            vectors_words::say::words(line);
            vectors_words::say::words(b"\n");
        }
    }
    h
}
