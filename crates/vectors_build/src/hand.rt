// What is in hand on the customer's side: a desk, a batch, a text, what was sent and a reply, one behind the other in one buffer, each at
// its place, with their lengths and the key maker beside it.
use vectors_words::{beginning, behind, copy_at};

// Where each begins; the desk at 0.
pub const BATCH: usize = 128;

pub const TEXT: usize = 384;

pub const SENT: usize = 640;

pub const REPLY: usize = 768;

// Where the bank's table is kept, behind what is kept of these.
pub const TABLE: usize = 1280;

// How long each is; how many numbers are lent as a maker, and these.
#[derive(Clone, Copy)]
pub struct Lengths {
    pub held: usize,
    pub batch: usize,
    pub text: usize,
    pub reply: usize,
    pub count: usize,
    pub maker: [u64; 4],
}

// What is in hand and what is kept; of the file how many bytes there are and how many were taken.
#[derive(Clone, Copy)]
pub struct Hand {
    pub now: Lengths,
    pub kept: Lengths,
    pub length: usize,
    pub taken: usize,
}

pub fn empty() -> Hand {
    let none = Lengths {
        held: 88,
        batch: 168,
        text: 0,
        reply: 0,
        count: 2,
        maker: [0; 4],
    };
    Hand {
        now: none,
        kept: none,
        length: 0,
        taken: 0,
    }
}

// So many bytes from a place on.
pub fn part(own: &[u8], at: usize, n: usize) -> &[u8] {
    beginning(behind(own, at), n)
}

// A desk, a batch or a room for them.
pub fn room_of(own: &[u8], at: usize) -> [u8; 256] {
    let mut out = [b'.'; 256];
    text::copy(&mut out, behind(own, at));
    out
}

pub fn with_text(own: &mut [u8], h: Hand, said: &[u8]) -> Hand {
    copy_at(own, TEXT, said);
    Hand {
        now: Lengths {
            text: said.len(),
            ..h.now
        },
        ..h
    }
}

pub fn with_reply(own: &mut [u8], h: Hand, reply: &[u8]) -> Hand {
    copy_at(own, REPLY, reply);
    Hand {
        now: Lengths {
            reply: reply.len(),
            ..h.now
        },
        ..h
    }
}
