// A script's lines, and what each of them does.
use crate::reading::{Call, Hand};
use vectors_words::{append, append_hex, decimal_at};

pub fn empty_hand() -> Hand {
    Hand {
        session: session::no_file(),
        length: 0,
        taken: 0,
    }
}

// ---- the file in hand

// The text behind a line's first word, and then a record's end.
fn append_text(file: &mut [u8], length: usize, line: &[u8], end: &[u8]) -> usize {
    let said = append(file, length, vectors_words::text_at(line, 1));
    append(file, said, end)
}

// ---- the session in hand

// size N: a session whose count of bytes stands there.
fn sized(h: Hand, line: &[u8]) -> Hand {
    let counted = session::Line {
        size: vectors_words::small_at(line, 1),
        ..h.session.line
    };
    Hand {
        session: session::with_line(h.session, counted),
        ..h
    }
}

// read N ROOM
fn read_of(line: &[u8]) -> Call {
    Call::Read {
        most: decimal_at(line, 1) as usize,
        room: decimal_at(line, 2) as usize,
    }
}

// end ROOM
fn end_of(line: &[u8]) -> Call {
    Call::End {
        room: decimal_at(line, 1) as usize,
    }
}

// ---- the table in hand

fn registered(t: &[u8], line: &[u8], refusal: u32) {
    crate::say::answered(line, refusal);
    crate::say::table(t);
}

// A call that keeps the table, the table kept, or that again; any other line is a comment, which is written as it is.
fn obey_table(t: &mut [u8], kept: &mut [u8], line: &[u8]) {
    match vectors_words::command(line) {
        b"setup" => {
            let refusal = crate::registering::set_up(t, line);
            registered(t, line, refusal);
        }
        b"add" => {
            let refusal = crate::registering::add(t, line);
            registered(t, line, refusal);
        }
        b"key" => {
            let refusal = crate::registering::enter(t, line);
            registered(t, line, refusal);
        }
        b"order" => {
            let refusal = crate::registering::order(t, line);
            registered(t, line, refusal);
        }
        b"spoil" => {
            vectors_words::write_over(t, line);
            registered(t, line, 0);
        }
        b"keep" => text::copy(kept, t),
        b"back" => text::copy(t, kept),
        _ => {
            vectors_words::say::words(line);
            vectors_words::say::words(b"\n");
        }
    }
}

// Does what a line says.
pub fn obey(t: &mut [u8], kept: &mut [u8], file: &mut [u8], h: Hand, line: &[u8]) -> Hand {
    match vectors_words::command(line) {
        b"open" => crate::reading::open(t, h, line),
        b"size" => sized(h, line),
        b"read" => crate::reading::once(t, file, h, read_of(line), line),
        b"end" => crate::reading::once(t, file, h, end_of(line), line),
        b"run" => crate::reading::run(t, file, h, decimal_at(line, 1) as usize, line),
        b"file" => Hand {
            length: 0,
            taken: 0,
            ..h
        },
        b"record" => Hand {
            length: append_text(file, h.length, line, b"\n"),
            ..h
        },
        b"crlf" => Hand {
            length: append_text(file, h.length, line, b"\r\n"),
            ..h
        },
        b"text" => Hand {
            length: append_text(file, h.length, line, b""),
            ..h
        },
        b"bytes" => Hand {
            length: append_hex(file, h.length, line),
            ..h
        },
        _ => {
            obey_table(t, kept, line);
            h
        }
    }
}
