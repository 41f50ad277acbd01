// A script's lines, and what each of them does.
use crate::hand::{Hand, Lengths, part};
use crate::reading::Asked;
use vectors_words::{
    append, append_hex, beginning, behind, bytes_at, command, copy_at, decimal_at, word_at,
    write_over,
};

// ---- what is in hand on the customer's side

// held BYTES · batch BYTES
fn put_bytes(own: &mut [u8], at: usize, line: &[u8]) -> usize {
    let mut bytes = [0u8; 256];
    let n = bytes_at(&mut bytes, line, 1);
    copy_at(own, at, &bytes[..n]);
    n
}

fn held(own: &mut [u8], h: Hand, line: &[u8]) -> Hand {
    let held = put_bytes(own, 0, line);
    Hand {
        now: Lengths { held, ..h.now },
        ..h
    }
}

fn batch(own: &mut [u8], h: Hand, line: &[u8]) -> Hand {
    let batch = put_bytes(own, crate::hand::BATCH, line);
    Hand {
        now: Lengths { batch, ..h.now },
        ..h
    }
}

// forge OFFSET BYTES
fn forge(own: &mut [u8], line: &[u8]) {
    let from = crate::hand::BATCH.min(own.len());
    write_over(&mut own[from..], line);
}

// How many words stand behind a line's first, up to four.
fn count_of(line: &[u8]) -> usize {
    for n in 0..4usize {
        if word_at(line, n + 1).is_empty() {
            return n;
        }
    }
    4
}

// maker NUMBER…
fn maker(h: Hand, line: &[u8]) -> Hand {
    let maker = [
        vectors_words::hex_at(line, 1),
        vectors_words::hex_at(line, 2),
        vectors_words::hex_at(line, 3),
        vectors_words::hex_at(line, 4),
    ];
    Hand {
        now: Lengths {
            maker,
            count: count_of(line),
            ..h.now
        },
        ..h
    }
}

fn keep(own: &[u8], kept: &mut [u8], h: Hand) -> Hand {
    text::copy(kept, own);
    Hand { kept: h.now, ..h }
}

fn back(own: &mut [u8], kept: &[u8], h: Hand) -> Hand {
    text::copy(own, kept);
    Hand { now: h.kept, ..h }
}

// ---- the desk's calls

// open · enter · values
fn obey_keys(held: &mut [u8], line: &[u8]) {
    match command(line) {
        b"open" => vectors_desks::open(held, line),
        b"enter" => vectors_desks::enter(held, line),
        _ => vectors_desks::values(held, line),
    }
}

// checkesi · checkpte
fn check(pte: bool, own: &mut [u8], h: Hand, line: &[u8]) {
    let mut sent = [0u8; 100];
    let mut reply = [0u8; 384];
    text::copy(&mut sent, behind(own, crate::hand::SENT));
    text::copy(&mut reply, behind(own, crate::hand::REPLY));
    let n = h.now.held.min(own.len());
    let reply = beginning(&reply, h.now.reply);
    vectors_desks::check(pte, &mut own[..n], &sent, reply, 3, line);
}

// ---- the file in hand

// send · sendcr
fn send(own: &[u8], file: &mut [u8], h: Hand, end: &[u8]) -> Hand {
    let said = part(own, crate::hand::TEXT, h.now.text);
    let n = append(file, h.length, said);
    Hand {
        length: append(file, n, end),
        ..h
    }
}

// part OFFSET COUNT
fn send_part(own: &[u8], file: &mut [u8], h: Hand, line: &[u8]) -> Hand {
    let said = part(own, crate::hand::TEXT, h.now.text);
    let from = behind(said, decimal_at(line, 1) as usize);
    Hand {
        length: append(
            file,
            h.length,
            beginning(from, decimal_at(line, 2) as usize),
        ),
        ..h
    }
}

// data BYTES · datacr BYTES · both BYTES · bytes BYTES
fn data(file: &mut [u8], h: Hand, line: &[u8], end: &[u8]) -> Hand {
    let n = append_hex(file, h.length, line);
    Hand {
        length: append(file, n, end),
        ..h
    }
}

// ---- any line

// The sizes.
fn sizes(line: &[u8]) {
    vectors_words::say::told(line, desk_edge::lp_held_size());
    vectors_words::say::numbers(&[
        desk_edge::lp_sent_size(),
        desk_edge::builder::lp_batch_size(),
    ]);
    vectors_words::say::words(b"\n");
}

// A line on the customer's side; any other line is a comment, which is written as it is.
fn obey_own(own: &mut [u8], kept: &mut [u8], h: Hand, line: &[u8]) -> Hand {
    match command(line) {
        b"esi" => return crate::builds::esi(own, h, line),
        b"suo" => return crate::builds::suo(own, h, line),
        b"var" => return crate::builds::var(own, h, line),
        b"record" => crate::builds::record(own, h, line),
        b"open" | b"enter" | b"values" => {
            let n = h.now.held.min(own.len());
            obey_keys(&mut own[..n], line);
        }
        b"checkesi" => check(false, own, h, line),
        b"checkpte" => check(true, own, h, line),
        b"held" => return held(own, h, line),
        b"batch" => return batch(own, h, line),
        b"spoil" => write_over(own, line),
        b"forge" => forge(own, line),
        b"maker" => return maker(h, line),
        b"keep" => return keep(own, kept, h),
        b"back" => return back(own, kept, h),
        b"sizes" => sizes(line),
        _ => {
            vectors_words::say::words(line);
            vectors_words::say::words(b"\n");
        }
    }
    h
}

// A line on the file in hand.
fn obey_file(own: &mut [u8], kept: &mut [u8], file: &mut [u8], h: Hand, line: &[u8]) -> Hand {
    match command(line) {
        b"send" => send(own, file, h, b"\n"),
        b"sendcr" => send(own, file, h, b"\r\n"),
        b"part" => send_part(own, file, h, line),
        b"bytes" => data(file, h, line, b""),
        b"data" => data(file, h, line, b"\n"),
        b"datacr" => data(file, h, line, b"\r\n"),
        b"both" => {
            let after = data(file, h, line, b"\n");
            crate::builds::record(own, h, line);
            after
        }
        _ => obey_own(own, kept, h, line),
    }
}

// Does what a line says: those on the bank's table and session here.
pub fn obey(
    own: &mut [u8],
    kept: &mut [u8],
    table: &mut [u8],
    session: &mut [u8],
    file: &mut [u8],
    h: Hand,
    line: &[u8],
) -> Hand {
    match command(line) {
        b"read" => {
            let asked = Asked {
                ending: false,
                cut: decimal_at(line, 1) as usize,
            };
            return crate::reading::calls(own, table, session, file, h, asked, line);
        }
        b"end" => {
            let asked = Asked {
                ending: true,
                cut: 0,
            };
            return crate::reading::calls(own, table, session, file, h, asked, line);
        }
        b"begin" => return crate::bank::begin(table, session, h, line),
        b"size" => crate::bank::size(session, line),
        b"setup" => crate::bank::set_up(table, line),
        b"add" => crate::bank::add(table, line),
        b"key" => crate::bank::enter(table, line),
        b"order" => crate::bank::order(table, line),
        b"write" => write_over(table, line),
        b"keepbank" => copy_at(kept, crate::hand::TABLE, table),
        b"backbank" => text::copy(table, behind(kept, crate::hand::TABLE)),
        _ => return obey_file(own, kept, file, h, line),
    }
    h
}
