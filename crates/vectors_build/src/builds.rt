// The calls that build, each from its line. The rooms of a call are fresh; they are in hand from then on if it gave 0.
ghost use Rattle.std.specs.Prelude.{◌≤◌};

use crate::hand::{BATCH, Hand, Lengths, SENT, part, room_of, with_text};
use vectors_words::say::words;
use vectors_words::{beginning, bytes_at, copy_at, decimal_at, small_at};

fn length_at(line: &[u8], number: usize) -> usize
    ensures { result ≤ 256 }
{
    (decimal_at(line, number) as usize).min(256)
}

// A room after a call.
fn say_room(name: &[u8], room: &[u8]) {
    let fresh = [b'.'; 256];
    vectors_words::say::changed(name, beginning(&fresh, room.len()), room);
}

// A text after a call, at the line's end.
fn say_text(room: &[u8]) {
    let fresh = [b'.'; 256];
    words(b", text ");
    if beginning(&fresh, room.len()) == room {
        words(b"stays\n");
    } else {
        words(room);
        words(b"\n");
    }
}

// What an ESI or a VAR gave, and its rooms.
fn say_message(line: &[u8], told: u32, text: &[u8], sent: &[u8]) {
    vectors_words::say::told(line, told);
    say_room(b"sent", sent);
    say_text(text);
}

fn message_kept(own: &mut [u8], h: Hand, told: u32, text: &[u8], sent: &[u8]) -> Hand {
    if told != 0 {
        return h;
    }
    copy_at(own, SENT, sent);
    with_text(own, h, text)
}

// A message's rooms after its call, each with the length that was lent.
fn message_after(
    own: &mut [u8],
    h: Hand,
    line: &[u8],
    told: u32,
    text: [u8; 256],
    t: usize,
    sent: [u8; 256],
    s: usize,
) -> Hand {
    say_message(line, told, beginning(&text, t), beginning(&sent, s));
    message_kept(own, h, told, beginning(&text, t), beginning(&sent, s))
}

fn esi_by(held: &[u8], line: &[u8], text: &mut [u8], sent: &mut [u8]) -> u32 {
    let mut software = [0u8; 32];
    let mut stamp = [0u8; 32];
    let n = bytes_at(&mut software, line, 1);
    let m = bytes_at(&mut stamp, line, 2);
    let request = small_at(line, 3);
    desk_edge::builder::lp_build_esi(held, &software[0..n], &stamp[0..m], request, text, sent)
}

// esi SOFTWARE STAMP REQUEST TEXT SENT
pub fn esi(own: &mut [u8], h: Hand, line: &[u8]) -> Hand {
    let mut text = [b'.'; 256];
    let mut sent = [b'.'; 256];
    let t = length_at(line, 4);
    let s = length_at(line, 5);
    let told = esi_by(
        part(own, 0, h.now.held),
        line,
        &mut text[0..t],
        &mut sent[0..s],
    );
    message_after(own, h, line, told, text, t, sent, s)
}

// var REQUEST TEXT SENT
pub fn var(own: &mut [u8], h: Hand, line: &[u8]) -> Hand {
    let mut text = [b'.'; 256];
    let mut sent = [b'.'; 256];
    let t = length_at(line, 2);
    let s = length_at(line, 3);
    let told = desk_edge::builder::lp_build_var(
        part(own, BATCH, h.now.batch),
        small_at(line, 1),
        &mut text[0..t],
        &mut sent[0..s],
    );
    message_after(own, h, line, told, text, t, sent, s)
}

// The maker's numbers, each behind a blank.
fn say_maker(all: &[u64]) {
    words(b", maker");
    for &n in all {
        words(b" ");
        words(&text::hex_digits(n));
    }
}

fn suo_by(held: &[u8], maker: &mut [u64], line: &[u8], text: &mut [u8], batch: &mut [u8]) -> u32 {
    let mut software = [0u8; 32];
    let mut method = [0u8; 32];
    let mut stamp = [0u8; 32];
    let n = bytes_at(&mut software, line, 2);
    let m = bytes_at(&mut method, line, 3);
    let k = bytes_at(&mut stamp, line, 4);
    let area = small_at(line, 5);
    let clock = vectors_words::hex_at(line, 1);
    desk_edge::builder::lp_build_suo(
        held,
        maker,
        clock,
        &software[0..n],
        &method[0..m],
        &stamp[0..k],
        area,
        text,
        batch,
    )
}

fn suo_kept(own: &mut [u8], h: Hand, told: u32, text: &[u8], batch: &[u8]) -> Hand {
    if told != 0 {
        return h;
    }
    copy_at(own, BATCH, batch);
    let after = Hand {
        now: Lengths {
            batch: batch.len(),
            ..h.now
        },
        ..h
    };
    with_text(own, after, text)
}

fn say_suo(line: &[u8], told: u32, h: Hand, text: &[u8], batch: &[u8]) {
    vectors_words::say::told(line, told);
    say_maker(&h.now.maker[..h.now.count.min(4)]);
    say_room(b"batch", batch);
    say_text(text);
}

// A SUO's rooms after its call, each with the length that was lent; the maker's numbers are in hand already.
fn suo_after(
    own: &mut [u8],
    h: Hand,
    line: &[u8],
    told: u32,
    text: [u8; 256],
    t: usize,
    batch: [u8; 256],
    b: usize,
) -> Hand {
    say_suo(line, told, h, beginning(&text, t), beginning(&batch, b));
    suo_kept(own, h, told, beginning(&text, t), beginning(&batch, b))
}

// suo CLOCK SOFTWARE METHOD STAMP AREA TEXT BATCH
pub fn suo(own: &mut [u8], h: Hand, line: &[u8]) -> Hand {
    let mut text = [b'.'; 256];
    let mut batch = [b'.'; 256];
    let mut maker = h.now.maker;
    let t = length_at(line, 6);
    let b = length_at(line, 7);
    let n = h.now.count.min(4);
    let told = suo_by(
        part(own, 0, h.now.held),
        &mut maker[..n],
        line,
        &mut text[..t],
        &mut batch[..b],
    );
    let after = Hand {
        now: Lengths { maker, ..h.now },
        ..h
    };
    suo_after(own, after, line, told, text, t, batch, b)
}

fn record_after(own: &mut [u8], line: &[u8], told: u32, batch: [u8; 256], b: usize) {
    vectors_words::say::told(line, told);
    vectors_words::say::changed(b"batch", part(own, BATCH, b), beginning(&batch, b));
    words(b"\n");
    copy_at(own, BATCH, beginning(&batch, b));
}

// record BYTES · both BYTES
pub fn record(own: &mut [u8], h: Hand, line: &[u8]) {
    let mut characters = [0u8; 512];
    let n = bytes_at(&mut characters, line, 1);
    let mut batch = room_of(own, BATCH);
    let b = h.now.batch.min(256);
    let told = desk_edge::builder::lp_add_record(&mut batch[0..b], &characters[0..n]);
    record_after(own, line, told, batch, b);
}
