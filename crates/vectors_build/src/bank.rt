// The calls of the bank's side that keep a table or open a file, each from its line.
use crate::hand::Hand;
use vectors_words::{check_at, hex_at, small_at, who_at};

// What a call gave, and the line's end.
fn say(line: &[u8], told: u32) {
    vectors_words::say::told(line, told);
    vectors_words::say::words(b"\n");
}

// setup BANK SOFTWARE FLOOR K V HOLIDAY…
pub fn set_up(table: &mut [u8], line: &[u8]) {
    let bank = who_at(line, 1);
    let mut software = [0u8; 16];
    vectors_words::bytes_at(&mut software, line, 2);
    let mut days = [0u32; 208];
    let n = vectors_words::holidays_at(&mut days, line);
    let told = edge::lp_set_up(
        table,
        &bank,
        &software,
        small_at(line, 3),
        hex_at(line, 4),
        hex_at(line, 5),
        &days[..n],
    );
    say(line, told);
}

// Whether a word is given: '-' stands where it is left out.
fn is_given(line: &[u8], number: usize) -> u32 {
    match vectors_words::word_at(line, number) {
        [b'-', ..] => 0,
        _ => 1,
    }
}

// add DATE WHO PART1 PART2 CHECK GENERATION TYPES AGREED LEAVE LENGTH
pub fn add(table: &mut [u8], line: &[u8]) {
    let who = who_at(line, 2);
    let told = edge::lp_add(
        table,
        small_at(line, 1),
        &who,
        hex_at(line, 3),
        hex_at(line, 4),
        check_at(line, 5),
        small_at(line, 6),
        small_at(line, 7),
        small_at(line, 8),
        small_at(line, 9),
        is_given(line, 10),
        small_at(line, 10),
    );
    say(line, told);
}

// key DATE WHO PART1 PART2 CHECK GENERATION
pub fn enter(table: &mut [u8], line: &[u8]) {
    let who = who_at(line, 2);
    let told = edge::lp_enter(
        table,
        small_at(line, 1),
        &who,
        hex_at(line, 3),
        hex_at(line, 4),
        check_at(line, 5),
        small_at(line, 6),
    );
    say(line, told);
}

// order DATE WHO CLOCK
pub fn order(table: &mut [u8], line: &[u8]) {
    let who = who_at(line, 2);
    say(
        line,
        edge::lp_order(table, small_at(line, 1), &who, hex_at(line, 3)),
    );
}

// begin DATE TIME TYPE CLOCK; the file in hand is then empty.
pub fn begin(table: &mut [u8], session: &mut [u8], h: Hand, line: &[u8]) -> Hand {
    let told = edge::lp_open(
        table,
        session,
        small_at(line, 1),
        small_at(line, 2),
        small_at(line, 3),
        hex_at(line, 4),
    );
    say(line, told);
    Hand {
        length: 0,
        taken: 0,
        ..h
    }
}

// size COUNT: the session's count of bytes (docs/FORMAT.md, line.size), lowest byte first.
pub fn size(session: &mut [u8], line: &[u8]) {
    vectors_words::copy_at(session, 57, &small_at(line, 1).to_le_bytes());
}
