// The desk's calls, each from a script's line.

#![tactic(auto)]

use vectors_words::{beginning, bytes_at, check_at, hex_at, small_at};

// The bytes before a call.
fn copy_of(bytes: &[u8]) -> [u8; 128] {
    let mut out = [0u8; 128];
    text::copy(&mut out, bytes);
    out
}

// How a desk's bytes, or those of what was sent, are after a call.
fn say_changed(name: &[u8], was: [u8; 128], is: &[u8]) {
    vectors_words::say::changed(name, beginning(&was, is.len()), is);
    vectors_words::say::words(b"\n");
}

// open OWN BANK PART1 PART2 CHECK GENERATION
pub fn open(held: &mut [u8], line: &[u8]) {
    let was = copy_of(held);
    let mut own = [0u8; 32];
    let mut bank = [0u8; 32];
    let n = bytes_at(&mut own, line, 1);
    let m = bytes_at(&mut bank, line, 2);
    let told = desk_edge::lp_held_open(
        held,
        &own[0..n],
        &bank[0..m],
        hex_at(line, 3),
        hex_at(line, 4),
        check_at(line, 5),
        small_at(line, 6),
    );
    vectors_words::say::told(line, told);
    say_changed(b"held", was, held);
}

// enter PART1 PART2 CHECK GENERATION
pub fn enter(held: &mut [u8], line: &[u8]) {
    let was = copy_of(held);
    let told = desk_edge::lp_held_enter(
        held,
        hex_at(line, 1),
        hex_at(line, 2),
        check_at(line, 3),
        small_at(line, 4),
    );
    vectors_words::say::told(line, told);
    say_changed(b"held", was, held);
}

// values N: into so many numbers, each of them 7 before.
pub fn values(held: &[u8], line: &[u8]) {
    let mut values = [7u32; 8];
    let n = (vectors_words::decimal_at(line, 1) as usize).min(8);
    let told = desk_edge::lp_held_values(held, &mut values[0..n]);
    vectors_words::say::told(line, told);
    vectors_words::say::words(b", values");
    vectors_words::say::numbers(&values[..n]);
    vectors_words::say::words(b"\n");
}

pub fn sent(first: &[u8], closing: &[u8], sent: &mut [u8], line: &[u8]) {
    let was = copy_of(sent);
    let told = desk_edge::lp_sent_of(first, closing, sent);
    vectors_words::say::told(line, told);
    say_changed(b"sent", was, sent);
}

fn checked(pte: bool, held: &mut [u8], sent: &[u8], reply: &[u8], word: &mut [u32]) -> u32 {
    if pte {
        desk_edge::lp_check_pte(held, sent, reply, word)
    } else {
        desk_edge::lp_check_esi(held, sent, reply, word)
    }
}

// esi, pte: so many words are lent, each of them 7 before.
pub fn check(pte: bool, held: &mut [u8], sent: &[u8], reply: &[u8], words: usize, line: &[u8]) {
    let was = copy_of(held);
    let mut word = [7u32; 8];
    let n = words.min(8);
    let told = checked(pte, held, sent, reply, &mut word[0..n]);
    vectors_words::say::told(line, told);
    vectors_words::say::words(b", word");
    vectors_words::say::numbers(&word[..n]);
    say_changed(b"held", was, held);
}
