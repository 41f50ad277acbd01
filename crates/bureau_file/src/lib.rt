// The customer's desk as the 16,640 bytes of its file: the keys, the key maker, and what was sent and waits for a reply. Where each stands:
// docs/FORMAT.md. Every place is tested before it is used, so no call asks for anything; bytes of another length say zeros and stay.

#![tactic(auto)]

// An entry has 128 bytes, from byte 256 on.
const ENTRIES: usize = 128;

// The kinds of what was sent.
pub const ESI: u8 = b'E';

pub const BATCH: u8 = b'P';

// The oldest entries, which had to make room: how many they were, and of which files.
#[derive(Clone, Copy)]
pub struct Forgotten {
    pub count: u64,
    pub first: u64,
    pub last: u64,
}

// ---- places

// n bytes from a place on; none where they aren't all there.
fn part(d: &[u8], at: usize, n: usize) -> &[u8] {
    match at.checked_add(n) {
        Some(end) => d.get(at..end).unwrap_or(b""),
        None => b"",
    }
}

fn byte_at(d: &[u8], at: usize) -> u8 {
    d.get(at).copied().unwrap_or(0)
}

// Eight bytes, the lowest first.
fn number_at(d: &[u8], at: usize) -> u64 {
    match part(d, at, 8).first_chunk::<8>() {
        Some(bytes) => u64::from_le_bytes(*bytes),
        None => 0,
    }
}

fn put_bytes(d: &mut [u8], at: usize, s: &[u8]) {
    if let Some(room) = d.get_mut(at..) {
        text::copy(room, s);
    }
}

fn put_number(d: &mut [u8], at: usize, n: u64) {
    if part(d, at, 8).len() == 8 {
        put_bytes(d, at, &n.to_le_bytes());
    }
}

// Where an entry begins; past the end where there is none.
fn entry_at(i: usize) -> usize {
    if i < ENTRIES { 256 + 128 * i } else { 16640 }
}

fn in_entry(i: usize, at: usize) -> usize {
    entry_at(i).wrapping_add(at)
}

// ---- what the bytes say

pub fn held(d: &[u8]) -> desk::Held {
    desk_bytes::load_held(part(d, 8, 88))
}

pub fn maker(d: &[u8]) -> keys::KeyMaker {
    keys::KeyMaker {
        key: number_at(d, 96),
        seed: number_at(d, 104),
    }
}

pub fn software(d: &[u8]) -> [u8; 16] {
    let mut name = [0u8; 16];
    text::copy(&mut name, part(d, 112, 16));
    name
}

// The last stamp that was made; zeros, which no stamp is, where there is none.
pub fn last_stamp(d: &[u8]) -> [u8; 15] {
    let mut stamp = [0u8; 15];
    text::copy(&mut stamp, part(d, 128, 15));
    stamp
}

// How many files were made: the number of the last one.
pub fn files(d: &[u8]) -> u64 {
    number_at(d, 144)
}

pub fn entries(d: &[u8]) -> u64 {
    number_at(d, 152)
}

pub fn sent(d: &[u8], i: usize) -> desk::Sent {
    desk_bytes::load_sent(part(d, entry_at(i), 100))
}

// The number of the file that an entry is of; 0 where there is no such entry.
pub fn file_of(d: &[u8], i: usize) -> u64 {
    number_at(d, in_entry(i, 100))
}

pub fn kind_of(d: &[u8], i: usize) -> u8 {
    byte_at(d, in_entry(i, 108))
}

pub fn is_answered(d: &[u8], i: usize) -> bool {
    byte_at(d, in_entry(i, 109)) == 1
}

pub fn letter_of(d: &[u8], i: usize) -> u8 {
    byte_at(d, in_entry(i, 110))
}

// The bank's code as its four digits.
pub fn code_of(d: &[u8], i: usize) -> [u8; 4] {
    let mut code = [0u8; 4];
    text::copy(&mut code, part(d, in_entry(i, 112), 4));
    code
}

pub fn stamp_of(d: &[u8], i: usize) -> [u8; 15] {
    let mut stamp = [0u8; 15];
    text::copy(&mut stamp, part(d, in_entry(i, 52), 15));
    stamp
}

// ---- whether they are a desk's

fn is_zero(b: &[u8]) -> bool {
    b.iter().all(|&x| x == 0)
}

fn is_stamp(b: &[u8]) -> bool {
    b.len() == 15 && text::all_digits(b)
}

// The bank's word on an entry: nothing while it waits.
fn is_word(state: u8, letter: u8, code: &[u8]) -> bool {
    match state {
        0 => letter == 0 && is_zero(code),
        1 => matches!(letter, b'K' | b'E') && text::all_digits(code),
        _ => false,
    }
}

fn is_kind(kind: u8) -> bool {
    matches!(kind, ESI | BATCH)
}

// Whether the 128 bytes of an entry are just what one is written as, of a file that was made.
fn is_entry(e: &[u8], made: u64) -> bool {
    (1..=made).contains(&number_at(e, 100))
        && is_stamp(part(e, 52, 15))
        && is_kind(byte_at(e, 108))
        && is_word(byte_at(e, 109), byte_at(e, 110), part(e, 112, 4))
        && byte_at(e, 111) == 0
        && is_zero(part(e, 116, 12))
}

fn is_entry_there(d: &[u8], i: usize, count: u64) -> bool {
    let e = part(d, entry_at(i), 128);
    if (i as u64) < count {
        is_entry(e, files(d))
    } else {
        is_zero(e)
    }
}

fn are_entries(d: &[u8]) -> bool {
    let count = entries(d);
    count <= 128 && (0..ENTRIES).all(|i| is_entry_there(d, i, count))
}

fn is_last(stamp: &[u8]) -> bool {
    is_zero(stamp) || is_stamp(stamp)
}

// Whether bytes are a desk's file: no other bytes are ever taken for one.
pub fn is_desk(d: &[u8]) -> bool {
    d.len() == 16640
        && text::same_bytes(part(d, 0, 8), b"bureau 1")
        && desk_bytes::is_held(part(d, 8, 88))
        && customer::is_sound_name(part(d, 112, 16))
        && is_last(part(d, 128, 15))
        && byte_at(d, 143) == 0
        && is_zero(part(d, 160, 96))
        && are_entries(d)
}

// ---- what is written

pub fn set_held(d: &mut [u8], h: desk::Held) {
    let mut bytes = [0u8; 88];
    desk_bytes::store_held(&mut bytes, h);
    put_bytes(d, 8, &bytes);
}

pub fn set_maker(d: &mut [u8], m: keys::KeyMaker) {
    put_number(d, 96, m.key);
    put_number(d, 104, m.seed);
}

// A new desk over zeros.
pub fn begin(d: &mut [u8], h: desk::Held, m: keys::KeyMaker, software: [u8; 16]) {
    put_bytes(d, 0, b"bureau 1");
    set_held(d, h);
    set_maker(d, m);
    put_bytes(d, 112, &software);
}

// One file more, with the last of its stamps.
pub fn set_file(d: &mut [u8], number: u64, stamp: [u8; 15]) {
    put_bytes(d, 128, &stamp);
    put_number(d, 144, number);
}

// What the bank said of an entry, in a reply that passes.
pub fn set_answer(d: &mut [u8], i: usize, letter: u8, code: [u8; 4]) {
    put_bytes(d, in_entry(i, 109), &[1, letter, 0]);
    put_bytes(d, in_entry(i, 112), &code);
}

// One entry more, where there is room.
pub fn add(d: &mut [u8], s: desk::Sent, file: u64, kind: u8) {
    let count = entries(d);
    if 128 <= count {
        return;
    }
    let i = count as usize;
    let mut bytes = [0u8; 100];
    desk_bytes::store_sent(&mut bytes, s);
    put_bytes(d, entry_at(i), &bytes);
    put_number(d, in_entry(i, 100), file);
    put_bytes(d, in_entry(i, 108), &[kind, 0, 0, 0]);
    put_number(d, 152, count.wrapping_add(1));
}

// ---- room

fn entry(d: &[u8], i: usize) -> [u8; 128] {
    let mut e = [0u8; 128];
    text::copy(&mut e, part(d, entry_at(i), 128));
    e
}

fn put_entry(d: &mut [u8], i: usize, e: [u8; 128]) {
    put_bytes(d, entry_at(i), &e);
}

// An entry that waits goes to place `to`; the next place.
fn kept_at(d: &mut [u8], i: usize, to: usize) -> usize {
    if file_of(d, i) == 0 || is_answered(d, i) {
        return to;
    }
    let e = entry(d, i);
    put_entry(d, i, [0u8; 128]);
    put_entry(d, to, e);
    to.wrapping_add(1)
}

// An answered entry goes.
fn clear(d: &mut [u8], i: usize) {
    if is_answered(d, i) {
        put_entry(d, i, [0u8; 128]);
    }
}

// Leaves the entries that wait, in their order.
pub fn drop_answered(d: &mut [u8]) {
    let mut to = 0usize;
    for i in 0..ENTRIES {
        to = kept_at(d, i, to);
        clear(d, i);
    }
    put_number(d, 152, to as u64);
}

// Every entry by that many places to the front; the first ones go.
fn shift(d: &mut [u8], by: usize) {
    for i in 0..ENTRIES {
        let e = entry(d, i.wrapping_add(by));
        put_entry(d, i, e);
    }
}

// Makes room for that many entries: where there is too little, the oldest are forgotten.
pub fn make_room(d: &mut [u8], wanted: u64) -> Option<Forgotten> {
    let count = entries(d);
    let all = count.wrapping_add(wanted);
    if all <= 128 {
        return None;
    }
    let over = all - 128;
    let by = over as usize;
    let forgotten = Forgotten {
        count: over,
        first: file_of(d, 0),
        last: file_of(d, by.wrapping_sub(1)),
    };
    shift(d, by);
    put_number(d, 152, count.wrapping_sub(over));
    Some(forgotten)
}
