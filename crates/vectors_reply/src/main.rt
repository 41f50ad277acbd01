// Replies as they look: document 01's, each code, each field that a code names, keys held or not, and rooms too short.
// Each line is what `write` gave, and the whole room of 320 bytes, which held dots before.
// Then the messages of appendix 3 of document 001 with their checksums.

#![tactic(auto)]

use reply::Answering;

fn say(words: &[u8]) {
    io::write_all(1, words);
}

// A reply into the first bytes of a room.
fn write_in(room: &mut [u8], size: usize, a: Answering) -> usize {
    match room.get_mut(..size) {
        Some(room) => reply::write(room, a),
        None => 0,
    }
}

fn show(a: Answering, size: usize) {
    let mut room = [b'.'; 320];
    let n = write_in(&mut room, size, a);
    let mut number = [0u8; 3];
    text::write_number(&mut number, n as u64);
    say(&number);
    say(b" ");
    say(&room);
    say(b"\n");
}

// What stands in the fields of the message that is answered.
const MESSAGE: [u8; 161] =
    *b">>SUO128120 0000SOFTWARE 1      SKH003701234567     BANKQUALCUSTOMER-1       BRANCH 112930415101530002S         0123456789ABCDEF                                 ";

// Bank, software and time of document 01.
fn answering_with(
    pte: bool,
    bare: bool,
    code: u32,
    field: u32,
    contents: message::Contents,
    keys: [Option<u64>; 3],
) -> Answering {
    let [working, transport, enclosed] = keys;
    Answering {
        pte,
        bare,
        code,
        field,
        contents,
        time: 91500,
        bank: *b"003701234567             ",
        software: *b"FRONT 4         ",
        message: MESSAGE,
        closing: *b">>VAR161120 0000SOFTWARE 1      SMH003701234567     BANKQUALCUSTOMER-1       BRANCH 112930415101530003A         0123456789ABCDEFFEDCBA987654321000112233445566771",
        working,
        transport,
        enclosed,
    }
}

fn answering(pte: bool, bare: bool, code: u32, field: u32, keys: [Option<u64>; 3]) -> Answering {
    let contents = message::field_contents(field, MESSAGE, 161);
    answering_with(pte, bare, code, field, contents, keys)
}

fn no_keys() -> [Option<u64>; 3] {
    [None, None, None]
}

fn keys() -> [Option<u64>; 3] {
    [Some(0x0123456789ABCDEF), Some(0x133457799BBCDFF1), None]
}

fn keyed(pte: bool, bare: bool, code: u32, field: u32, size: usize) {
    show(answering(pte, bare, code, field, keys()), size);
}

// Document 01's whole reply: the file is HELLO.
fn show_hello() {
    let mut hello = [0u8; 161];
    text::copy(&mut hello, b"HELLO");
    let contents = message::field_contents(10, hello, 5);
    show(
        answering_with(false, true, 1010, 10, contents, no_keys()),
        320,
    );
}

// A code, full or bare as it is, once as an ESI and once as a PTE.
fn show_code(code: u32) {
    let bare = notice::is_bare(code);
    if notice::is_accepted(code) {
        say(b"K\n");
    } else {
        say(b"E\n");
    }
    keyed(false, bare, code, 10, 320);
    keyed(true, bare, code, 10, 320);
}

// Every code, and some numbers that are none.
fn show_codes() {
    for code in 1000..1039 {
        show_code(code);
    }
}

// The notice of a code with each number that a field or a group of fields can have, and with numbers that none has.
fn show_notice(code: u32, field: u32) {
    let mut room = [b'.'; 237];
    let a = answering(false, notice::is_bare(code), code, field, no_keys());
    reply::write(&mut room, a);
    let mut number = [0u8; 3];
    text::write_number(&mut number, field as u64);
    say(&number);
    say(b" ");
    say(&room[177..237]);
    say(b"\n");
}

fn show_notices(code: u32) {
    for field in 0..221 {
        if field % 10 < 4 {
            show_notice(code, field);
        }
    }
}

fn enclosing(working: Option<u64>, transport: Option<u64>, enclosed: Option<u64>, bare: bool) {
    show(
        answering(true, bare, 1003, 0, [working, transport, enclosed]),
        320,
    );
}

// A key is enclosed where there is one and a transport key; the checksum needs a working key. A bare reply has neither.
fn show_keys(working: Option<u64>, bare: bool) {
    let transport = Some(0x133457799BBCDFF1);
    let enclosed = Some(0x0E329232EA6D0D73);
    enclosing(working, transport, enclosed, bare);
    enclosing(working, transport, None, bare);
    enclosing(working, None, enclosed, bare);
}

// Rooms one byte too short, and long enough.
fn show_rooms() {
    keyed(false, false, 1001, 0, 236);
    keyed(false, false, 1001, 0, 237);
    keyed(true, false, 1001, 0, 316);
    keyed(true, false, 1001, 0, 317);
}

// The messages of appendix 3, with the customer's identity cut to the 17 characters of its field (18 are printed there): ESI and VAR of the
// customer whole, and of the bank's replies the characters before the checksum.
const ESI: [u8; 161] =
    *b">>ESI161120 0000KERMIT      3.01SMH003701234567             99910000011111111        00941015073000001                                          4B69B6DD4F72C75B0";

const SUO: [u8; 161] =
    *b">>SUO128120 0000KERMIT      3.01SKH003701234567             99910000011111111        00941015073125001S         0EC755E2853DF893                                 ";

const VAR: [u8; 161] =
    *b">>VAR161120 0000KERMIT      3.01SMH003701234567             99910000011111111        00941015073125001S         0EC755E2853DF8934954F0194C2B696D91B78D377B4F70D10";

const BANK_ESI: [u8; 144] =
    *b">>ESI237120K1002PANKKILINJA 1.20SMH99910000011111111        003701234567             00941015073000001                                          ";

const PTE: [u8; 144] =
    *b">>PTE317120K1002PANKKILINJA 1.20SMH99910000011111111        003701234567             00941015073125001S         0EC755E2853DF8934954F0194C2B696D";

fn as_printed(sum: &[u8], printed: &[u8]) {
    say(sum);
    if sum == printed {
        say(b" as printed\n");
    } else {
        say(b" where printed is ");
        say(printed);
        say(b"\n");
    }
}

// The checksum of a message under working key 0, beside the printed one.
fn show_printed(name: &[u8], message: &[u8], printed: &[u8]) {
    let sum = text::hex_digits(digest::checksum(0xAEBAE983D6406D07, message));
    say(name);
    as_printed(&sum, printed);
}

// The reply of appendix 3 as `write` composes it.
fn composed(pte: bool, message: [u8; 161], closing: [u8; 161]) -> [u8; 320] {
    let mut room = [b'.'; 320];
    let contents = message::no_contents();
    reply::write(
        &mut room,
        Answering {
            pte,
            bare: false,
            code: 1002,
            field: 0,
            contents,
            time: 73215,
            bank: *b"003701234567             ",
            software: *b"PANKKILINJA 1.20",
            message,
            closing,
            working: Some(0xAEBAE983D6406D07),
            transport: None,
            enclosed: None,
        },
    );
    room
}

// Its first characters and its checksum.
fn show_composed(name: &[u8], room: [u8; 320], start: &[u8], printed: &[u8]) {
    say(name);
    if text::same_bytes(&room[0..144], start) {
        say(b"composed as printed, ");
    } else {
        say(b"composed otherwise, ");
    }
    as_printed(&room[144..160], printed);
}

fn show_customers() {
    show_printed(b"ESIa ", &ESI, b"4B69B6DD4F72C75B");
    show_printed(b"VARa ", &VAR, b"91B78D377B4F70D1");
}

fn show_banks() {
    show_printed(b"ESIp ", &BANK_ESI, b"FC13A419E2BBE1C5");
    show_printed(b"PTE ", &PTE, b"359D012A52A6FD2E");
}

fn show_bank_esi() {
    let room = composed(false, ESI, ESI);
    show_composed(b"ESIp ", room, &BANK_ESI, b"FC13A419E2BBE1C5");
}

fn show_pte() {
    let room = composed(true, SUO, VAR);
    show_composed(b"PTE ", room, &PTE, b"359D012A52A6FD2E");
}

fn main() {
    show_hello();
    show_codes();
    show_notices(1010);
    show_notices(1011);
    show_notices(1026);
    show_keys(None, false);
    show_keys(Some(0x7CA110454A1A6E57), false);
    show_keys(Some(0x7CA110454A1A6E57), true);
    show_rooms();
    show_customers();
    show_banks();
    show_bank_esi();
    show_pte();
}
