// The bank's replies, ESI and PTE, composed into lent room.

#![tactic(auto)]

ghost use Rattle.std.specs.Prelude.{◌≡◌, [], ◌++◌, ◌+◌, ◌≤◌, length, take, replicate};
ghost use Rattle.arrayvec.specs.ArrayVec.{array_vec_len};
ghost use Rattle.ground.specs.Choice.{pick};
ghost use Rattle.text.specs.Characters.{blank};
ghost use Rattle.text.specs.Numbers.{decimal_digits};
ghost use Rattle.text.specs.Letters.{letters};
ghost use Rattle.reply.specs.Reply.{clock_text, notice_of, hex_or, sealed_flag, joined, opening_fields, full_fields, bare_fields};
ghost use Rattle.reply.specs.Reply.{body_fields, checksum_key, enclosed_key, reply_of, replied, written_length};

use arrayvec::ArrayVec;

// What a reply answers: ESI or PTE, bare or full, code, field and its contents, the opening's time, the bank and its software, the message
// (a frame's SUO) and the one that closed it (the VAR), the working key of the message's generation, its transport key, and the key to
// enclose.
#[derive(Clone, Copy)]
pub struct Answering {
    pub pte: bool,
    pub bare: bool,
    pub code: u32,
    pub field: u32,
    pub contents: message::Contents,
    pub time: u32,
    pub bank: [u8; 25],
    pub software: [u8; 16],
    pub message: [u8; 161],
    pub closing: [u8; 161],
    pub working: Option<u64>,
    pub transport: Option<u64>,
    pub enclosed: Option<u64>,
}

// A reply on its way into the room, field after field. Each function below puts its part at the end.
type Reply = ArrayVec<u8, 317>;

// kept apart from `notice`'s: one for both would be public, and would ask its callers for room
fn put(out: &mut Reply, part: &[u8])
    requires { array_vec_len out.old + length part.now ≤ 317 }
    ensures items { out.new.items ≡ out.old.items ++ part.now }
    ensures len { array_vec_len out.new ≡ array_vec_len out.old + length part.now }
{
    let _full = out.try_extend_from_slice(part);
}

// The lowest digits of a number.
fn digits<const N: usize>(x: u32) -> [u8; N]
    ensures { result ≡ decimal_digits N x }
{
    let mut out = [0; N];
    text::write_number(&mut out, u64::from(x));
    out
}

// Fields 1 to 3.
#[tactic(auto, unfolding(ground::specs::Choice::pick, text::specs::Letters::letters))]
fn tag_of(pte: bool) -> [u8; 11]
    ensures { result ≡ pick pte (letters ">>PTE317") (letters ">>ESI237") ++ letters "120" }
{
    if pte {
        *b">>PTE317120"
    } else {
        *b">>ESI237120"
    }
}

// Fields 1 to 7.
fn put_opening(out: &mut Reply, a: &Answering)
    requires { array_vec_len out.old + 35 ≤ 317 }
    ensures items { out.new.items ≡ out.old.items ++ joined (opening_fields a.now) }
    ensures len { array_vec_len out.new ≡ array_vec_len out.old + 35 }
{
    put(out, &tag_of(a.pte));
    put(out, &notice::success(a.code));
    put(out, &digits::<4>(a.code));
    put(out, &a.software);
    put(out, b"SMH");
}

// Fields 8 to 16, of the message and of the one that closed it.
fn put_full(out: &mut Reply, a: &Answering)
    requires { array_vec_len out.old + 109 ≤ 317 }
    ensures items { out.new.items ≡ out.old.items ++ joined (full_fields a.now) }
    ensures len { array_vec_len out.new ≡ array_vec_len out.old + 109 }
{
    put(out, &a.message[60..85]);
    put(out, &a.message[35..60]);
    put(out, &a.message[85..103]);
    put(out, &[b' '; 9]);
    put(out, &a.message[112..128]);
    put(out, &a.closing[128..144]);
}

fn put_bare(out: &mut Reply, a: &Answering)
    requires { array_vec_len out.old + 109 ≤ 317 }
    ensures items { out.new.items ≡ out.old.items ++ joined (bare_fields a.now) }
    ensures len { array_vec_len out.new ≡ array_vec_len out.old + 109 }
{
    put(out, &[b' '; 25]);
    put(out, &a.bank);
    put(out, b"00000000000000000");
    put(out, &[b' '; 42]);
}

#[tactic(auto, unfolding(ground::specs::Choice::pick))]
fn put_body(out: &mut Reply, a: &Answering)
    requires { array_vec_len out.old + 109 ≤ 317 }
    ensures items { out.new.items ≡ out.old.items ++ joined (body_fields a.now) }
    ensures len { array_vec_len out.new ≡ array_vec_len out.old + 109 }
{
    if a.bare {
        put_bare(out, a);
    } else {
        put_full(out, a);
    }
}

// The checksum of the characters before it.
#[tactic(auto, using(crate::proofs::Keys::sum_first), unfolding(crate::specs::Reply::checksum_key, crate::specs::Reply::summed, ground::specs::Choice::pick))]
fn checksum_key(a: &Answering, written: &[u8]) -> Option<u64>
    ensures { result ≡ checksum_key a.now (take 144 written.now) }
{
    if a.bare {
        return None;
    }
    let key = a.working?;
    Some(digest::checksum(key, written))
}

#[tactic(auto, unfolding(crate::specs::Reply::enclosed_key, crate::specs::Reply::sealed, ground::specs::Choice::pick))]
fn enclosed_key(a: &Answering) -> Option<u64>
    ensures { result ≡ enclosed_key a.now }
{
    if a.bare {
        return None;
    }
    let transport = a.transport?;
    let key = a.enclosed?;
    Some(des::encipher(transport, key))
}

// Sixteen hex digits of a key's number, or blanks.
#[tactic(auto, unfolding(crate::specs::Reply::hex_or))]
fn hex_or(key: Option<u64>) -> [u8; 16]
    ensures { result ≡ hex_or key }
{
    match key {
        None => [b' '; 16],
        Some(x) => text::hex_digits(x),
    }
}

// Whether a key is enclosed.
#[tactic(auto, unfolding(crate::specs::Reply::sealed_flag, text::specs::Letters::letters))]
fn flag(key: Option<u64>) -> [u8; 1]
    ensures { result ≡ sealed_flag key }
{
    match key {
        None => *b"0",
        Some(_) => *b"1",
    }
}

// HH:MM:SS and a blank.
#[tactic(auto, unfolding(crate::specs::Reply::clock_text, text::specs::Letters::letters))]
fn put_clock(out: &mut Reply, time: u32)
    requires { array_vec_len out.old + 9 ≤ 317 }
    ensures items { out.new.items ≡ out.old.items ++ (clock_text time ++ letters " ") }
    ensures len { array_vec_len out.new ≡ array_vec_len out.old + 9 }
{
    put(out, &digits::<2>(time / 10000));
    put(out, b":");
    put(out, &digits::<2>(time / 100 % 100));
    put(out, b":");
    put(out, &digits::<2>(time % 100));
    put(out, b" ");
}

// ILMOITUS: the time, a blank, the text, and blanks up to its end.
fn put_notice(out: &mut Reply, a: &Answering)
    requires { array_vec_len out.old + 60 ≤ 317 }
    ensures items { out.new.items ≡ out.old.items ++ notice_of a.now }
    ensures len { array_vec_len out.new ≡ array_vec_len out.old + 60 }
{
    put_clock(out, a.time);
    put(out, &notice::text(a.code, a.field, a.contents));
}

// Field 21 of a PTE.
#[tactic(auto, unfolding(ground::specs::Choice::pick))]
fn put_receipt(out: &mut Reply, a: &Answering)
    requires { array_vec_len out.old + 80 ≤ 317 }
    ensures { out.new.items ≡ out.old.items ++ pick a.now.pte (replicate 80 blank) [] }
{
    if a.pte {
        put(out, &[b' '; 80]);
    }
}

// The whole reply: the checksum is that of the characters before it.
fn composed(a: &Answering) -> Reply
    ensures { result.items ≡ reply_of a.now }
{
    let mut out = ArrayVec::new();
    put_opening(&mut out, a);
    put_body(&mut out, a);
    let sum = checksum_key(a, &out);
    put(&mut out, &hex_or(sum));
    let key = enclosed_key(a);
    put(&mut out, &flag(key));
    put(&mut out, &hex_or(key));
    put_notice(&mut out, a);
    put_receipt(&mut out, a);
    out
}

// How long a reply is.
#[tactic(auto, unfolding(ground::specs::Choice::pick))]
fn length_of(pte: bool) -> usize
    ensures { result ≡ pick pte 317 237 }
{
    if pte { 317 } else { 237 }
}

// A reply written over the start of the room, and its length; nothing is composed where the room is too short.
pub fn write(out: &mut [u8], a: Answering) -> usize
    ensures { (result ≡ written_length a out.old) × (out.new ≡ replied a out.old) }
{
    let length = length_of(a.pte);
    if out.len() < length {
        return 0;
    }
    text::copy(out, &composed(&a));
    length
}
