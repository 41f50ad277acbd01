// A desk and what was sent as bytes that a bureau keeps between calls. The offsets are those of docs/FORMAT.md.

#![tactic(auto)]

ghost use Rattle.std.specs.Prelude.{◌≡◌, ◌+◌, ◌≤◌, length};
ghost use Rattle.codec.specs.Layout.{perhaps, enc, dec, ok, Sized};
ghost use Rattle.splices.specs.Bytes.{splice};
ghost use Rattle.codec.specs.Rows.{cells};
ghost use Rattle.desk_bytes.specs.Layout.{held_size, sent_size, keys_width, before_width, numbered_shape, keys_shape, before_from, keys_from, keys_to};
ghost use Rattle.desk_bytes.specs.Layout.{names_shape, blocks_shape, names_to, blocks_to};
ghost use Rattle.desk_bytes.specs.Bytes.{sound_before, sound_keys, sound_held, held_bytes, held_of, is_held, held_in, held_stored, sent_bytes, sent_of};
ghost use Rattle.desk_bytes.specs.Bytes.{nothing_sent, sent_in, sent_stored};

// The bytes that a desk takes, and what was sent.
const HELD: usize = 88;

const SENT: usize = 100;

// ---- reading, where the bytes lie within the slice

fn before_in(b: &[u8], at: usize) -> Option<desk::Numbered>
    requires { at + before_width ≤ length b.now }
    ensures { result ≡ before_from (dec (perhaps numbered_shape) at b.now) }
{
    if codec::read1(b, at) != 1 {
        return None;
    }
    let at = at + 1;
    let generation = codec::read1(b, at);
    let at = at + 1;
    let key = codec::read8(b, at);
    Some(desk::Numbered { generation, key })
}

fn keys_in(b: &[u8], at: usize) -> desk::Keys
    requires { at + keys_width ≤ length b.now }
    ensures { result ≡ keys_from (dec keys_shape at b.now) }
{
    let generation = codec::read1(b, at);
    let at = at + 1;
    let key = codec::read8(b, at);
    let at = at + 8;
    let before = before_in(b, at);
    desk::Keys {
        generation,
        key,
        before,
    }
}

fn held_in(b: &[u8]) -> desk::Held
    requires { length b.now ≡ held_size }
    ensures { result ≡ held_of b.now }
{
    let mut own = [0u8; 25];
    let mut bank = [0u8; 25];
    codec::read_bytes(&mut own, b, 0);
    codec::read_bytes(&mut bank, b, 25);
    desk::Held {
        own,
        bank,
        transport: keys_in(b, 50),
        working: keys_in(b, 69),
    }
}

// ---- exactness and soundness

// Whether the 10 bytes of the key before are just what it is written as: all zero, unless it is there.
fn is_exact_before(b: &[u8], at: usize) -> bool
    requires { at + before_width ≤ length b.now }
    ensures { result ≡ ok (perhaps numbered_shape) at b.now }
{
    if codec::read1(b, at) == 1 {
        return true;
    }
    let zeros = [0u8; 10];
    codec::same_at(&zeros, b, at)
}

#[tactic(auto, unfolding(crate::specs::Bytes::sound_before, ground::specs::Choice::both))]
fn is_sound_before(current: u32, k: Option<desk::Numbered>) -> bool
    ensures { result ≡ sound_before current k }
{
    k.is_none_or(|n| {
        n.generation <= 9
            && keys::next_generation(n.generation) == current
            && keys::has_odd_parity(n.key)
    })
}

#[tactic(auto, unfolding(crate::specs::Bytes::sound_keys, ground::specs::Choice::both))]
fn is_sound_keys(k: desk::Keys) -> bool
    ensures { result ≡ sound_keys k }
{
    k.generation <= 9 && keys::has_odd_parity(k.key) && is_sound_before(k.generation, k.before)
}

#[tactic(auto, unfolding(crate::specs::Bytes::sound_held, ground::specs::Choice::both))]
fn is_sound_held(h: desk::Held) -> bool
    ensures { result ≡ sound_held h }
{
    customer::is_sound_who(&h.own)
        && customer::is_sound_who(&h.bank)
        && is_sound_keys(h.transport)
        && is_sound_keys(h.working)
}

// Whether bytes are a desk's.
pub fn is_held(b: &[u8]) -> bool
    ensures { result ≡ is_held b.now }
{
    if b.len() != HELD {
        return false;
    }
    if !is_exact_before(b, 59) {
        return false;
    }
    if !is_exact_before(b, 78) {
        return false;
    }
    is_sound_held(held_in(b))
}

// The desk that bytes say; bytes that are none say no desk.
#[tactic(auto, unfolding(crate::specs::Bytes::held_in, ground::specs::Choice::pick))]
pub fn load_held(b: &[u8]) -> desk::Held
    ensures { result ≡ held_in b.now }
{
    if is_held(b) {
        held_in(b)
    } else {
        desk::no_desk()
    }
}

// ---- writing

// The numbers of the keys of one kind: zeros where there is none before.
fn keys_row(k: desk::Keys) -> [u64; 5]
    ensures { result ≡ cells keys_shape (keys_to k) }
{
    match k.before {
        None => [k.generation as u64, k.key, 0, 0, 0],
        Some(n) => [k.generation as u64, k.key, 1, n.generation as u64, n.key],
    }
}

fn put_held(b: &mut [u8], h: desk::Held)
    requires { length b.old ≡ held_size }
    ensures { b.new ≡ held_bytes h }
{
    let transport = keys_row(h.transport);
    let working = keys_row(h.working);
    codec::write_bytes(b, 0, &h.own);
    codec::write_bytes(b, 25, &h.bank);
    codec::write_row(b, 50, &[1, 8, 1, 1, 8], &transport);
    codec::write_row(b, 69, &[1, 8, 1, 1, 8], &working);
}

// Writes a desk over bytes of its length; others stay.
#[tactic(auto, unfolding(crate::specs::Bytes::held_stored, ground::specs::Choice::pick))]
pub fn store_held(b: &mut [u8], h: desk::Held)
    ensures { b.new ≡ held_stored b.old h }
{
    if b.len() == HELD {
        put_held(b, h);
    }
}

// ---- what was sent

fn sent_in(b: &[u8]) -> desk::Sent
    requires { length b.now ≡ sent_size }
    ensures { result ≡ sent_of b.now }
{
    let mut receiver = [0u8; 25];
    let mut sender = [0u8; 25];
    let mut stamp = [0u8; 15];
    let mut once = [0u8; 16];
    let mut digest = [0u8; 16];
    codec::read_bytes(&mut receiver, b, 0);
    codec::read_bytes(&mut sender, b, 25);
    codec::read_bytes(&mut stamp, b, 52);
    codec::read_bytes(&mut once, b, 68);
    codec::read_bytes(&mut digest, b, 84);
    desk::Sent {
        receiver,
        sender,
        transport: b[50],
        working: b[51],
        stamp,
        area: b[67],
        once,
        digest,
    }
}

// Bytes of another length say nothing.
fn nothing_sent() -> desk::Sent
    ensures { result ≡ nothing_sent }
{
    desk::Sent {
        receiver: [0; 25],
        sender: [0; 25],
        transport: 0,
        working: 0,
        stamp: [0; 15],
        area: 0,
        once: [0; 16],
        digest: [0; 16],
    }
}

// What was sent, as bytes say it.
#[tactic(auto, unfolding(crate::specs::Bytes::sent_in, ground::specs::Choice::pick))]
pub fn load_sent(b: &[u8]) -> desk::Sent
    ensures { result ≡ sent_in b.now }
{
    if b.len() == SENT {
        sent_in(b)
    } else {
        nothing_sent()
    }
}

fn put_names(b: &mut [u8], s: desk::Sent)
    requires { length b.old ≡ sent_size }
    ensures written { b.new ≡ splice 0 (enc names_shape (names_to s)) b.old }
    ensures sizes { Sized names_shape (names_to s) }
{
    codec::write_bytes(b, 0, &s.receiver);
    codec::write_bytes(b, 25, &s.sender);
    codec::write1(b, 50, s.transport as u32);
    codec::write1(b, 51, s.working as u32);
}

fn put_blocks(b: &mut [u8], s: desk::Sent)
    requires { length b.old ≡ sent_size }
    ensures written { b.new ≡ splice 52 (enc blocks_shape (blocks_to s)) b.old }
    ensures sizes { Sized blocks_shape (blocks_to s) }
{
    codec::write_bytes(b, 52, &s.stamp);
    codec::write1(b, 67, s.area as u32);
    codec::write_bytes(b, 68, &s.once);
    codec::write_bytes(b, 84, &s.digest);
}

fn put_sent(b: &mut [u8], s: desk::Sent)
    requires { length b.old ≡ sent_size }
    ensures { b.new ≡ sent_bytes s }
{
    put_names(b, s);
    put_blocks(b, s);
}

// Writes what was sent over bytes of its length; others stay.
#[tactic(auto, unfolding(crate::specs::Bytes::sent_stored, ground::specs::Choice::pick))]
pub fn store_sent(b: &mut [u8], s: desk::Sent)
    ensures { b.new ≡ sent_stored b.old s }
{
    if b.len() == SENT {
        put_sent(b, s);
    }
}
