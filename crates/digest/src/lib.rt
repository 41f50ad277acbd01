// The digest of a batch and the checksum of a message: the MAC of ISO 8731-1 over the internal code, as it runs.

#![tactic(auto)]

ghost use Rattle.std.specs.Prelude.{◌≡◌, ◌<◌, ◌≤◌, map, length, take};
ghost use Rattle.text.specs.Characters.{internal};
ghost use Rattle.des.specs.Joined.{joined_by};
ghost use Rattle.digest.specs.Mac.{checksum_of};
ghost use Rattle.digest.specs.Kept.{stripped};
ghost use Rattle.digest.specs.Running.{begun, pushed_all, fed_byte, fed_bytes, closed, answered, alike, took_bytes, took_last, ended};

// SKH leaves out the blanks at the end of each record, SKE keeps them.
#[derive(Clone, Copy, Debug, PartialEq, Eq)]
pub enum Method {
    Skh,
    Ske,
}

// What a digest keeps: the chain, the block so far, and the number of kept characters.
#[derive(Clone, Copy, Debug, PartialEq, Eq)]
pub struct State {
    pub chain: u64,
    pub block: u64,
    pub n: u64,
}

// A record on its way: the states at its start, after its last character that is no blank, after its last character.
#[derive(Clone, Copy, Debug, PartialEq, Eq)]
pub struct Running {
    pub start: State,
    pub solid: State,
    pub last: State,
}

#[tactic(auto, unfolding(crate::specs::Running::begun))]
pub fn start() -> State
    ensures { result ≡ begun }
{
    State {
        chain: 0,
        block: 0,
        n: 0,
    }
}

// The digest with one byte of the internal code more.
#[tactic(auto, using(crate::proofs::Folds::shifted, crate::proofs::Folds::fed_eighth, crate::proofs::Folds::fed_other))]
pub fn feed(table: &[u32; 512], keys: [u64; 16], s: State, b: u8) -> State
    ensures { result ≡ fed_byte (joined_by table.now keys) s b }
{
    let block = (s.block << 8) + u64::from(b);
    let n = s.n.wrapping_add(1);
    if s.n % 8 == 7 {
        let chain = des::rounds_by(table, keys, s.chain ^ block);
        State { chain, block: 0, n }
    } else {
        State { block, n, ..s }
    }
}

// A record's start.
#[tactic(auto, unfolding(crate::specs::Running::alike))]
pub fn at_record(s: State) -> Running
    ensures { result ≡ alike s }
{
    Running {
        start: s,
        solid: s,
        last: s,
    }
}

// The block on its way with more characters.
#[tactic(auto, using(crate::proofs::Blocks::packed_done))]
fn packed(block: u64, bytes: &[u8]) -> u64
    ensures { result ≡ pushed_all block (map internal bytes.now) }
{
    let mut x = block;
    for &b in bytes {
        x = (x << 8) + u64::from(text::internal_code(b));
    }
    x
}

// The digest with more characters. Between two blocks IP and its inverse undo each other, so the chain is kept without them until the last.
fn fed(table: &[u32; 512], keys: [u64; 16], s: State, bytes: &[u8]) -> State
    ensures { result ≡ fed_bytes (joined_by table.now keys) s (map internal bytes.now) }
{
    let n = s.n.wrapping_add(bytes.len() as u64);
    let Some((head, mut rest)) = bytes.split_at_checked((8 - s.n % 8) as usize) else {
        return State {
            block: packed(s.block, bytes),
            n,
            ..s
        };
    };
    let mut y = des::between(table, keys, des::first(s.chain ^ packed(s.block, head)));
    while let Some((block, after)) = rest.split_first_chunk::<8>() {
        y = des::between(table, keys, y ^ des::first(packed(0, block)));
        rest = after;
    }
    State {
        chain: des::last(y),
        block: packed(0, rest),
        n,
    }
}

// How many characters stand before the blanks at the end.
#[tactic(auto, using(crate::proofs::Strips::solid))]
fn solid_length(bytes: &[u8]) -> usize
    ensures { (result ≤ length bytes.now) × (take result bytes.now ≡ stripped bytes.now) }
{
    for last in (0..bytes.len()).rev() {
        if bytes[last] != b' ' {
            return last + 1;
        }
    }
    0
}

// A record with characters more: the solid state is the one before the blanks at their end, if they aren't blanks alone.
pub fn run(table: &[u32; 512], keys: [u64; 16], r: Running, bytes: &[u8]) -> Running
    ensures { result ≡ took_bytes (joined_by table.now keys) r bytes.now }
{
    let n = solid_length(bytes);
    if n == 0 {
        return Running {
            last: fed(table, keys, r.last, bytes),
            ..r
        };
    }
    let solid = fed(table, keys, r.last, &bytes[..n]);
    Running {
        solid,
        last: fed(table, keys, solid, &bytes[n..]),
        ..r
    }
}

// The solid state after characters more: the blanks at their end aren't enciphered.
fn solid_after(table: &[u32; 512], keys: [u64; 16], r: Running, bytes: &[u8]) -> State
    ensures { result ≡ (took_bytes (joined_by table.now keys) r bytes.now).solid }
{
    match solid_length(bytes) {
        0 => r.solid,
        n => fed(table, keys, r.last, &bytes[..n]),
    }
}

// A record with its last characters: the state is the one that its end leaves.
pub fn run_last(table: &[u32; 512], keys: [u64; 16], m: Method, r: Running, bytes: &[u8]) -> Running
    ensures { result ≡ took_last (joined_by table.now keys) m r bytes.now }
{
    let last = match m {
        Method::Skh => solid_after(table, keys, r, bytes),
        Method::Ske => fed(table, keys, r.last, bytes),
    };
    Running {
        solid: last,
        last,
        ..r
    }
}

// A record's end.
#[tactic(auto, unfolding(crate::specs::Running::ended))]
pub fn end_record(m: Method, r: Running) -> Running
    ensures { result ≡ ended m r }
{
    match m {
        Method::Skh => at_record(r.solid),
        Method::Ske => at_record(r.last),
    }
}

// The MAC where it stops here.
#[tactic(auto, using(crate::proofs::Folds::closed_full, crate::proofs::Folds::closed_shift))]
fn close(table: &[u32; 512], keys: [u64; 16], s: State) -> u64
    ensures { result ≡ closed (joined_by table.now keys) s }
{
    match s.n % 8 {
        0 => s.chain,
        k => des::rounds_by(table, keys, s.chain ^ (s.block << (64 - 8 * k))),
    }
}

// The digest's answer.
#[tactic(auto, unfolding(crate::specs::Running::answered, ground::specs::Choice::pick))]
pub fn finish(table: &[u32; 512], keys: [u64; 16], s: State) -> Option<u64>
    ensures { result ≡ answered (joined_by table.now keys) s }
{
    (s.n != 0).then(|| close(table, keys, s))
}

// The checksum of a message under a key.
pub fn checksum(key: u64, message: &[u8]) -> u64
    ensures { result ≡ checksum_of key message.now }
{
    let table = des::joined_table();
    let keys = des::schedule(key);
    let covered = &message[..message.len().min(144)];
    close(&table, keys, fed(&table, keys, start(), covered))
}
