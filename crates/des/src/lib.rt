// DES (FIPS 46-3, ANSI X3.92): the round keys, the sixteen rounds, enciphering and deciphering.

#![tactic(auto)]

ghost use Rattle.std.specs.Prelude.{◌≡◌, reverse, ◌+◌, ◌*◌, ◌<◌, ◌^◌, get_or};
ghost use Rattle.des.specs.Tables.{initial, final, choice1, choice2, shifts};
ghost use Rattle.des.specs.Des.{permute, cipher, schedule_of, enciphered, deciphered};
ghost use Rattle.des.specs.Joined.{joined, joined_mixed, between_by, joined_by};
ghost use Rattle.des.specs.Quick.{delta_swap, wrapped, turned, turned_from};

mod tables;

// PC-1: IP puts the bits of a column side by side, as PC-1 does, so eight groups are left to move.
#[tactic(auto, using(crate::proofs::Keys::choice1_net_lem))]
fn choice1_of(x: u64) -> u64
    ensures { result ≡ permute choice1 64 x }
{
    let y = first(x);
    ((y << 24) & 0x00ff000000000000)
        ^ ((y << 16) & 0x000000ff00000000)
        ^ ((y << 20) & 0x000000000ff00000)
        ^ ((y >> 16) & 0x0000ff0000000000)
        ^ ((y >> 24) & 0x00000000f0000000)
        ^ ((y >> 28) & 0x00000000000ff000)
        ^ ((y >> 4) & 0x0000000000000ff0)
        ^ ((y >> 48) & 0x000000000000000f)
}

// PC-2, the bits that move alike moved together.
#[tactic(auto, using(crate::proofs::Keys::choice2_net_lem))]
fn choice2_of(x: u64) -> u64
    ensures { result ≡ permute choice2 56 x }
{
    (x & 0x200000010000)
        ^ ((x << 1) & 0x000080100000)
        ^ ((x << 2) & 0x002800000000)
        ^ ((x << 3) & 0x000000004440)
        ^ ((x << 4) & 0x000000001000)
        ^ ((x << 5) & 0x800000000000)
        ^ ((x << 7) & 0x400000000000)
        ^ ((x << 8) & 0x000000800100)
        ^ ((x << 10) & 0x000000088000)
        ^ ((x << 12) & 0x110000000000)
        ^ ((x << 17) & 0x000000040000)
        ^ ((x << 18) & 0x000000400000)
        ^ ((x >> 1) & 0x000000000800)
        ^ ((x >> 2) & 0x008008000000)
        ^ ((x >> 3) & 0x000400000008)
        ^ ((x >> 4) & 0x000000200000)
        ^ ((x >> 5) & 0x000000000020)
        ^ ((x >> 8) & 0x000000000200)
        ^ ((x >> 9) & 0x040000020000)
        ^ ((x >> 10) & 0x001004002010)
        ^ ((x >> 11) & 0x000220000000)
        ^ ((x >> 12) & 0x0a4000000000)
        ^ ((x >> 15) & 0x000000000080)
        ^ ((x >> 18) & 0x000042000004)
        ^ ((x >> 20) & 0x000100000000)
        ^ ((x >> 21) & 0x000010000000)
        ^ ((x >> 24) & 0x000000000001)
        ^ ((x >> 26) & 0x000000000002)
        ^ ((x >> 30) & 0x000001000000)
}

// How far both halves are turned before each round key.
const SHIFTS: [u64; 16] = [1, 1, 2, 2, 2, 2, 2, 2, 1, 2, 2, 2, 2, 2, 2, 1];

// Both halves of a 56-bit number turned left by one or two: the bits that stay in their half, and those that come round.
#[tactic(auto, using(crate::proofs::Keys::turned_by, crate::proofs::Keys::turned_lt))]
fn turn(x: u64, s: u64) -> u64
    requires { (x < 2 ^ 56) × (0 < s) × (s < 3) }
    ensures { (result ≡ turned s x) × (result < 2 ^ 56) }
{
    let round = 0x10000001 * (2 * s - 1);
    ((x << s) & (0xffffffffffffff ^ round)) ^ ((x >> (28 - s)) & round)
}

// The halves before each round key.
#[tactic(auto, using(crate::proofs::Keys::shift_low, crate::proofs::Keys::shift_high))]
fn turns(x: u64) -> [u64; 16]
    requires { x < 2 ^ 56 }
    ensures { result ≡ turned_from shifts x }
{
    let mut halves = [0; 16];
    let mut x = x;
    for i in 0..16 {
        x = turn(x, SHIFTS[i]);
        halves[i] = x;
    }
    halves
}

// The sixteen round keys, first to last. PC-2 has a loop of its own, so that it is compiled to do several keys at once.
#[tactic(auto, using(crate::proofs::Keys::choice1_lt, crate::proofs::Keys::schedule_turned))]
pub fn schedule(key: u64) -> [u64; 16]
    ensures { result ≡ schedule_of key }
{
    let mut ks = turns(choice1_of(key));
    for k in ks.iter_mut() {
        *k = choice2_of(*k);
    }
    ks
}

// The round keys last to first: with them the rounds decipher.
pub fn reversed(ks: [u64; 16]) -> [u64; 16]
    ensures { result ≡ reverse ks }
{
    let mut back = ks;
    back.reverse();
    back
}

// Bits change places with those d above them: five such swaps are IP, and backwards its inverse.
fn delta(x: u64, d: u64, m: u64) -> u64
    requires { d < 64 }
    ensures { result ≡ delta_swap d m x }
{
    let t = ((x >> d) ^ x) & m;
    x ^ t ^ (t << d)
}

// IP. The two halves of a block on its way stand in one number, the left one above.
#[tactic(auto, using(crate::proofs::Networks::initial_net))]
pub fn first(block: u64) -> u64
    ensures { result ≡ permute initial 64 block }
{
    let a = delta(block, 36, 0x0f0f0f0f);
    let b = delta(a, 48, 0x0000ffff);
    let c = delta(b, 30, 0xcccccccc);
    let d = delta(c, 24, 0xff00ff00);
    delta(d, 33, 0x55555555)
}

// The inverse of IP.
#[tactic(auto, using(crate::proofs::Networks::final_net))]
pub fn last(halves: u64) -> u64
    ensures { result ≡ permute final 64 halves }
{
    let a = delta(halves, 33, 0x55555555);
    let b = delta(a, 24, 0xff00ff00);
    let c = delta(b, 30, 0xcccccccc);
    let d = delta(c, 48, 0x0000ffff);
    delta(d, 36, 0x0f0f0f0f)
}

// The 32 bits with the last before them and the first behind them: E's groups of six overlap in it.
fn wrap(r: u64) -> u64
    ensures { result ≡ wrapped r }
{
    ((r % 2) << 33) ^ (r << 1) ^ (r >> 31)
}

// What box i adds for the six bits v.
fn entry(t: &[u32; 512], i: u64, v: u64) -> u64
    requires { (i < 8) × (v < 64) }
    ensures { (result ≡ get_or t.now (64 * i + v) 0) × (result < 2 ^ 32) }
{
    u64::from(t[(64 * i + v) as usize])
}

// The cipher function f(R, K): each entry is one box's share of it, P done.
#[tactic(auto, using(crate::proofs::Networks::boxes_joined), unfolding(crate::specs::Joined::joined_mixed))]
fn mix(t: &[u32; 512], r: u64, k: u64) -> u64
    requires { r < 2 ^ 32 }
    ensures { (result ≡ joined_mixed t.now r k) × (result < 2 ^ 32) }
{
    let x = wrap(r);
    let mut joined = 0;
    for i in 0..8 {
        joined ^= entry(t, i, ((x >> (28 - 4 * i)) ^ (k >> (42 - 6 * i))) % 64);
    }
    joined
}

// The boxes joined with P. Whoever enciphers many blocks takes the table once and lends it.
pub fn joined_table() -> [u32; 512]
    ensures { result ≡ joined }
{
    tables::JOINED
}

// Sixteen rounds and the exchange of the halves, between IP and its inverse, by a lent table.
#[tactic(auto, using(crate::proofs::Laws::rounds), unfolding(crate::specs::Joined::between_by))]
pub fn between(t: &[u32; 512], ks: [u64; 16], halves: u64) -> u64
    ensures { result ≡ between_by t.now ks halves }
{
    let mut l = halves >> 32;
    let mut r = halves % 0x1_0000_0000;
    for k in ks {
        (l, r) = (r, l ^ mix(t, r, k));
    }
    r * 0x1_0000_0000 + l
}

// A block under sixteen round keys, by a lent table.
#[tactic(auto, using(crate::proofs::Joined::between_by_lem))]
pub fn rounds_by(t: &[u32; 512], ks: [u64; 16], block: u64) -> u64
    ensures { result ≡ joined_by t.now ks block }
{
    last(between(t, ks, first(block)))
}

// A block under sixteen round keys.
#[tactic(auto, using(crate::proofs::Joined::joined_by_lem))]
pub fn rounds(ks: [u64; 16], block: u64) -> u64
    ensures { result ≡ cipher ks block }
{
    rounds_by(&joined_table(), ks, block)
}

pub fn encipher(key: u64, block: u64) -> u64
    ensures { result ≡ enciphered key block }
{
    rounds(schedule(key), block)
}

pub fn decipher(key: u64, block: u64) -> u64
    ensures { result ≡ deciphered key block }
{
    rounds(reversed(schedule(key)), block)
}
