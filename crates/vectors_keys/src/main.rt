// The key vectors of document 001, appendix 3, a key maker whose clock is carried round, the parity of every byte in every place and of
// every bit: one labelled line each.

#![tactic(auto)]

use std::io;

// A label, whether the key's parity is odd, and the key.
fn put_parity(rt: &HostRuntime, label: &str, key: u64) -> io::Result<()> {
    let odd = if keys::has_odd_parity(key) {
        "odd parity"
    } else {
        "not odd parity"
    };
    println!(rt; "{label}, {odd}: {key:016X}")
}

// Document 001, appendix 3.
fn appendix(rt: &HostRuntime) -> io::Result<()> {
    let part1 = 0xF18C57209492FEB3;
    let part2 = 0xC71A7502021A022F;
    let transport = keys::combine(part1, part2);
    let check = keys::check_value(transport);
    let working = keys::working_key_0(transport);
    let once = des::decipher(transport, 0x0EC755E2853DF893);
    put_parity(rt, "part 1", part1)?;
    put_parity(rt, "part 2", part2)?;
    put_parity(rt, "transport key", transport)?;
    println!(rt; "check value: {check:06X}")?;
    println!(rt; "working key 0: {working:016X}")?;
    println!(rt; "one-time key: {once:016X}")
}

fn parities(rt: &HostRuntime) -> io::Result<()> {
    let low = keys::with_parity(0x3636363636363636);
    let high = keys::with_parity(0xFFFFFFFFFFFFFFFF);
    println!(rt; "36 in each byte gives: {low:016X}")?;
    println!(rt; "FF in each byte gives: {high:016X}")?;
    put_parity(rt, "36 in each byte", 0x3636363636363636)
}

// Thirty-two keys from the given one on, each byte 8 more than before, with their parity set.
fn from_bytes(rt: &HostRuntime, first: u64) -> io::Result<()> {
    let mut x = first;
    for _ in 0..32 {
        let key = keys::with_parity(x);
        println!(rt; "set: {key:016X}")?;
        x = x.wrapping_add(0x0808080808080808);
    }
    Ok(())
}

// All 256 values in each of the eight places, beside other ones.
fn every_byte(rt: &HostRuntime) -> io::Result<()> {
    for place in 0..8u32 {
        from_bytes(rt, 0x0001020304050607u64.rotate_left(8 * place))?;
    }
    Ok(())
}

// The transport key of appendix 3 with each of its bits turned alone.
fn every_bit(rt: &HostRuntime) -> io::Result<()> {
    for i in 0..64u64 {
        put_parity(rt, "one bit turned", 0x379723239789FD9D ^ (1u64 << i))?;
    }
    Ok(())
}

fn generations(rt: &HostRuntime) -> io::Result<()> {
    for g in [0u32, 1, 8, 9] {
        let next = keys::next_generation(g);
        println!(rt; "generation after {g}: {next}")?;
    }
    Ok(())
}

// The key at the clock value of the n keys made before it, and the seed after it.
fn make(rt: &HostRuntime, seed: u64, n: u64) -> io::Result<u64> {
    let mut v = seed;
    let clock = keys::clock_value(0xFFFFFFFFFFFFFFFE, n);
    let made = keys::take_key(0x133457799BBCDFF1, &mut v, clock);
    println!(rt; "clock value: {clock:016X}")?;
    println!(rt; "key made: {made:016X}")?;
    println!(rt; "seed after: {v:016X}")?;
    Ok(v)
}

// Three keys in a row: the clock is carried round before the third.
fn maker(rt: &HostRuntime) -> io::Result<()> {
    let mut seed = 0x0123456789ABCDEF;
    for n in 0..3u64 {
        seed = make(rt, seed, n)?;
    }
    Ok(())
}

fn main(rt: HostRuntime) -> io::Result<()> {
    appendix(&rt)?;
    parities(&rt)?;
    generations(&rt)?;
    maker(&rt)?;
    every_byte(&rt)?;
    every_bit(&rt)
}
