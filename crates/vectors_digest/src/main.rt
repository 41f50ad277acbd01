// Digests and checksums that can be compared with another implementation: one labelled line each.

#![tactic(auto)]

ghost use Rattle.std.specs.Prelude.{◌<◌};

use digest::Method;
use std::io;

const KEY: u64 = 0x0123456789ABCDEF;

fn put_answer(rt: &HostRuntime, label: &str, a: Option<u64>) -> io::Result<()> {
    match a {
        Some(x) => println!(rt; "{label}: {x:016X}"),
        None => println!(rt; "{label}: no characters"),
    }
}

// Bytes as they are, without the internal code.
fn raw(rt: &HostRuntime, label: &str, bytes: &[u8]) -> io::Result<()> {
    let table = des::joined_table();
    let keys = des::schedule(KEY);
    let mut s = digest::start();
    for &b in bytes {
        s = digest::feed(&table, keys, s, b);
    }
    put_answer(rt, label, digest::finish(&table, keys, s))
}

// A batch of two records.
fn two(rt: &HostRuntime, label: &str, m: Method, first: &[u8], second: &[u8]) -> io::Result<()> {
    let table = des::joined_table();
    let keys = des::schedule(KEY);
    let a = digest::run(&table, keys, digest::at_record(digest::start()), first);
    let b = digest::run(&table, keys, digest::end_record(m, a), second);
    let r = digest::end_record(m, b);
    put_answer(rt, label, digest::finish(&table, keys, r.start))
}

// A batch of one record that comes in pieces.
fn cut(rt: &HostRuntime, label: &str, m: Method, bytes: &[u8], size: usize) -> io::Result<()>
    requires { 0 < size }
{
    let table = des::joined_table();
    let keys = des::schedule(KEY);
    let mut r = digest::at_record(digest::start());
    for piece in bytes.chunks(size) {
        r = digest::run(&table, keys, r, piece);
    }
    r = digest::end_record(m, r);
    put_answer(rt, label, digest::finish(&table, keys, r.start))
}

fn pieces(rt: &HostRuntime, bytes: &[u8]) -> io::Result<()> {
    cut(rt, "SKH whole", Method::Skh, bytes, 64)?;
    cut(rt, "SKH by 1", Method::Skh, bytes, 1)?;
    cut(rt, "SKH by 2", Method::Skh, bytes, 2)?;
    cut(rt, "SKH by 3", Method::Skh, bytes, 3)?;
    cut(rt, "SKH by 7", Method::Skh, bytes, 7)?;
    cut(rt, "SKH by 8", Method::Skh, bytes, 8)?;
    cut(rt, "SKH by 9", Method::Skh, bytes, 9)?;
    cut(rt, "SKE whole", Method::Ske, bytes, 64)?;
    cut(rt, "SKE by 1", Method::Ske, bytes, 1)?;
    cut(rt, "SKE by 2", Method::Ske, bytes, 2)?;
    cut(rt, "SKE by 3", Method::Ske, bytes, 3)?;
    cut(rt, "SKE by 7", Method::Ske, bytes, 7)?;
    cut(rt, "SKE by 8", Method::Ske, bytes, 8)?;
    cut(rt, "SKE by 9", Method::Ske, bytes, 9)
}

fn checksums(rt: &HostRuntime) -> io::Result<()> {
    let small = digest::checksum(KEY, &[0x61; 150]);
    let large = digest::checksum(KEY, &[0x41; 144]);
    let shorter = digest::checksum(KEY, &[0x41; 143]);
    println!(rt; "checksum, 150 of a: {small:016X}")?;
    println!(rt; "checksum, 144 of A: {large:016X}")?;
    println!(rt; "checksum, 143 of A: {shorter:016X}")
}

fn main(rt: HostRuntime) -> io::Result<()> {
    raw(&rt, "FIPS 113", b"7654321 Now is the time for ")?;
    two(&rt, "P2 SKH, AB__ and C", Method::Skh, b"AB  ", b"C")?;
    raw(&rt, "P2 ABC", b"ABC")?;
    two(&rt, "P2 SKE, AB__ and C", Method::Ske, b"AB  ", b"C")?;
    raw(&rt, "P2 AB__C", b"AB  C")?;
    cut(&rt, "P3 SKH, A#_", Method::Skh, b"A# ", 64)?;
    raw(&rt, "P3 A_", b"A ")?;
    cut(&rt, "P4 SKH, blanks", Method::Skh, b"      ", 64)?;
    pieces(&rt, b"Rechnung 4711, Muster & Sohn (Basel) #.   ")?;
    checksums(&rt)
}
