// Published known answers of DES, each enciphered and deciphered again by the proved code: the four tables of
// NIST SP 800-17, a worked example, and Rivest's chain. docs/VECTORS.md says where each is from.

#![tactic(auto)]

use std::io;

const PERMUTATION_KEYS: [u64; 32] = [
    0x1046913489980131,
    0x1007103489988020,
    0x10071034C8980120,
    0x1046103489988020,
    0x1086911519190101,
    0x1086911519580101,
    0x5107B01519580101,
    0x1007B01519190101,
    0x3107915498080101,
    0x3107919498080101,
    0x10079115B9080140,
    0x3107911598080140,
    0x1007D01589980101,
    0x9107911589980101,
    0x9107D01589190101,
    0x1007D01598980120,
    0x1007940498190101,
    0x0107910491190401,
    0x0107910491190101,
    0x0107940491190401,
    0x19079210981A0101,
    0x1007911998190801,
    0x10079119981A0801,
    0x1007921098190101,
    0x100791159819010B,
    0x1004801598190101,
    0x1004801598190102,
    0x1004801598190108,
    0x1002911498100104,
    0x1002911598190104,
    0x1002911598100201,
    0x1002911698100101,
];

// Each a key and a block.
const SUBSTITUTION: [(u64, u64); 19] = [
    (0x7CA110454A1A6E57, 0x01A1D6D039776742),
    (0x0131D9619DC1376E, 0x5CD54CA83DEF57DA),
    (0x07A1133E4A0B2686, 0x0248D43806F67172),
    (0x3849674C2602319E, 0x51454B582DDF440A),
    (0x04B915BA43FEB5B6, 0x42FD443059577FA2),
    (0x0113B970FD34F2CE, 0x059B5E0851CF143A),
    (0x0170F175468FB5E6, 0x0756D8E0774761D2),
    (0x43297FAD38E373FE, 0x762514B829BF486A),
    (0x07A7137045DA2A16, 0x3BDD119049372802),
    (0x04689104C2FD3B2F, 0x26955F6835AF609A),
    (0x37D06BB516CB7546, 0x164D5E404F275232),
    (0x1F08260D1AC2465E, 0x6B056E18759F5CCA),
    (0x584023641ABA6176, 0x004BD6EF09176062),
    (0x025816164629B007, 0x480D39006EE762F2),
    (0x49793EBC79B3258F, 0x437540C8698F3CFA),
    (0x4FB05E1515AB73A7, 0x072D43A077075292),
    (0x49E95D6D4CA229BF, 0x02FE55778117F12A),
    (0x018310DC409B26D6, 0x1D9D5C5018F728C2),
    (0x1C587F1C13924FEF, 0x305532286D6F295A),
];

// Key, block, the block enciphered, and that deciphered again.
fn both_ways(rt: &HostRuntime, key: u64, block: u64) -> io::Result<()> {
    let c = des::encipher(key, block);
    let p = des::decipher(key, c);
    println!(rt; "{key:016X} {block:016X} {c:016X} {p:016X}")
}

fn variable_plaintext(rt: &HostRuntime) -> io::Result<()> {
    println!(rt; "variable plaintext")?;
    for i in 0..64u64 {
        both_ways(rt, 0x0101010101010101, 1u64 << (63 - i))?;
    }
    Ok(())
}

// Each bit of the key but the parity bits, which are the last of each byte.
fn variable_key(rt: &HostRuntime) -> io::Result<()> {
    println!(rt; "variable key")?;
    for i in 0..64u64 {
        if i % 8 != 7 {
            let bit = 1u64 << (63 - i);
            let parity = 1u64 << (56 - 8 * (i / 8));
            both_ways(rt, 0x0101010101010101 ^ bit ^ parity, 0)?;
        }
    }
    Ok(())
}

fn permutation(rt: &HostRuntime) -> io::Result<()> {
    println!(rt; "permutation")?;
    for &key in &PERMUTATION_KEYS {
        both_ways(rt, key, 0)?;
    }
    Ok(())
}

fn substitution(rt: &HostRuntime) -> io::Result<()> {
    println!(rt; "substitution")?;
    for &(key, block) in &SUBSTITUTION {
        both_ways(rt, key, block)?;
    }
    Ok(())
}

// Each number enciphers itself, and the next one deciphers itself.
fn rivest(rt: &HostRuntime) -> io::Result<()> {
    println!(rt; "Rivest")?;
    let mut x: u64 = 0x9474B8E8C73BCA7D;
    println!(rt; "{x:016X}")?;
    for _ in 0..8 {
        let y = des::encipher(x, x);
        x = des::decipher(y, y);
        println!(rt; "{y:016X}\n{x:016X}")?;
    }
    Ok(())
}

fn main(rt: HostRuntime) -> io::Result<()> {
    variable_plaintext(&rt)?;
    variable_key(&rt)?;
    permutation(&rt)?;
    substitution(&rt)?;
    println!(rt; "worked example")?;
    both_ways(&rt, 0x133457799BBCDFF1, 0x0123456789ABCDEF)?;
    rivest(&rt)
}
