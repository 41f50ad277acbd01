// Runs a script of calls on the builder, with the desk and the bank beside it, and writes what each of them gives and what it wrote. The
// independent model in rust/model runs the same script (its binary `build_script`, which also makes it); what it writes is this program's
// stdout.

#![tactic(auto)]

mod bank;
mod builds;
mod hand;
mod lines;
mod reading;

// The lines of a script, one after the other.
fn obey_all(
    script: &[u8],
    own: &mut [u8],
    kept: &mut [u8],
    table: &mut [u8],
    session: &mut [u8],
    file: &mut [u8],
) {
    let mut h = hand::empty();
    for line in script.split_inclusive(|&b| b == b'\n') {
        let line = vectors_words::without_lf(line);
        h = lines::obey(own, kept, table, session, file, h, line);
    }
}

fn main() {
    let mut script = [0u8; 262144];
    let n = io::read_full(0, &mut script);
    let mut own = [b'.'; 1280];
    let mut kept = [0u8; 50432];
    text::copy(&mut kept, &own);
    let mut table = [0u8; 49152];
    let mut session = [0u8; 472];
    let mut file = [0u8; 8192];
    obey_all(
        &script[..n],
        &mut own,
        &mut kept,
        &mut table,
        &mut session,
        &mut file,
    );
}
