// Runs a script of calls on a desk, and writes what each of them gives and the bytes that it changed. The independent model in
// rust/model runs the same script (its binary `desk_script`, which also makes it); what it writes is this program's stdout.

#![tactic(auto)]

mod lines;

// The lines of a script, one after the other.
fn obey_all(
    script: &[u8],
    held: &mut [u8],
    sent: &mut [u8],
    reply: &mut [u8],
    said: &mut [u8],
    kept: &mut [u8],
) {
    let mut hand = lines::empty_hand();
    for line in script.split_inclusive(|&b| b == b'\n') {
        let line = vectors_words::without_lf(line);
        hand = lines::obey(held, sent, reply, said, kept, hand, line);
    }
}

fn main() {
    let mut script = [0u8; 262144];
    let n = io::read_full(0, &mut script);
    let mut held = [b'.'; 128];
    let mut sent = [b'.'; 128];
    let mut reply = [b' '; 704];
    let mut said = [0u8; 1024];
    let mut kept = [b'.'; 960];
    obey_all(
        &script[..n],
        &mut held,
        &mut sent,
        &mut reply,
        &mut said,
        &mut kept,
    );
}
