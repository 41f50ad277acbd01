// Runs a script of calls on the seven calls of the front end, and writes what each of them answers. The independent model
// in rust/model runs the same script (its binary `script`, which also makes it); what it writes is this program's stdout.

#![tactic(auto)]

mod lines;
mod reading;
mod registering;
mod say;

// The lines of a script, one after the other.
fn obey_all(script: &[u8], t: &mut [u8], kept: &mut [u8], file: &mut [u8]) {
    let mut hand = lines::empty_hand();
    for line in script.split_inclusive(|&b| b == b'\n') {
        hand = lines::obey(t, kept, file, hand, vectors_words::without_lf(line));
    }
}

fn main() {
    let mut script = [0u8; 262144];
    let n = io::read_full(0, &mut script);
    let mut t = [0u8; 49152];
    let mut kept = [0u8; 49152];
    let mut file = [0u8; 8192];
    obey_all(&script[..n], &mut t, &mut kept, &mut file);
}
