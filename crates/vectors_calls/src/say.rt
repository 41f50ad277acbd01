// What is written: what each call answered, and sums of the table and of the reply's buffer.
use vectors_words::beginning;
use vectors_words::say::words;

// A polynomial in 1,000,003 over a prime of 40 bits.
fn sum(bytes: &[u8]) -> u64 {
    let mut n: u64 = 0;
    for &b in bytes {
        n = (n * 1000003 + u64::from(b)) % 1099511627689;
    }
    n
}

// A name, and the sum of some bytes.
fn summed(name: &[u8], bytes: &[u8]) {
    words(name);
    io::print_hex(1, sum(bytes), 10);
}

fn numbered(name: &[u8], n: u64) {
    words(name);
    io::print_decimal(1, n);
}

// A line's first word, then how the call was answered.
pub fn answered(line: &[u8], refusal: u32) {
    words(vectors_words::word_at(line, 0));
    if refusal == 0 {
        words(b": ok");
        return;
    }
    numbered(b": refused ", u64::from(refusal));
}

// The table's sum, at a line's end.
pub fn table(t: &[u8]) {
    summed(b", table ", t);
    words(b"\n");
}

// Of a read or an end: how far the file is taken, the reply's length, whether the file is finished, the sum of the reply's buffer.
fn counted(at: usize, length: usize, finished: bool, buffer: &[u8]) {
    numbered(b", taken up to ", at as u64);
    numbered(b", reply ", length as u64);
    if finished {
        words(b", finished");
    }
    summed(b", buffer ", buffer);
}

// What a read or an end answered; then the reply, or the beginning of it, on a line of its own.
pub fn answer(line: &[u8], a: calls::Answer, at: usize, buffer: &[u8], t: &[u8], shown: usize) {
    answered(line, a.refusal);
    counted(at, a.length, a.finished, buffer);
    table(t);
    if a.length == 0 {
        return;
    }
    words(beginning(buffer, a.length.min(shown)));
    words(b"\n");
}
