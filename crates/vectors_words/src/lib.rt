// What the programs that run a script share: its lines, the words of a line, which are apart by one blank, the numbers and bytes that they
// write, and what is written of them.

#![tactic(auto)]

pub mod say;

ghost use Rattle.std.specs.Prelude.{◌≤◌, length};

// So many of the first bytes, or all.
pub fn beginning(s: &[u8], n: usize) -> &[u8] {
    &s[..n.min(s.len())]
}

// The bytes from a place on.
pub fn behind(s: &[u8], at: usize) -> &[u8] {
    &s[at.min(s.len())..]
}

// Bytes over others from a place on, as far as there is room.
pub fn copy_at(out: &mut [u8], at: usize, bytes: &[u8]) {
    let from = at.min(out.len());
    text::copy(&mut out[from..], bytes);
}

// A line without the LF that ends it.
pub fn without_lf(line: &[u8]) -> &[u8] {
    match line {
        [front @ .., b'\n'] => front,
        _ => line,
    }
}

// The word of that number (0: the first); an empty one past the last.
pub fn word_at(line: &[u8], number: usize) -> &[u8] {
    line.split(|&b| b == b' ').nth(number).unwrap_or(b"")
}

// What a line's first word names: its last eight characters, without the bytes 0 before them, which tell it from others.
pub fn command(line: &[u8]) -> &[u8] {
    let word = word_at(line, 0);
    let last = &word[word.len().saturating_sub(8)..];
    match last.iter().position(|&b| b != 0) {
        Some(start) => &last[start..],
        None => b"",
    }
}

// The line from the word of that number on, blanks and all.
pub fn text_at(line: &[u8], number: usize) -> &[u8] {
    line.splitn(number.saturating_add(1), |&b| b == b' ')
        .nth(number)
        .unwrap_or(b"")
}

// The decimal number that a word writes.
pub fn decimal_at(line: &[u8], number: usize) -> u64 {
    text::number(word_at(line, number))
}

pub fn small_at(line: &[u8], number: usize) -> u32 {
    (decimal_at(line, number) & 0xFFFF_FFFF) as u32
}

// The number that a word writes in hex digits.
pub fn hex_at(line: &[u8], number: usize) -> u64 {
    text::hex_number(word_at(line, number))
}

// The bytes that hex digits write, two a byte, as far as there is room; says how many.
fn unhex(out: &mut [u8], digits: &[u8]) -> usize
    ensures { result ≤ length out.old }
{
    let room = out.len();
    for (byte, pair) in out.iter_mut().zip(digits.chunks_exact(2)) {
        *byte = (text::hex_number(pair) & 0xFF) as u8;
    }
    room.min(digits.len() / 2)
}

// The bytes that a word writes, as far as there is room; says how many.
pub fn bytes_at(out: &mut [u8], line: &[u8], number: usize) -> usize
    ensures { result ≤ length out.old }
{
    unhex(out, word_at(line, number))
}

// Bytes over others, from a place on, as a line says: WORD OFFSET BYTES.
pub fn write_over(bytes: &mut [u8], line: &[u8]) {
    let from = (decimal_at(line, 1) as usize).min(bytes.len());
    bytes_at(&mut bytes[from..], line, 2);
}

// A check value of a key.
pub fn check_at(line: &[u8], number: usize) -> u32 {
    (hex_at(line, number) & 0xFFFF_FFFF) as u32
}

// An identity with its qualifier.
pub fn who_at(line: &[u8], number: usize) -> [u8; 25] {
    let mut who = [0u8; 25];
    bytes_at(&mut who, line, number);
    who
}

// The holidays of a line that sets a table up, from its seventh word on, as far as there is room; says how many.
pub fn holidays_at(days: &mut [u32; 208], line: &[u8]) -> usize
    ensures { result ≤ 208 }
{
    let words = line.split_inclusive(|&b| b == b' ').count();
    let count = words.saturating_sub(6).min(208);
    for n in 0..count {
        days[n] = small_at(line, n + 6);
    }
    count
}

// Bytes behind the first ones, as far as there is room; says how many there are then.
pub fn append(file: &mut [u8], length: usize, bytes: &[u8]) -> usize {
    let from = length.min(file.len());
    text::copy(&mut file[from..], bytes);
    from + bytes.len().min(file.len() - from)
}

// The bytes that a line's second word writes, behind the first ones.
pub fn append_hex(file: &mut [u8], length: usize, line: &[u8]) -> usize {
    let from = length.min(file.len());
    from + bytes_at(&mut file[from..], line, 1)
}
