// What is written: what each call gave, and the bytes that it changed.

pub fn words(bytes: &[u8]) {
    io::write_all(1, bytes);
}

// Each byte as two hex digits.
fn hex(bytes: &[u8]) {
    for &b in bytes {
        words(&text::hex_digits(u64::from(b))[14..]);
    }
}

// A line's first word, then what the call gave.
pub fn told(line: &[u8], n: u32) {
    words(crate::word_at(line, 0));
    words(b": ");
    io::print_decimal(1, u64::from(n));
}

// The words of a check, each behind a blank.
pub fn numbers(all: &[u32]) {
    for &n in all {
        words(b" ");
        io::print_decimal(1, u64::from(n));
    }
}

// The bytes lent, where the call changed them.
pub fn changed(name: &[u8], was: &[u8], is: &[u8]) {
    words(b", ");
    words(name);
    if was == is {
        words(b" stays");
    } else {
        words(b" ");
        hex(is);
    }
}
