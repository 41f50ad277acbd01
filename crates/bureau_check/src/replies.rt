// Which message of the desk a reply answers: the one with its stamp; and where it has none, the next of its file.

// How many entries a desk has room for.
const ENTRIES: usize = 128;

// The kind of message that a reply answers, by its first characters; none where they are no reply's.
fn kind_of(line: &[u8]) -> Option<u8> {
    match line {
        [b'>', b'>', b'E', b'S', b'I', ..] => Some(bureau_file::ESI),
        [b'>', b'>', b'P', b'T', b'E', ..] => Some(bureau_file::BATCH),
        _ => None,
    }
}

// The stamp that a reply repeats; zeros where it is too short for one.
fn stamp_in(line: &[u8]) -> [u8; 15] {
    let mut stamp = [0u8; 15];
    if let Some(said) = line.get(87..102) {
        text::copy(&mut stamp, said);
    }
    stamp
}

// Whether an entry is of that file, or of any where none is named, and of that kind, or of any.
fn is_of(d: &[u8], i: usize, file: Option<u64>, kind: Option<u8>) -> bool {
    let own = bureau_file::file_of(d, i);
    let own_kind = bureau_file::kind_of(d, i);
    own != 0 && file.unwrap_or(own) == own && kind.unwrap_or(own_kind) == own_kind
}

fn has_stamp(d: &[u8], i: usize, stamp: [u8; 15]) -> bool {
    bureau_file::stamp_of(d, i) == stamp
}

// The entry of a file with that kind and stamp.
fn by_stamp(d: &[u8], file: Option<u64>, kind: Option<u8>, stamp: [u8; 15]) -> Option<usize> {
    (0..ENTRIES).find(|&i| is_of(d, i, file, kind) && has_stamp(d, i, stamp))
}

// The next entry of a file with that kind, from a place on.
pub fn next_of(d: &[u8], file: u64, kind: Option<u8>, from: usize) -> Option<usize> {
    (from..ENTRIES).find(|&i| is_of(d, i, Some(file), kind))
}

// Data outside a batch: its reply answers no message.
fn is_outside(line: &[u8]) -> bool {
    match line.get(11..16) {
        Some(said) => text::same_bytes(said, b"E1023"),
        None => false,
    }
}

// The entry of a file that a reply answers; those before `from` were answered by replies before it.
pub fn answered_by(d: &[u8], file: u64, line: &[u8], from: usize) -> Option<usize> {
    if is_outside(line) {
        return None;
    }
    let kind = kind_of(line);
    match by_stamp(d, Some(file), kind, stamp_in(line)) {
        Some(i) => Some(i),
        None => next_of(d, file, kind, from),
    }
}

// ---- whose replies they are

// The file of the first reply whose stamp was sent.
fn file_by_stamps(d: &[u8], r: &[u8]) -> Option<u64> {
    r.split(|&b| b == b'\n')
        .find_map(|line| file_by_stamp(d, line))
}

// The file of the message whose stamp a reply repeats.
fn file_by_stamp(d: &[u8], line: &[u8]) -> Option<u64> {
    let i = by_stamp(d, None, kind_of(line), stamp_in(line))?;
    Some(bureau_file::file_of(d, i))
}

// The one file that waits; none where there is more than one.
fn lone_file(d: &[u8]) -> Option<u64> {
    let mut lone = None;
    for i in 0..ENTRIES {
        let own = bureau_file::file_of(d, i);
        if own != 0 && !bureau_file::is_answered(d, i) {
            if lone.unwrap_or(own) != own {
                return None;
            }
            lone = Some(own);
        }
    }
    lone
}

// The file that replies answer, where no number is given, if it can be told.
pub fn file_of(d: &[u8], r: &[u8]) -> Option<u64> {
    match file_by_stamps(d, r) {
        Some(file) => Some(file),
        None => lone_file(d),
    }
}
