// The forms of the program's words: numbers, keys, names, types, yes or no, and a file of holidays. A word of another form is bad.

#![tactic(auto)]

ghost use Rattle.std.specs.List.{position};
ghost use Rattle.std.specs.Prelude.{◌==◌, ◌<◌, IfSome, ◌≡◌, [], ◌∷◌, map, ◌+◌, leb, ◌++◌, length, drop, MatchOption};
ghost use Rattle.text.specs.Characters.{padded};
ghost use Rattle.cli_words.specs.Parts.{up_to, split_at};
ghost use Rattle.cli_words.specs.Forms.{number_of, read_of, block_of, choice_of, who_of};
ghost use Rattle.cli_words.specs.Forms.{bit_of, with_types, types_of, without_cr, date_of, holidays_of};

// The dates of a file of holidays; the 201st is one too many for any table, so no more are kept.
#[derive(Clone, Copy, Debug, PartialEq, Eq)]
pub struct Dates {
    pub count: usize,
    pub dates: [u32; 201],
}

// The number of a line of it that isn't six digits, and the dates of the lines before it.
#[derive(Clone, Copy, Debug, PartialEq, Eq)]
pub struct BadLine {
    pub line: u32,
    pub before: Dates,
}

// A word of `low` to `high` digits.
pub fn digits(s: &[u8], low: usize, high: usize) -> Option<u32>
    ensures { result ≡ number_of low high s.now }
{
    if (low..=high).contains(&s.len()) && text::all_digits(s) {
        u32::try_from(text::number(s)).ok()
    } else {
        None
    }
}

// Bytes a read.
pub fn read_size(s: &[u8]) -> Option<u32>
    ensures { result ≡ read_of s.now }
{
    match digits(s, 1, 5) {
        Some(n @ 1..=65536) => Some(n),
        _ => None,
    }
}

// A word of that many hex digits.
pub fn hex_digits(s: &[u8], width: usize) -> Option<u64>
    ensures { result ≡ block_of width s.now }
{
    if s.len() == width && text::all_hex_digits(s) {
        Some(text::hex_number(s))
    } else {
        None
    }
}

// `yes` or `no`.
pub fn choice(s: &[u8]) -> Option<bool>
    ensures { result ≡ choice_of s.now }
{
    if text::same_bytes(s, b"yes") {
        Some(true)
    } else if text::same_bytes(s, b"no") {
        Some(false)
    } else {
        None
    }
}

// Whether a name fits its field.
pub fn fits(s: &[u8], width: usize) -> bool
    ensures { result ≡ leb (length s.now) width }
{
    s.len() <= width
}

// An identity and its qualifier, each filled with blanks.
pub fn who(identity: &[u8], qualifier: &[u8]) -> [u8; 25]
    ensures { result ≡ who_of identity.now qualifier.now }
{
    let mut w = [0u8; 25];
    text::pad(&mut w[..17], identity);
    text::pad(&mut w[17..], qualifier);
    w
}

// The software's name, filled with blanks.
pub fn software(s: &[u8]) -> [u8; 16]
    ensures { result ≡ padded 16 s.now }
{
    let mut name = [0u8; 16];
    text::pad(&mut name, s);
    name
}

// ---- parts

// Where the first byte `by` stands.
fn place_of(s: &[u8], by: u8) -> Option<usize>
    ensures { result ≡ position (λ b. b == by) s.now }
{
    s.iter().position(|&b| b == by)
}

// The part up to the first byte `by`, and what follows that byte, if there is one.
pub fn first_part(s: &[u8], by: u8) -> (&[u8], Option<&[u8]>)
    ensures part { result.0.now ≡ up_to by s.now }
    ensures rest { MatchOption result.1 (up_to by s.now ≡ s.now) (λ r. s.now ≡ up_to by s.now ++ (by ∷ r.now)) }
{
    match place_of(s, by) {
        Some(end) => (&s[..end], Some(&s[end + 1..])),
        None => (s, None),
    }
}

// ---- types

// The bit of a type of one digit.
fn one_digit(c: u8) -> Option<u32>
    ensures bit { result ≡ bit_of (c ∷ []) }
    ensures small { IfSome result (λ k. k < 16) }
{
    match c {
        b'1'..=b'9' => Some(u32::from(c - b'1')),
        _ => None,
    }
}

// The bit of a type of two digits, the first of which is 1.
fn two_digits(c: u8) -> Option<u32>
    ensures bit { result ≡ bit_of (0x31 ∷ c ∷ []) }
    ensures small { IfSome result (λ k. k < 16) }
{
    match c {
        b'0'..=b'6' => Some(u32::from(c - b'0') + 9),
        _ => None,
    }
}

fn type_bit(p: &[u8]) -> Option<u32>
    ensures bit { result ≡ bit_of p.now }
    ensures small { IfSome result (λ k. k < 16) }
{
    match p {
        [c] => one_digit(*c),
        [b'1', c] => two_digits(*c),
        _ => None,
    }
}

// Listed as `1,3,16`, or `-` for none.
pub fn types(s: &[u8]) -> Option<u32>
    ensures { result ≡ types_of s.now }
{
    if text::same_bytes(s, b"-") {
        return Some(0);
    }
    listed(s)
}

fn listed(s: &[u8]) -> Option<u32>
    ensures { result ≡ with_types 0 (map bit_of (split_at 0x2C s.now)) }
{
    let mut set = 0;
    let mut left = Some(s);
    while let Some(rest) = left {
        let (part, more) = first_part(rest, b',');
        set |= 1u32 << type_bit(part)?;
        left = more;
    }
    Some(set)
}

// ---- holidays

// A line without one CR at its end.
pub fn without_cr(line: &[u8]) -> &[u8]
    ensures { result.now ≡ without_cr line.now }
{
    match line {
        [front @ .., b'\r'] => front,
        _ => line,
    }
}

fn date_in(line: &[u8]) -> Option<u32>
    ensures { result ≡ date_of line.now }
{
    digits(without_cr(line), 6, 6)
}

// A file of holidays: a date a line, which LF or CR LF ends; at most 201 lines of it.
pub fn holidays(s: &[u8]) -> Result<Dates, BadLine>
    ensures { result ≡ holidays_of s.now }
{
    let mut dates = [0u32; 201];
    let mut left = s;
    for count in 0..201usize {
        if left.is_empty() {
            return Ok(Dates { count, dates });
        }
        let (line, more) = first_part(left, b'\n');
        let Some(date) = date_in(line) else {
            return Err(BadLine {
                line: count as u32 + 1,
                before: Dates { count, dates },
            });
        };
        dates[count] = date;
        left = more.unwrap_or(b"");
    }
    Ok(Dates { count: 201, dates })
}
