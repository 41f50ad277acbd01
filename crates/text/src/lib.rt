// Characters: the internal code, the field characters, digits and hex digits, blanks; copying and comparing.

#![tactic(auto)]

ghost use Rattle.std.specs.Prelude.{◌≡◌, ◌^◌, ◌<◌, ◌≤◌, length, take, replicate};
ghost use Rattle.ground.specs.Lists.{all, same, overlay};
ghost use Rattle.text.specs.Characters.{blank, digit, field_character, internal, hex_digit, all_blank, padded};
ghost use Rattle.text.specs.Numbers.{decimal, hex, hex_character, hex_digits, decimal_digits, value_in, number_from, digits_in};

// The byte of the internal code.
#[tactic(auto, using(ground::proofs::Std::words), unfolding(crate::specs::Characters::internal))]
pub fn internal_code(b: u8) -> u8
    ensures { result ≡ internal b }
{
    match b {
        b'a'..=b'z' => b - 0x20,
        _ if is_field_character(b) => b,
        _ => b' ',
    }
}

// A to Z, 0 to 9, blank and the marks.
#[tactic(auto, using(crate::proofs::Laws::field_is))]
pub fn is_field_character(b: u8) -> bool
    ensures { result ≡ field_character b }
{
    matches!(b, b'A'..=b'Z' | b'('..=b'>' | b' ' | b'%')
}

#[tactic(auto, using(ground::proofs::Std::words))]
pub fn is_digit(b: u8) -> bool
    ensures { result ≡ digit b }
{
    b.is_ascii_digit()
}

#[tactic(auto, using(ground::proofs::Std::words), unfolding(crate::specs::Characters::hex_digit))]
pub fn is_hex_digit(b: u8) -> bool
    ensures { result ≡ hex_digit b }
{
    matches!(b, b'0'..=b'9' | b'A'..=b'F')
}

// Whether each character is a field character, a digit, a hex digit, a blank.
pub fn all_field_characters(s: &[u8]) -> bool
    ensures { result ≡ all field_character s.now }
{
    s.iter().all(|&b| is_field_character(b))
}

pub fn all_digits(s: &[u8]) -> bool
    ensures { result ≡ all digit s.now }
{
    s.iter().all(|&b| is_digit(b))
}

pub fn all_hex_digits(s: &[u8]) -> bool
    ensures { result ≡ all hex_digit s.now }
{
    s.iter().all(|&b| is_hex_digit(b))
}

pub fn all_blank(s: &[u8]) -> bool
    ensures { result ≡ all_blank s.now }
{
    s.iter().all(|&b| b == b' ')
}

// What a digit of the base counts, 0-9 and then A-F; any other character counts 0.
#[tactic(auto, using(ground::proofs::Std::words), unfolding(crate::specs::Numbers::value_in, crate::specs::Numbers::hex_value, crate::specs::Characters::hex_digit))]
fn digit_value<const BASE: u64>(b: u8) -> u64
    ensures { result ≡ value_in BASE b }
{
    let value = match b {
        b'0'..=b'9' => u64::from(b - b'0'),
        b'A'..=b'F' => u64::from(b - b'A' + 10),
        _ => 0,
    };
    if value < BASE { value } else { 0 }
}

// The number that digits of the base write.
fn number_in<const BASE: u64>(s: &[u8]) -> u64
    requires base { (0 < BASE) × (BASE ≤ 16) }
    requires fits { BASE ^ length s.now ≤ 2 ^ 64 }
    ensures { result ≡ number_from BASE 0 s.now }
{
    let mut n = 0;
    for &b in s {
        n = n * BASE + digit_value::<BASE>(b);
    }
    n
}

// The number that digits write: of the first nineteen characters, which always fits.
#[tactic(auto, using(crate::proofs::Bases::decimal_read))]
pub fn number(s: &[u8]) -> u64
    ensures { result ≡ decimal (take 19 s.now) }
{
    number_in::<10>(&s[..s.len().min(19)])
}

// The number that hex digits write: of the first sixteen characters, which always fits.
#[tactic(auto, using(crate::proofs::Bases::hex_read, crate::proofs::Bases::hex_fits))]
pub fn hex_number(s: &[u8]) -> u64
    ensures { result ≡ hex (take 16 s.now) }
{
    number_in::<16>(&s[..s.len().min(16)])
}

// The character of a number below 16.
#[tactic(auto, using(ground::proofs::Std::words), unfolding(crate::specs::Numbers::hex_character))]
fn character(v: u8) -> u8
    requires { v < 16 }
    ensures { result ≡ hex_character v }
{
    if v < 10 { b'0' + v } else { b'A' - 10 + v }
}

// The lowest digits of a number in the base, as many as there is room for.
fn write_in<const BASE: u64>(out: &mut [u8], x: u64)
    requires { (0 < BASE) × (BASE ≤ 16) }
    ensures { out.new ≡ digits_in BASE (length out.old) x }
{
    let mut rest = x;
    for i in (0..out.len()).rev() {
        out[i] = character((rest % BASE) as u8);
        rest /= BASE;
    }
}

// The sixteen hex digits of a number.
#[tactic(auto, using(crate::proofs::Bases::hex_digits_is))]
pub fn hex_digits(x: u64) -> [u8; 16]
    ensures { result ≡ hex_digits 16 x }
{
    let mut out = [0; 16];
    write_in::<16>(&mut out, x);
    out
}

// The lowest digits of a number, as many as there is room for.
#[tactic(auto, using(crate::proofs::Bases::decimal_digits_is))]
pub fn write_number(out: &mut [u8], x: u64)
    ensures { out.new ≡ decimal_digits (length out.old) x }
{
    write_in::<10>(out, x);
}

#[tactic(auto, using(ground::proofs::Std::words))]
pub fn same_bytes(a: &[u8], b: &[u8]) -> bool
    ensures { result ≡ same a.now b.now }
{
    a == b
}

// `src` written over the start of `dst`, as far as both go.
#[tactic(auto, unfolding(ground::specs::Lists::overlay))]
pub fn copy(dst: &mut [u8], src: &[u8])
    ensures { dst.new ≡ overlay src.now dst.old }
{
    let n = dst.len().min(src.len());
    dst[..n].copy_from_slice(&src[..n]);
}

pub fn fill_blank(dst: &mut [u8])
    ensures { dst.new ≡ replicate (length dst.old) blank }
{
    dst.fill(b' ');
}

// A name in its field: blanks after it, and what is over cut.
pub fn pad(dst: &mut [u8], src: &[u8])
    ensures { dst.new ≡ padded (length dst.old) src.now }
{
    fill_blank(dst);
    copy(dst, src);
}
