// The customer's messages ESI, SUO and VAR: their layout, their faults, and what their fields say.

#![tactic(auto)]

ghost use Rattle.std.specs.Prelude.{◌≡◌, List, [], ◌∷◌, ℕ, ◌-◌, ◌<◌, ◌≤◌, min, length, take, get_or, find};
ghost use Rattle.ground.specs.Lists.{all, member, part};
ghost use Rattle.text.specs.Characters.{digit, hex_digit};
ghost use Rattle.text.specs.Letters.{letters};
ghost use Rattle.message.specs.Layout.{laid, no_field, fields, total, width_in, field_text, layout, layout_length};
ghost use Rattle.message.specs.Contents.{contents_as, at_fault};
ghost use Rattle.message.specs.Order.{first_failing};
ghost use Rattle.message.specs.declared.Extent.TheVariants.{Whole};
ghost use Rattle.message.specs.declared.About.TheVariants.{Answered};
ghost use Rattle.message.specs.Rules.{hex_fields, only, one_of, methods, common_rules, own_rules, form_of, format_holds, obeys, value_holds};
ghost use Rattle.message.specs.Rules.{is_exact, length_rules, form_checks};
ghost use Rattle.message.specs.Passing.{passes_in, lowest_broken};
ghost use Rattle.message.specs.Fields.{receiver_of, sender_of, stamp_of, date_of_stamp, version_of, method_of, transport_generation_of};
ghost use Rattle.message.specs.Fields.{working_generation_of, once_field_of, digest_field_of, checksum_field_of, request_of};

// The messages that customers send.
#[derive(Clone, Copy, Debug, PartialEq, Eq)]
pub enum Kind {
    Esi,
    Suo,
    Var,
}

// What was collected of a message: the whole, or why it is one record alone or has no end.
#[derive(Clone, Copy, Debug, PartialEq, Eq)]
pub enum Extent {
    Whole,
    TooShort,
    LengthNotDigits,
    OtherLength,
    CutShort,
}

// Which message a check is about: the one that is answered (an ESI, a frame's SUO), or the one that closes a frame (its VAR).
#[derive(Clone, Copy, Debug, PartialEq, Eq)]
pub enum About {
    Answered,
    Closing,
}

// A message as it was collected: how much of it, whether the characters over in its last record were blank, and its characters.
#[derive(Clone, Copy, Debug, PartialEq, Eq)]
pub struct Collected {
    pub extent: Extent,
    pub blank: bool,
    pub text: [u8; 161],
}

// The characters of a field as received: how many there are, and zeros after them.
#[derive(Clone, Copy, Debug, PartialEq, Eq)]
pub struct Contents {
    pub count: usize,
    pub text: [u8; 17],
}

/// What is wrong with a message: the code, the field (its number as specs/Layout.antt writes it, 0 where none is named) and the message that
/// it is of.
#[derive(Clone, Copy, Debug, PartialEq, Eq)]
pub struct Fault {
    pub code: u32,
    pub field: u32,
    pub about: About,
}

/// A check of a message: its code, the field that it names (0 where it names none), the message that the field is of, and whether it fails.
#[derive(Clone, Copy, Debug, PartialEq, Eq)]
pub struct Check {
    pub code: u32,
    pub field: u32,
    pub about: About,
    pub failed: bool,
}

impl Check {
    /// A check of the message that is answered, which names no field.
    pub fn new(code: u32, failed: bool) -> Check
        ensures { result ≡ record { code = code; field = no_field; about = Answered; failed = failed } }
    {
        Check::of_field(code, 0, failed)
    }

    /// A check of the message that is answered, which names a field.
    pub fn of_field(code: u32, field: u32, failed: bool) -> Check
        ensures { result ≡ record { code = code; field = field; about = Answered; failed = failed } }
    {
        Check {
            code,
            field,
            about: About::Answered,
            failed,
        }
    }
}

// The first check that fails.
fn first_of(checks: &[Check]) -> Option<Check>
    ensures { result ≡ find (λ c. c.failed) checks.now }
{
    checks.iter().copied().find(|check| check.failed)
}

/// The fault of the first check that fails, in the order of the list.
pub fn first_failing(checks: &[Check]) -> Result<(), Fault>
    ensures { result ≡ first_failing checks.now }
{
    match first_of(checks) {
        Some(check) => Err(Fault {
            code: check.code,
            field: check.field,
            about: check.about,
        }),
        None => Ok(()),
    }
}

// The fields' numbers, in their order.
const NUMBERS: [u32; 22] = [
    10, 20, 30, 40, 50, 60, 70, 81, 82, 91, 92, 100, 110, 121, 122, 123, 130, 140, 150, 160, 170,
    180,
];

// Where each field begins, and where the last ends.
const STARTS: [usize; 23] = [
    0, 5, 8, 11, 12, 16, 32, 35, 52, 60, 77, 85, 86, 87, 93, 99, 102, 103, 112, 128, 144, 160, 161,
];

pub fn length_of(k: Kind) -> usize
    ensures { result ≡ layout_length k }
{
    match k {
        Kind::Esi => 161,
        Kind::Suo => 128,
        Kind::Var => 161,
    }
}

// How many fields a message has.
fn count_of(k: Kind) -> usize
    ensures { result ≡ length (layout k) }
{
    match k {
        Kind::Esi => 22,
        Kind::Suo => 19,
        Kind::Var => 22,
    }
}

fn number_of(i: usize) -> u32
    requires { i < 22 }
    ensures { result ≡ (get_or fields i (laid no_field "" 0)).number }
{
    NUMBERS[i]
}

fn start_of(i: usize) -> usize
    requires { i ≤ 22 }
    ensures { result ≡ total (take i fields) }
{
    STARTS[i]
}

// The characters of the fields from one place of the order to before another, as far as the message goes.
fn span(from: usize, to: usize, m: &[u8]) -> &[u8]
    requires { (from ≤ to) × (to ≤ 22) }
    ensures { result.now ≡ part (total (take from fields)) (total (take to fields) - total (take from fields)) m.now }
{
    &m[start_of(from).min(m.len())..start_of(to).min(m.len())]
}

// A test that is made only of some messages.
#[tactic(auto, unfolding(ground::specs::Choice::either, ground::specs::Choice::fails))]
fn only_if(asked: bool, holds: bool) -> bool
    ensures { result ≡ only asked holds }
{
    !asked || holds
}

// The fields that are digits. Neighbours stand in different arms, so that each number is a case of its own.
fn digits_hold(n: u32, text: &[u8]) -> bool
    ensures { result ≡ only (member n (2 ∷ 3 ∷ 5 ∷ 10 ∷ 11 ∷ 12 ∷ [])) (all digit text.now) }
{
    match n {
        2 | 5 | 10 | 12 => text::all_digits(text),
        3 | 11 => text::all_digits(text),
        _ => true,
    }
}

// The fields that are hex digits in a message of that kind.
fn hex_holds(k: Kind, number: u32, text: &[u8]) -> bool
    ensures { result ≡ only (member number (hex_fields k)) (all hex_digit text.now) }
{
    match k {
        Kind::Esi => match number {
            170 => text::all_hex_digits(text),
            _ => true,
        },
        Kind::Suo => match number {
            150 => text::all_hex_digits(text),
            _ => true,
        },
        Kind::Var => match number {
            150 | 160 | 170 => text::all_hex_digits(text),
            _ => true,
        },
    }
}

#[tactic(auto, unfolding(crate::specs::Rules::format_holds, ground::specs::Choice::both, ground::specs::Choice::either, ground::specs::Choice::fails))]
fn format_holds(k: Kind, blank_over: bool, number: u32, text: &[u8]) -> bool
    ensures { result ≡ format_holds (form_of k) blank_over number text.now }
{
    (16 < number / 10 || text::all_field_characters(text))
        && digits_hold(number / 10, text)
        && hex_holds(k, number, text)
        && (number != 20 || blank_over)
}

// One of two texts.
#[tactic(auto, using(ground::proofs::Std::words), unfolding(crate::specs::Rules::one_of))]
fn one_of(a: &[u8], b: &[u8], text: &[u8]) -> bool
    ensures { result ≡ one_of (a.now ∷ b.now ∷ []) text.now }
{
    a == text || b == text
}

fn method_holds(k: Kind, text: &[u8]) -> bool
    ensures { result ≡ one_of (methods k) text.now }
{
    match k {
        Kind::Esi => text::same_bytes(b"SMH", text),
        Kind::Suo => one_of(b"SKH", b"SKE", text),
        Kind::Var => text::same_bytes(b"SMH", text),
    }
}

#[tactic(auto, using(ground::proofs::Std::words), unfolding(crate::specs::Rules::one_of, text::specs::Letters::letters))]
fn request_holds(text: &[u8]) -> bool
    ensures { result ≡ one_of (letters "0" ∷ letters "1" ∷ letters "2" ∷ []) text.now }
{
    matches!(text, b"0" | b"1" | b"2")
}

// Whether the version is one of those that have exact lengths.
fn is_exact(m: &[u8]) -> bool
    ensures { result ≡ is_exact m.now }
{
    one_of(b"110", b"120", span(2, 3, m))
}

// The rule on the length, of a message whose version has exact lengths or not.
fn length_holds(k: Kind, exact: bool, number: u32, text: &[u8]) -> bool
    requires { length text.now ≤ width_in number fields }
    ensures { (m : List ℕ) → field_text number m ≡ text.now → is_exact m ≡ «exact» → result ≡ obeys (length_rules k) number m }
{
    if number != 20 {
        return true;
    }
    only_if(exact, text::number(text) == length_of(k) as u64)
}

// The rules that every kind has.
fn common_holds(k: Kind, number: u32, text: &[u8]) -> bool
    requires { length text.now ≤ width_in number fields }
    ensures { (m : List ℕ) → field_text number m ≡ text.now → result ≡ obeys (common_rules k) number m }
{
    match number {
        40 | 140 => text::all_blank(text),
        50 => text::same_bytes(b"0000", text),
        60 => !text::all_blank(text),
        70 => method_holds(k, text),
        121 => {
            let d = calendar::Date {
                yymmdd: text::number(text) as u32,
            };
            d.is_real()
        }
        122 => calendar::is_real_time(text::number(text) as u32),
        _ => true,
    }
}

// The rules of each kind.
fn own_holds(k: Kind, number: u32, text: &[u8]) -> bool
    ensures { (m : List ℕ) → field_text number m ≡ text.now → result ≡ obeys (own_rules k) number m }
{
    match k {
        Kind::Esi => match number {
            130 | 150 | 160 => text::all_blank(text),
            180 => request_holds(text),
            _ => true,
        },
        Kind::Suo => match number {
            130 => one_of(b"S", b"A", text),
            _ => true,
        },
        Kind::Var => match number {
            130 => one_of(b"S", b"A", text),
            180 => request_holds(text),
            _ => true,
        },
    }
}

fn value_holds(k: Kind, exact: bool, number: u32, text: &[u8]) -> bool
    requires { length text.now ≤ width_in number fields }
    ensures { (m : List ℕ) → field_text number m ≡ text.now → is_exact m ≡ «exact» → result ≡ value_holds (form_of k) number m }
{
    if !length_holds(k, exact, number, text) {
        return false;
    }
    if !common_holds(k, number, text) {
        return false;
    }
    own_holds(k, number, text)
}

// The test of the values or of the format.
fn passes(values: bool, k: Kind, exact: bool, blank_over: bool, number: u32, text: &[u8]) -> bool
    requires { length text.now ≤ width_in number fields }
    ensures { (m : List ℕ) → field_text number m ≡ text.now → is_exact m ≡ «exact»
        → result ≡ passes_in values (form_of k) blank_over m number }
{
    if values {
        return value_holds(k, exact, number, text);
    }
    format_holds(k, blank_over, number, text)
}

// The lowest field that does not pass.
fn first_broken(
    values: bool,
    code: u32,
    about: About,
    k: Kind,
    blank_over: bool,
    m: &[u8],
) -> Result<(), Fault>
    ensures { result ≡ lowest_broken code about (passes_in values (form_of k) blank_over m.now) (layout k) }
{
    let count = count_of(k);
    let exact = is_exact(m);
    for i in 0..count {
        let number = number_of(i);
        if !passes(values, k, exact, blank_over, number, span(i, i + 1, m)) {
            return Err(Fault {
                code,
                field: number,
                about,
            });
        }
    }
    Ok(())
}

// The first fault of a message that was collected whole: of the format, else of the values.
fn first_fault(k: Kind, about: About, blank_over: bool, m: &[u8]) -> Result<(), Fault>
    ensures { result ≡ first_failing (form_checks (form_of k) about (record { extent = Whole; blank = blank_over; text = m.now })) }
{
    first_broken(false, 1010, about, k, blank_over, m)?;
    first_broken(true, 1011, about, k, blank_over, m)
}

// The first fault: of a message that is one record alone by what made it so.
pub fn fault_of(
    k: Kind,
    about: About,
    extent: Extent,
    blank_over: bool,
    m: &[u8],
) -> Result<(), Fault>
    ensures { result ≡ first_failing (form_checks (form_of k) about (record { extent = extent; blank = blank_over; text = m.now })) }
{
    match extent {
        Extent::Whole => first_fault(k, about, blank_over, m),
        Extent::TooShort => Err(Fault {
            code: 1032,
            field: 0,
            about,
        }),
        Extent::LengthNotDigits => Err(Fault {
            code: 1010,
            field: 20,
            about,
        }),
        Extent::OtherLength => Err(Fault {
            code: 1011,
            field: 20,
            about,
        }),
        Extent::CutShort => Err(Fault {
            code: 1032,
            field: 0,
            about,
        }),
    }
}

// ---- the contents of a field

pub fn no_contents() -> Contents
    ensures { result ≡ contents_as [] }
{
    Contents {
        count: 0,
        text: [0; 17],
    }
}

fn contents_of(text: &[u8]) -> Contents
    ensures { result ≡ contents_as text.now }
{
    let mut out = [0u8; 17];
    text::copy(&mut out, text);
    Contents {
        count: out.len().min(text.len()),
        text: out,
    }
}

// The contents of a field in the first `count` characters of a message; of a field that no message of a customer has, none.
pub fn field_contents(number: u32, m: [u8; 161], count: usize) -> Contents
    ensures { result ≡ contents_as (field_text number (take count m)) }
{
    let n = count.min(161);
    for i in 0..22 {
        if number_of(i) == number {
            return contents_of(span(i, i + 1, &m[..n]));
        }
    }
    no_contents()
}

// The message at fault.
pub fn at_fault(about: About, answered: [u8; 161], closing: [u8; 161]) -> [u8; 161]
    ensures { result ≡ at_fault about answered closing }
{
    match about {
        About::Answered => answered,
        About::Closing => closing,
    }
}

// Identity and qualifier of the receiver, and of the sender.
pub fn receiver(m: [u8; 161]) -> [u8; 25]
    ensures { result ≡ receiver_of m }
{
    let mut out = [0u8; 25];
    text::copy(&mut out, span(7, 9, &m));
    out
}

pub fn sender(m: [u8; 161]) -> [u8; 25]
    ensures { result ≡ sender_of m }
{
    let mut out = [0u8; 25];
    text::copy(&mut out, span(9, 11, &m));
    out
}

// The fifteen digits of the stamp as a number.
pub fn stamp(m: [u8; 161]) -> u64
    ensures { result ≡ stamp_of m }
{
    text::number(span(13, 16, &m))
}

pub fn date(m: [u8; 161]) -> calendar::Date
    ensures { result ≡ date_of_stamp m }
{
    calendar::Date {
        yymmdd: text::number(span(13, 14, &m)) as u32,
    }
}

pub fn version(m: [u8; 161]) -> u32
    ensures { result ≡ version_of m }
{
    text::number(span(2, 3, &m)) as u32
}

pub fn method(m: [u8; 161]) -> digest::Method
    ensures { result ≡ method_of m }
{
    if text::same_bytes(span(6, 7, &m), b"SKE") {
        return digest::Method::Ske;
    }
    digest::Method::Skh
}

pub fn transport_generation(m: [u8; 161]) -> u32
    ensures { result ≡ transport_generation_of m }
{
    text::number(span(11, 12, &m)) as u32
}

pub fn working_generation(m: [u8; 161]) -> u32
    ensures { result ≡ working_generation_of m }
{
    text::number(span(12, 13, &m)) as u32
}

// The one-time key as it came, enciphered.
pub fn once_field(m: [u8; 161]) -> u64
    ensures { result ≡ once_field_of m }
{
    text::hex_number(span(18, 19, &m))
}

pub fn digest_field(m: [u8; 161]) -> u64
    ensures { result ≡ digest_field_of m }
{
    text::hex_number(span(19, 20, &m))
}

pub fn checksum_field(m: [u8; 161]) -> u64
    ensures { result ≡ checksum_field_of m }
{
    text::hex_number(span(20, 21, &m))
}

// The request for keys.
pub fn request(m: [u8; 161]) -> u32
    ensures { result ≡ request_of m }
{
    text::number(span(21, 22, &m)) as u32
}
