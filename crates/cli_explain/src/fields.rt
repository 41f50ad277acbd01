// The field that a notice names, and its contents as they were received.
use crate::heard::Heard;
use crate::parts::Reply;
use cli_texts::room::trimmed;
use cli_texts::sheet::Sheet;

// A field of a message by its number, or a group of fields 8, 9 and 12; where it begins and ends.
#[derive(Clone, Copy)]
pub struct Field {
    number: u32,
    start: usize,
    end: usize,
}

const FIELDS: [(u32, usize, usize); 25] = [
    (10, 0, 5),
    (20, 5, 8),
    (30, 8, 11),
    (40, 11, 12),
    (50, 12, 16),
    (60, 16, 32),
    (70, 32, 35),
    (81, 35, 52),
    (82, 52, 60),
    (91, 60, 77),
    (92, 77, 85),
    (100, 85, 86),
    (110, 86, 87),
    (121, 87, 93),
    (122, 93, 99),
    (123, 99, 102),
    (130, 102, 103),
    (140, 103, 112),
    (150, 112, 128),
    (160, 128, 144),
    (170, 144, 160),
    (180, 160, 161),
    (80, 35, 60),
    (90, 60, 85),
    (120, 87, 102),
];

// A code's notice on a field, without the field's contents: how long it is without the blanks at its end.
fn notice_of(code: u32, field: u32) -> ([u8; 51], usize) {
    let text = notice::text(code, field, message::no_contents());
    (text, trimmed(&text))
}

// Whether a reply's notice, past its clock time, is that of a code on a field: after the name comes a blank.
fn is_notice(r: &Reply, code: u32, field: u32) -> bool {
    let (text, n) = notice_of(code, field);
    let shown = &r.text[186..];
    match (text.get(..n), shown.get(n)) {
        (Some(named), Some(&after)) => shown.starts_with(named) && after == b' ',
        _ => false,
    }
}

// The field that a code's notice names.
fn named_with(r: &Reply, code: u32) -> Option<Field> {
    for (number, start, end) in FIELDS {
        if is_notice(r, code, number) {
            return Some(Field { number, start, end });
        }
    }
    None
}

// The field that a reply names.
pub fn named_in(r: &Reply) -> Option<Field> {
    match r.code() {
        1010 => named_with(r, 1010),
        1011 => named_with(r, 1011),
        1026 => named_with(r, 1026),
        _ => None,
    }
}

// Puts a field's name on the sheet, as the notice of 1010 has it past its twenty characters.
fn put_name(s: &mut Sheet, field: Field) {
    let (text, _) = notice_of(1010, field.number);
    s.letters(b'f', &text[20..35]);
}

// ---- the contents that a notice of 1010 or 1011 shows

fn is_format(r: &Reply) -> bool {
    r.code() == 1010
}

// The notice from where they begin: past the code's text, the field's name and a blank.
fn shown_of(r: &Reply, field: Field) -> &[u8] {
    let (_, n) = notice_of(if is_format(r) { 1010 } else { 1011 }, field.number);
    r.text[187..].get(n..).unwrap_or(b"")
}

// In quotes. Field 1 is that of a record, which may have fewer characters.
fn put_value(s: &mut Sheet, r: &Reply, field: Field) {
    let shown = shown_of(r, field);
    let Some(value) = shown.get(..field.end.saturating_sub(field.start)) else {
        return;
    };
    if field.number == 10 {
        s.name(b'h', value);
    } else {
        s.quoted(b'h', value);
    }
}

// ---- what is told of it

// Name and contents by the reply alone. A reply of a release that showed no contents looks like one on a blank field.
pub fn put_named(s: &mut Sheet, r: &Reply, field: Option<Field>) {
    let Some(field) = field else {
        s.part(b'f', b"that the notice names");
        s.part(b'h', b"as shown there");
        return;
    };
    put_name(s, field);
    if text::all_blank(shown_of(r, field)) {
        s.part(
            b'h',
            b"blanks (or contents that earlier releases didn't show)",
        );
    } else {
        put_value(s, r, field);
    }
}

// Name and contents, the kind of the message that a fault of form is of, and what stands in the SUO and in the VAR; of no field the name is
// blank and the quotes are empty.
pub fn put_heard(s: &mut Sheet, h: &Heard, r: &Reply, field: Option<Field>) {
    s.part(b'k', &h.faulty[2..5]);
    let Some(field) = field else {
        s.quoted(b'h', b"");
        s.quoted(b'u', b"");
        s.quoted(b'v', b"");
        return;
    };
    put_name(s, field);
    put_value(s, r, field);
    if let (Some(suo), Some(var)) = (
        h.answered.get(field.start..field.end),
        h.closing.get(field.start..field.end),
    ) {
        s.quoted(b'u', suo);
        s.quoted(b'v', var);
    }
}

// The text for a reply: 1010 and 1011 have reasons of their own in field 1, and where the length is digits the fault of its format is what
// follows the message.
pub fn key_on(r: &Reply, field: Option<Field>) -> u64 {
    match field {
        Some(f) if f.number == 10 && is_format(r) => cli_texts::NO_ESI,
        Some(f) if f.number == 10 => cli_texts::LATER_ESI,
        Some(f) if f.number == 20 && is_format(r) && begins_with_length(shown_of(r, f)) => {
            cli_texts::OVER
        }
        _ => r.key(),
    }
}

fn begins_with_length(shown: &[u8]) -> bool {
    match shown.get(..3) {
        Some(length) => text::all_digits(length),
        None => false,
    }
}
