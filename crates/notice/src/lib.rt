// The codes that replies give: accepted or in error, bare or full, and the text of each in the notice.

#![tactic(auto)]

ghost use Rattle.std.specs.Prelude.{◌≡◌, [], ◌++◌, ◌+◌, ◌≤◌, map, length};
ghost use Rattle.arrayvec.specs.ArrayVec.{array_vec_len};
ghost use Rattle.ground.specs.Choice.{pick};
ghost use Rattle.text.specs.Characters.{padded};
ghost use Rattle.text.specs.Letters.{letters};
ghost use Rattle.message.specs.Contents.{held_in};
ghost use Rattle.notice.specs.Codes.{code_in, codes, field_name, shown_byte, value_text, text_of};
ghost use Rattle.notice.specs.Rows.{code_of};

mod tables;

use arrayvec::ArrayVec;
use tables::CodeRow;

// A text on its way into the notice, with room for the longest.
type Said = ArrayVec<u8, 53>;

// The row of a code. A number that is no code has no text, is refused and bare.
fn row_of(code: u32) -> CodeRow
    ensures { code_of result ≡ code_in code codes }
{
    tables::CODES
        .iter()
        .find(|row| row.code == code)
        .copied()
        .unwrap_or(tables::BARE)
}

pub fn is_accepted(code: u32) -> bool
    ensures { result ≡ (code_in code codes).accepted }
{
    row_of(code).accepted
}

// K or E.
#[tactic(auto, unfolding(ground::specs::Choice::pick, text::specs::Letters::letters))]
pub fn success(code: u32) -> [u8; 1]
    ensures { result ≡ pick (code_in code codes).accepted (letters "K") (letters "E") }
{
    if is_accepted(code) { *b"K" } else { *b"E" }
}

pub fn is_bare(code: u32) -> bool
    ensures { result ≡ (code_in code codes).bare }
{
    row_of(code).bare
}

fn name_of(field: u32) -> &'static [u8]
    ensures { result.now ≡ field_name field }
{
    match tables::FIELDS.iter().find(|row| row.0 == field) {
        Some(row) => row.1,
        None => b"",
    }
}

// A byte as it is shown.
#[tactic(auto, unfolding(crate::specs::Codes::shown_byte, ground::specs::Choice::between, ground::specs::Choice::both, ground::specs::Choice::pick))]
fn shown_byte(b: u8) -> u8
    ensures { result ≡ shown_byte b }
{
    match b {
        0x20..=0x7E => b,
        _ => b'?',
    }
}

fn shown(text: [u8; 17]) -> [u8; 17]
    ensures { result ≡ map shown_byte text }
{
    text.map(shown_byte)
}

// A part put at the end of a text that has room for it.
fn put(out: &mut Said, part: &[u8])
    requires { array_vec_len out.old + length part.now ≤ 53 }
    ensures items { out.new.items ≡ out.old.items ++ part.now }
    ensures len { array_vec_len out.new ≡ array_vec_len out.old + length part.now }
{
    let _full = out.try_extend_from_slice(part);
}

// The field's name, where the code names one.
#[tactic(auto, using(crate::proofs::Texts::name_length), unfolding(ground::specs::Choice::pick))]
fn put_name(said: &mut Said, row: CodeRow, field: u32)
    requires { array_vec_len said.old + pick row.names 15 0 ≤ 53 }
    ensures items { said.new.items ≡ said.old.items ++ pick row.names (field_name field) [] }
    ensures len { array_vec_len said.new ≤ array_vec_len said.old + pick row.names 15 0 }
{
    if row.names {
        put(said, name_of(field));
    }
}

// A blank and the contents of the field as they are shown, where the code shows them.
fn put_value(said: &mut Said, row: CodeRow, contents: message::Contents)
    requires { array_vec_len said.old + pick row.shows 18 0 ≤ 53 }
    ensures items { said.new.items ≡ said.old.items ++ pick row.shows (value_text (held_in contents)) [] }
    ensures len { array_vec_len said.new ≤ array_vec_len said.old + pick row.shows 18 0 }
{
    if row.shows {
        put(said, b" ");
        put(said, &shown(contents.text)[..contents.count.min(17)]);
    }
}

// The text of a code, whole.
fn said(code: u32, field: u32, contents: message::Contents) -> Said
    ensures { result.items ≡ text_of code field (held_in contents) }
{
    let row = row_of(code);
    let mut said = ArrayVec::new();
    put(&mut said, row.before);
    put_name(&mut said, row, field);
    put_value(&mut said, row, contents);
    put(&mut said, row.after);
    said
}

// The text of a code, with the field's name where it names one and its contents where it shows them, and blanks up to the notice's end.
pub fn text(code: u32, field: u32, contents: message::Contents) -> [u8; 51]
    ensures { result ≡ padded 51 (text_of code field (held_in contents)) }
{
    let mut out = [b' '; 51];
    text::copy(&mut out, &said(code, field, contents));
    out
}
