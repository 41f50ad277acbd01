// The form of what the bank sends back: its first fault.

#![tactic(auto)]

ghost use Rattle.std.specs.Prelude.{◌≡◌, List, [], ◌∷◌, ℕ, ◌-◌, ◌<◌, ◌≤◌, eqb, length, take, drop, get_or};
ghost use Rattle.ground.specs.Choice.{both};
ghost use Rattle.ground.specs.Lists.{all, member, part, same};
ghost use Rattle.text.specs.Characters.{digit, hex_digit, all_blank};
ghost use Rattle.message.specs.Layout.{laid, no_field, fields, total, width_in, field_text};
ghost use Rattle.message.specs.Order.{first_failing};
ghost use Rattle.message.specs.Rules.{only, one_of, format_holds, obeys, value_holds, each_field};
ghost use Rattle.message.specs.declared.About.TheVariants.{Answered};
ghost use Rattle.desk_form.specs.Replies.{reply_layout, reply_size, awaited, encloses, reply_hexes, both_rules, each_rules, reply_form};
ghost use Rattle.desk_form.specs.Replies.{fails_in, reply_checks};

// The messages that a bank sends back.
#[derive(Clone, Copy, Debug, PartialEq, Eq)]
pub enum Reply {
    Esi,
    Pte,
}

// What a field is tested for.
#[derive(Clone, Copy, Debug, PartialEq, Eq)]
enum Test {
    Format,
    Value,
}

// The fields' numbers, in their order.
const NUMBERS: [u32; 25] = [
    10, 20, 30, 40, 50, 60, 70, 81, 82, 91, 92, 100, 110, 121, 122, 123, 130, 140, 150, 160, 170,
    180, 190, 200, 210,
];

// Where each field begins, and where the last ends.
const STARTS: [usize; 26] = [
    0, 5, 8, 11, 12, 16, 32, 35, 52, 60, 77, 85, 86, 87, 93, 99, 102, 103, 112, 128, 144, 160, 161,
    177, 237, 317,
];

// How many characters a reply has.
pub fn size_of(k: Reply) -> usize
    ensures { result ≡ reply_size k }
{
    match k {
        Reply::Esi => 237,
        Reply::Pte => 317,
    }
}

// How many fields a reply has.
fn count_of(k: Reply) -> usize
    ensures { result ≡ length (reply_layout k) }
{
    match k {
        Reply::Esi => 24,
        Reply::Pte => 25,
    }
}

fn number_of(i: usize) -> u32
    requires { i < 25 }
    ensures { result ≡ (get_or fields i (laid no_field "" 0)).number }
{
    NUMBERS[i]
}

fn start_of(i: usize) -> usize
    requires { i ≤ 25 }
    ensures { result ≡ total (take i fields) }
{
    STARTS[i]
}

// The characters of the fields from one place of the order to before another, as far as the reply goes.
fn span(from: usize, to: usize, r: &[u8]) -> &[u8]
    requires { (from ≤ to) × (to ≤ 25) }
    ensures { result.now ≡ part (total (take from fields)) (total (take to fields) - total (take from fields)) r.now }
{
    let a = start_of(from).min(r.len());
    let e = start_of(to).min(r.len());
    &r[a..e]
}

// Whether the characters past the layout are blank.
fn is_blank_over(k: Reply, r: &[u8]) -> bool
    ensures { result ≡ all_blank (drop (reply_size k) r.now) }
{
    let n = size_of(k).min(r.len());
    text::all_blank(&r[n..])
}

// Whether field 18 says that a key is enclosed.
pub fn encloses_key(r: &[u8]) -> bool
    ensures { result ≡ encloses r.now }
{
    text::same_bytes(b"1", span(21, 22, r))
}

// A test that is made only of some fields.
#[tactic(auto, unfolding(ground::specs::Choice::either, ground::specs::Choice::fails))]
fn only_if(asked: bool, holds: bool) -> bool
    ensures { result ≡ only asked holds }
{
    !asked || holds
}

// Field 1 is the awaited identifier.
fn is_awaited(k: Reply, number: u32, text: &[u8]) -> bool
    ensures { result ≡ only (eqb number 10) (same (awaited k) text.now) }
{
    if number != 10 {
        return true;
    }
    match k {
        Reply::Esi => text::same_bytes(b">>ESI", text),
        Reply::Pte => text::same_bytes(b">>PTE", text),
    }
}

// The fields that are digits. Neighbours stand in different arms, so that each number is a case of its own.
fn digits_hold(n: u32, text: &[u8]) -> bool
    ensures { result ≡ only (member n (2 ∷ 3 ∷ 5 ∷ 10 ∷ 11 ∷ 12 ∷ [])) (all digit text.now) }
{
    match n {
        2 | 5 | 10 | 12 => text::all_digits(text),
        3 | 11 => text::all_digits(text),
        _ => true,
    }
}

// The fields that are hex digits, in a reply that encloses a key or not.
fn hex_holds(k: Reply, enclosed: bool, number: u32, text: &[u8]) -> bool
    ensures { result ≡ only (member number (reply_hexes k enclosed)) (all hex_digit text.now) }
{
    match number {
        150 | 160 => match k {
            Reply::Esi => true,
            Reply::Pte => text::all_hex_digits(text),
        },
        170 => text::all_hex_digits(text),
        190 => only_if(enclosed, text::all_hex_digits(text)),
        _ => true,
    }
}

#[tactic(auto, unfolding(message::specs::Rules::format_holds, ground::specs::Choice::both))]
fn format_holds(k: Reply, enclosed: bool, blank_over: bool, number: u32, text: &[u8]) -> bool
    ensures { result ≡ format_holds (reply_form k enclosed) blank_over number text.now }
{
    only_if(number / 10 <= 16, text::all_field_characters(text))
        && digits_hold(number / 10, text)
        && hex_holds(k, enclosed, number, text)
        && only_if(number == 20, blank_over)
}

// One of two texts.
#[tactic(auto, unfolding(message::specs::Rules::one_of, ground::specs::Choice::either))]
fn one_of(a: &[u8], b: &[u8], text: &[u8]) -> bool
    ensures { result ≡ one_of (a.now ∷ b.now ∷ []) text.now }
{
    text::same_bytes(a, text) || text::same_bytes(b, text)
}

// The rules that both replies have, of one that encloses a key or not.
fn both_hold(k: Reply, enclosed: bool, number: u32, text: &[u8]) -> bool
    requires { length text.now ≤ width_in number fields }
    ensures { (r : List ℕ) → field_text number r ≡ text.now → encloses r ≡ «enclosed»
        → result ≡ obeys (both_rules k) number r }
{
    match number {
        20 => text::number(text) == size_of(k) as u64,
        30 => one_of(b"110", b"120", text),
        40 => one_of(b"K", b"E", text),
        60 => !text::all_blank(text),
        70 => text::same_bytes(b"SMH", text),
        121 => {
            let d = calendar::Date {
                yymmdd: text::number(text) as u32,
            };
            d.is_real()
        }
        122 => calendar::is_real_time(text::number(text) as u32),
        140 => text::all_blank(text),
        180 => one_of(b"0", b"1", text),
        190 => only_if(!enclosed, text::all_blank(text)),
        _ => true,
    }
}

// The rules of each reply.
fn each_holds(k: Reply, number: u32, text: &[u8]) -> bool
    ensures { (r : List ℕ) → field_text number r ≡ text.now → result ≡ obeys (each_rules k) number r }
{
    match k {
        Reply::Esi => match number {
            130 | 150 | 160 => text::all_blank(text),
            _ => true,
        },
        Reply::Pte => match number {
            130 => one_of(b"S", b"A", text),
            _ => true,
        },
    }
}

fn value_holds(k: Reply, enclosed: bool, number: u32, text: &[u8]) -> bool
    requires { length text.now ≤ width_in number fields }
    ensures { (r : List ℕ) → field_text number r ≡ text.now → encloses r ≡ «enclosed»
        → result ≡ value_holds (reply_form k «enclosed») number r }
{
    if !both_hold(k, enclosed, number, text) {
        return false;
    }
    each_holds(k, number, text)
}

// The format, with the awaited identifier.
#[tactic(auto, unfolding(ground::specs::Choice::both))]
fn is_formed(k: Reply, enclosed: bool, blank_over: bool, number: u32, text: &[u8]) -> bool
    ensures { result ≡ both (only (eqb number 10) (same (awaited k) text.now))
        (format_holds (reply_form k enclosed) blank_over number text.now) }
{
    is_awaited(k, number, text) && format_holds(k, enclosed, blank_over, number, text)
}

// Whether a field fails the test.
fn is_broken(
    test: Test,
    k: Reply,
    enclosed: bool,
    blank_over: bool,
    number: u32,
    text: &[u8],
) -> bool
    requires { length text.now ≤ width_in number fields }
    ensures { (r : List ℕ) → field_text number r ≡ text.now → encloses r ≡ «enclosed»
        → all_blank (drop (reply_size k) r) ≡ blank_over → result ≡ fails_in test k r number }
{
    match test {
        Test::Format => !is_formed(k, enclosed, blank_over, number, text),
        Test::Value => !value_holds(k, enclosed, number, text),
    }
}

// The lowest field that is broken.
fn first_broken(test: Test, code: u32, k: Reply, r: &[u8]) -> Result<(), message::Fault>
    ensures { result ≡ first_failing (each_field code Answered (fails_in test k r.now) (reply_layout k)) }
{
    let count = count_of(k);
    let enclosed = encloses_key(r);
    let blank_over = is_blank_over(k, r);
    for i in 0..count {
        let number = number_of(i);
        if is_broken(test, k, enclosed, blank_over, number, span(i, i + 1, r)) {
            return Err(message::Fault {
                code,
                field: number,
                about: message::About::Answered,
            });
        }
    }
    Ok(())
}

// The first fault: shorter than the layout, else of the format, else of the values.
pub fn fault_of(k: Reply, r: &[u8]) -> Result<(), message::Fault>
    ensures { result ≡ first_failing (reply_checks k r.now) }
{
    if r.len() < size_of(k) {
        return Err(message::Fault {
            code: 3032,
            field: 0,
            about: message::About::Answered,
        });
    }
    first_broken(Test::Format, 3010, k, r)?;
    first_broken(Test::Value, 3011, k, r)
}
