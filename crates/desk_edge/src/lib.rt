// The desk's calls for a box in C or Rust: numbers and byte slices; a desk and what was sent are lent bytes of one length each.

#![tactic(auto)]

pub mod builder;

ghost use Rattle.std.specs.Prelude.{◌≡◌, [], ◌∷◌, eqb, length, take};
ghost use Rattle.ground.specs.Choice.{both, pick, between};
ghost use Rattle.ground.specs.Lists.{same};
ghost use Rattle.message.specs.declared.Kind.TheVariants.{Esi, Suo, Var};
ghost use Rattle.whole_file.specs.Messages.{begins};
ghost use Rattle.edge.specs.Edge.{fixed};
ghost use Rattle.desk_bytes.specs.Layout.{held_size, sent_size};
ghost use Rattle.desk_bytes.specs.Bytes.{is_held, held_in};
ghost use Rattle.desk_edge.specs.Calls.{opened_by, no_desk_refusal, entered_by, held_after_call, values_of, are_told, length_of, are_sent, known, sent_refusal, sent_after_call};
ghost use Rattle.desk_edge.specs.Calls.{finding_code, finding_field, esi_by, pte_by, MeetsCheck};

use refusals::Refusal;

// How many bytes a desk takes, and what was sent.
#[unsafe(no_mangle)]
pub extern "C" fn lp_held_size() -> u32
    ensures { result ≡ 88 }
{
    88
}

#[unsafe(no_mangle)]
pub extern "C" fn lp_sent_size() -> u32
    ensures { result ≡ 100 }
{
    100
}

// Bytes of another length stand for zeros, which are no name.
fn fixed<const N: usize>(bytes: &[u8]) -> [u8; N]
    ensures { result ≡ fixed N bytes.now }
{
    let mut out = [0; N];
    if bytes.len() == N {
        text::copy(&mut out, bytes);
    }
    out
}

#[tactic(auto, unfolding(ground::specs::Choice::pick))]
fn generation_asked(length: usize, generation: u32) -> u32
    ensures { result ≡ pick (eqb length held_size) generation 10 }
{
    if length == 88 { generation } else { 10 }
}

// The desk's bytes after a call: a refused one leaves them.
#[tactic(auto, unfolding(crate::specs::Calls::held_after_call, ground::specs::Choice::pick))]
fn put_given(held: &mut [u8], x: desk::Given)
    ensures { held.new ≡ held_after_call held.old x }
{
    if x.refusal == 0 {
        desk_bytes::store_held(held, x.held);
    }
}

#[unsafe(no_mangle)]
pub extern "C" fn lp_held_open(
    held: &mut [u8],
    own: &[u8],
    bank: &[u8],
    part1: u64,
    part2: u64,
    check: u32,
    generation: u32,
) -> u32
    ensures answers { result ≡ (opened_by held.old own.now bank.now part1 part2 check generation).refusal }
    ensures keeps { held.new ≡ held_after_call held.old
        (opened_by held.old own.now bank.now part1 part2 check generation) }
{
    let p = desk::Parts {
        part1,
        part2,
        check: check as u64,
        generation: generation_asked(held.len(), generation),
    };
    let x = desk::open(fixed(own), fixed(bank), p);
    put_given(held, x);
    x.refusal
}

// What refuses a key for bytes that are no desk's.
fn no_desk_refusal(p: desk::Parts) -> u32
    ensures { result ≡ no_desk_refusal p }
{
    refusals::code(refusals::first_of(&[
        (refusals::is_even_part(p.part1, p.part2), Refusal::EvenPart),
        (
            refusals::is_other_check(p.part1, p.part2, p.check),
            Refusal::OtherCheck,
        ),
        (true, Refusal::OutOfLimits),
    ]))
}

#[tactic(auto, unfolding(crate::specs::Calls::entered_by, ground::specs::Choice::pick))]
fn entered(held: &[u8], p: desk::Parts) -> desk::Given
    ensures { result ≡ entered_by held.now p }
{
    if desk_bytes::is_held(held) {
        desk::enter(desk_bytes::load_held(held), p)
    } else {
        desk::Given {
            refusal: no_desk_refusal(p),
            held: desk::no_desk(),
        }
    }
}

#[unsafe(no_mangle)]
pub extern "C" fn lp_held_enter(
    held: &mut [u8],
    part1: u64,
    part2: u64,
    check: u32,
    generation: u32,
) -> u32
    ensures answers { result ≡ (entered_by held.old
        (record { part1 = part1; part2 = part2; check = check; generation = generation })).refusal }
    ensures keeps { held.new ≡ held_after_call held.old (entered_by held.old
        (record { part1 = part1; part2 = part2; check = check; generation = generation })) }
{
    let p = desk::Parts {
        part1,
        part2,
        check: check as u64,
        generation,
    };
    let x = entered(held, p);
    put_given(held, x);
    x.refusal
}

// ---- what is compared by telephone

fn put_values(values: &mut [u32], h: desk::Held)
    requires { length values.old ≡ 4 }
    ensures { values.new ≡ values_of h }
{
    values[0] = h.transport.generation;
    values[1] = keys::check_value(h.transport.key) as u32;
    values[2] = h.working.generation;
    values[3] = keys::check_value(h.working.key) as u32;
}

#[tactic(auto, unfolding(ground::specs::Choice::both))]
fn are_told(held: &[u8], values: usize) -> bool
    ensures { result ≡ both (is_held held.now) (eqb values 4) }
{
    desk_bytes::is_held(held) && values == 4
}

// The current keys' generations and check values, which both sides read out after a change.
#[unsafe(no_mangle)]
pub extern "C" fn lp_held_values(held: &[u8], values: &mut [u32]) -> u32
    ensures answers { result ≡ pick (are_told held.now values.old) 0 11 }
    ensures tells { values.new ≡ pick (are_told held.now values.old)
        (values_of (held_in held.now)) values.old }
{
    if !are_told(held, values.len()) {
        return 11;
    }
    let h = desk_bytes::load_held(held);
    put_values(values, h);
    0
}

// ---- what was sent

fn five_of(m: &[u8]) -> &[u8]
    ensures { result.now ≡ take 5 m.now }
{
    if m.len() < 5 {
        return m;
    }
    &m[..5]
}

#[tactic(auto, using(ground::proofs::Std::words))]
fn is_long(least: usize, length: usize) -> bool
    ensures { result ≡ between least 500 length }
{
    (least..=500).contains(&length)
}

#[tactic(auto, unfolding(whole_file::specs::Messages::begins, text::specs::Letters::letters, message::specs::Layout::layout_length, message::specs::Layout::layout, message::specs::Layout::total, ground::specs::Choice::both))]
fn is_esi_twice(first: &[u8], closing: &[u8]) -> bool
    ensures { result ≡ both (begins ">>ESI" first.now)
        (both (length_of Esi first.now) (same first.now closing.now)) }
{
    text::same_bytes(five_of(first), b">>ESI")
        && is_long(161, first.len())
        && text::same_bytes(first, closing)
}

#[tactic(auto, unfolding(whole_file::specs::Messages::begins, text::specs::Letters::letters, message::specs::Layout::layout_length, message::specs::Layout::layout, message::specs::Layout::total, ground::specs::Choice::both))]
fn is_suo_and_var(first: &[u8], closing: &[u8]) -> bool
    ensures { result ≡ both (begins ">>SUO" first.now) (both (length_of Suo first.now)
        (both (begins ">>VAR" closing.now) (length_of Var closing.now))) }
{
    text::same_bytes(five_of(first), b">>SUO")
        && is_long(128, first.len())
        && text::same_bytes(five_of(closing), b">>VAR")
        && is_long(161, closing.len())
}

#[tactic(auto, unfolding(crate::specs::Calls::are_sent, ground::specs::Choice::either))]
fn are_sent(first: &[u8], closing: &[u8]) -> bool
    ensures { result ≡ are_sent first.now closing.now }
{
    is_esi_twice(first, closing) || is_suo_and_var(first, closing)
}

fn known_of(m: &[u8]) -> [u8; 161]
    ensures { result ≡ known m.now }
{
    let mut out = [0u8; 161];
    text::copy(&mut out, m);
    out
}

#[unsafe(no_mangle)]
pub extern "C" fn lp_sent_of(first: &[u8], closing: &[u8], sent: &mut [u8]) -> u32
    ensures answers { result ≡ sent_refusal first.now closing.now sent.old }
    ensures keeps { sent.new ≡ sent_after_call first.now closing.now sent.old }
{
    if !are_sent(first, closing) {
        return 11;
    }
    if sent.len() != 100 {
        return 11;
    }
    let s = desk::sent_by(known_of(first), known_of(closing));
    desk_bytes::store_sent(sent, s);
    0
}

// ---- a reply is checked

// Whether a check can be served: the desk's bytes, the length of what was sent, room for three words.
#[tactic(auto, unfolding(ground::specs::Choice::both))]
fn is_served(held: &[u8], sent: &[u8], words: usize) -> bool
    ensures { result ≡ both (is_held held.now) (both (eqb (length sent.now) sent_size) (eqb words 3)) }
{
    desk_bytes::is_held(held) && sent.len() == 100 && words == 3
}

#[tactic(auto, unfolding(crate::specs::Calls::finding_code))]
fn code_of(f: Result<(), desk::Finding>) -> u32
    ensures { result ≡ finding_code f }
{
    match f {
        Ok(()) => 0,
        Err(finding) => finding.code,
    }
}

#[tactic(auto, unfolding(crate::specs::Calls::finding_field))]
fn field_of(f: Result<(), desk::Finding>) -> u32
    ensures { result ≡ finding_field f }
{
    match f {
        Ok(()) => 0,
        Err(finding) => finding.field,
    }
}

// Field, the bank's letter, the bank's code.
fn put_word(word: &mut [u32], x: desk::Checked)
    requires { length word.old ≡ 3 }
    ensures { word.new ≡ finding_field x.finding ∷ x.letter ∷ x.code ∷ [] }
{
    word[0] = field_of(x.finding);
    word[1] = x.letter as u32;
    word[2] = x.code;
}

#[unsafe(no_mangle)]
pub extern "C" fn lp_check_esi(held: &mut [u8], sent: &[u8], reply: &[u8], word: &mut [u32]) -> u32
    ensures { MeetsCheck held.old sent.now word.old
        (esi_by held.old sent.now reply.now)
        result held.new word.new }
{
    if !is_served(held, sent, word.len()) {
        return 11;
    }
    let h = desk_bytes::load_held(held);
    let s = desk_bytes::load_sent(sent);
    let x = desk::check_esi(h, s, reply);
    desk_bytes::store_held(held, x.held);
    put_word(word, x);
    code_of(x.finding)
}

#[unsafe(no_mangle)]
pub extern "C" fn lp_check_pte(held: &mut [u8], sent: &[u8], reply: &[u8], word: &mut [u32]) -> u32
    ensures { MeetsCheck held.old sent.now word.old
        (pte_by held.old sent.now reply.now)
        result held.new word.new }
{
    if !is_served(held, sent, word.len()) {
        return 11;
    }
    let h = desk_bytes::load_held(held);
    let s = desk_bytes::load_sent(sent);
    let x = desk::check_pte(h, s, reply);
    desk_bytes::store_held(held, x.held);
    put_word(word, x);
    code_of(x.finding)
}
