// The desk on the customer's side: what it holds, and what it finds in a reply of the bank's.

#![tactic(auto)]

ghost use Rattle.std.specs.Prelude.{◌≡◌, List, [], ◌∷◌, ◌++◌, ◌+◌, ◌-◌, ◌<◌, ◌≤◌, ltb, None};
ghost use Rattle.ground.specs.Choice.{both, either, fails};
ghost use Rattle.ground.specs.Lists.{part, same};
ghost use Rattle.text.specs.Numbers.{decimal, hex};
ghost use Rattle.customer.specs.Settings.{sound_who};
ghost use Rattle.refusals.specs.Refusals.{lowest};
ghost use Rattle.refusals.specs.Numbers.{code_of};
ghost use Rattle.message.specs.Order.{first_failing};
ghost use Rattle.message.specs.Fields.{stamp_text_of};
ghost use Rattle.desk.specs.Sent.{sent_by};
ghost use Rattle.checks.specs.Checks.{checksum_differs};
ghost use Rattle.desk_form.specs.Replies.{encloses};
ghost use Rattle.desk.specs.Held.{key_named, replaced, opening_refusals, opened_desk, no_desk, opening};
ghost use Rattle.desk.specs.Held.{entering_refusals, entered_desk, entering};
ghost use Rattle.desk.specs.Desk.{deciphering, enclosed_in, is_not_odd, receiver_checks, came_checks, reply_key_checks, stamp_sent_checks, desk_esi_checks};
ghost use Rattle.desk.specs.Desk.{batch_sent_checks, desk_pte_checks, with_enclosed, kept_from, held_after, finding_of, letter_in, code_in};
ghost use Rattle.desk.specs.Desk.{checked_by, esi_checked, pte_checked};

use message::{Check, Fault};
use refusals::Refusal;

// A key with its generation.
#[derive(Clone, Copy, Debug, PartialEq, Eq)]
pub struct Numbered {
    pub generation: u32,
    pub key: u64,
}

// The keys of one kind.
#[derive(Clone, Copy, Debug, PartialEq, Eq)]
pub struct Keys {
    pub generation: u32,
    pub key: u64,
    pub before: Option<Numbered>,
}

// A desk for one customer at one bank: both identities with their qualifiers, and the keys.
#[derive(Clone, Copy, Debug, PartialEq, Eq)]
pub struct Held {
    pub own: [u8; 25],
    pub bank: [u8; 25],
    pub transport: Keys,
    pub working: Keys,
}

// A transport key as it came by letter: two parts, the check value, the generation.
#[derive(Clone, Copy, Debug, PartialEq, Eq)]
pub struct Parts {
    pub part1: u64,
    pub part2: u64,
    pub check: u64,
    pub generation: u32,
}

// A call's refusal, 0 where it was served, and the desk after it.
#[derive(Clone, Copy, Debug, PartialEq, Eq)]
pub struct Given {
    pub refusal: u32,
    pub held: Held,
}

// What was sent, as characters: an ESI's fields, or a SUO's with the generations and the digest of its VAR.
#[derive(Clone, Copy, Debug, PartialEq, Eq)]
pub struct Sent {
    pub receiver: [u8; 25],
    pub sender: [u8; 25],
    pub transport: u8,
    pub working: u8,
    pub stamp: [u8; 15],
    pub area: u8,
    pub once: [u8; 16],
    pub digest: [u8; 16],
}

/// The code and the field (0 where it names none) of the first check that fails.
#[derive(Clone, Copy, Debug, PartialEq, Eq)]
pub struct Finding {
    pub code: u32,
    pub field: u32,
}

// What a check of a reply gives: whether all checks pass or the finding, the desk after it, and the bank's own letter and code, told also where the desk refuses.
#[derive(Clone, Copy, Debug, PartialEq, Eq)]
pub struct Checked {
    pub finding: Result<(), Finding>,
    pub held: Held,
    pub letter: u8,
    pub code: u32,
}

// The characters from one place to before another, as far as the reply goes.
fn between(from: usize, to: usize, r: &[u8]) -> &[u8]
    requires { from ≤ to }
    ensures { result.now ≡ part from (to - from) r.now }
{
    &r[from.min(r.len())..to.min(r.len())]
}

// ---- keys

// The key of that generation, if the desk holds it.
#[tactic(auto, unfolding(crate::specs::Held::key_named, crate::specs::Held::before_named, ground::specs::Choice::pick))]
fn named(k: Keys, generation: u32) -> Option<u64>
    ensures { result ≡ key_named k generation }
{
    if k.generation == generation {
        Some(k.key)
    } else {
        k.before
            .filter(|b| b.generation == generation)
            .map(|b| b.key)
    }
}

// The keys with a new current one.
#[tactic(auto, unfolding(crate::specs::Held::replaced))]
fn replace(k: Keys, generation: u32, key: u64) -> Keys
    ensures { result ≡ replaced k generation key }
{
    Keys {
        generation,
        key,
        before: Some(Numbered {
            generation: k.generation,
            key: k.key,
        }),
    }
}

// The keys with one that a reply enclosed: the key that was used stays beside it.
#[tactic(auto, unfolding(crate::specs::Desk::with_enclosed, crate::specs::Held::replaced, ground::specs::Choice::pick))]
fn with_enclosed(w: Keys, used: u32, key: u64) -> Keys
    ensures { result ≡ with_enclosed w used key }
{
    let next = keys::next_generation(used);
    if w.generation == used {
        return replace(w, next, key);
    }
    Keys {
        generation: next,
        key,
        ..w
    }
}

// ---- what was sent

// Sixteen characters from a place on.
fn sixteen_at(at: usize, m: [u8; 161]) -> [u8; 16]
    requires { at + 16 ≤ 161 }
    ensures { result ≡ part at 16 m }
{
    let mut out = [0u8; 16];
    text::copy(&mut out, between(at, at + 16, &m));
    out
}

fn stamp_in(m: [u8; 161]) -> [u8; 15]
    ensures { result ≡ stamp_text_of m }
{
    let mut out = [0u8; 15];
    text::copy(&mut out, between(87, 102, &m));
    out
}

// By the known fields of its messages: an ESI twice, or a SUO and its VAR.
pub fn sent_by(first: [u8; 161], closing: [u8; 161]) -> Sent
    ensures { result ≡ sent_by first closing }
{
    Sent {
        receiver: message::receiver(first),
        sender: message::sender(first),
        transport: closing[85],
        working: closing[86],
        stamp: stamp_in(first),
        area: first[102],
        once: sixteen_at(112, first),
        digest: sixteen_at(128, closing),
    }
}

// ---- a desk is opened

// Whether a name or the generation is out of its limits.
#[tactic(auto, unfolding(ground::specs::Choice::either, ground::specs::Choice::fails))]
fn is_opening_out(own: [u8; 25], bank: [u8; 25], generation: u32) -> bool
    ensures { result ≡ either (fails (sound_who own)) (either (fails (sound_who bank)) (ltb 9 generation)) }
{
    !customer::is_sound_who(&own) || !customer::is_sound_who(&bank) || 9 < generation
}

// Why a desk can't be opened, if it can't.
fn opening_refusal(own: [u8; 25], bank: [u8; 25], p: Parts) -> Result<(), Refusal>
    ensures { code_of result ≡ lowest (opening_refusals own bank p) }
{
    refusals::first_of(&[
        (refusals::is_even_part(p.part1, p.part2), Refusal::EvenPart),
        (
            refusals::is_other_check(p.part1, p.part2, p.check),
            Refusal::OtherCheck,
        ),
        (
            is_opening_out(own, bank, p.generation),
            Refusal::OutOfLimits,
        ),
    ])
}

// A key without one before it.
fn only_key(generation: u32, key: u64) -> Keys
    ensures { result ≡ record { generation = generation; key = key; before = None } }
{
    Keys {
        generation,
        key,
        before: None,
    }
}

// The transport key from its parts, and working key 0 from it.
#[tactic(auto, unfolding(crate::specs::Held::opened_desk))]
fn opened_desk(own: [u8; 25], bank: [u8; 25], p: Parts) -> Held
    ensures { result ≡ opened_desk own bank p }
{
    let key = keys::combine(p.part1, p.part2);
    let transport = only_key(p.generation, key);
    let working = only_key(0, keys::working_key_0(key));
    Held {
        own,
        bank,
        transport,
        working,
    }
}

// What is handed back where a desk can't be opened.
pub fn no_desk() -> Held
    ensures { result ≡ no_desk }
{
    Held {
        own: [0; 25],
        bank: [0; 25],
        transport: only_key(0, 0),
        working: only_key(0, 0),
    }
}

// A desk for a customer at a bank, from a transport key that came in two parts.
pub fn open(own: [u8; 25], bank: [u8; 25], p: Parts) -> Given
    ensures { result ≡ opening own bank p }
{
    let outcome = opening_refusal(own, bank, p);
    let refusal = refusals::code(outcome);
    match outcome {
        Ok(()) => Given {
            refusal,
            held: opened_desk(own, bank, p),
        },
        Err(_) => Given {
            refusal,
            held: no_desk(),
        },
    }
}

// ---- a transport key is entered

// Why a transport key can't be entered, if it can't.
fn entering_refusal(h: Held, p: Parts) -> Result<(), Refusal>
    ensures { code_of result ≡ lowest (entering_refusals h p) }
{
    refusals::first_of(&[
        (refusals::is_even_part(p.part1, p.part2), Refusal::EvenPart),
        (
            refusals::is_other_check(p.part1, p.part2, p.check),
            Refusal::OtherCheck,
        ),
        (
            refusals::is_not_next(h.transport.generation, p.generation),
            Refusal::NotNext,
        ),
    ])
}

#[tactic(auto, unfolding(crate::specs::Held::entered_desk))]
fn entered_desk(h: Held, p: Parts) -> Held
    ensures { result ≡ entered_desk h p }
{
    let key = keys::combine(p.part1, p.part2);
    Held {
        transport: replace(h.transport, p.generation, key),
        ..h
    }
}

// The desk with the next transport key; the working keys stay.
pub fn enter(h: Held, p: Parts) -> Given
    ensures { result ≡ entering h p }
{
    let outcome = entering_refusal(h, p);
    let refusal = refusals::code(outcome);
    match outcome {
        Ok(()) => Given {
            refusal,
            held: entered_desk(h, p),
        },
        Err(_) => Given { refusal, held: h },
    }
}

// ---- what a reply says

// A generation, which is one character.
fn generation_at(at: usize, r: &[u8]) -> u32
    requires { at < 161 }
    ensures { result ≡ decimal (part at 1 r.now) }
{
    text::number(between(at, at + 1, r)) as u32
}

// A field of sixteen hex digits.
fn block_at(at: usize, r: &[u8]) -> u64
    requires { at < 177 }
    ensures { result ≡ hex (part at 16 r.now) }
{
    text::hex_number(between(at, at + 16, r))
}

// Field 19 as it came, deciphered.
#[tactic(auto, unfolding(crate::specs::Desk::deciphering))]
fn deciphered_under(k: Option<u64>, sealed: u64) -> Option<u64>
    ensures { result ≡ deciphering k sealed }
{
    k.map(|transport| des::decipher(transport, sealed))
}

// The key of field 19.
fn enclosed_in(h: Held, r: &[u8]) -> Option<u64>
    ensures { result ≡ enclosed_in h r.now }
{
    deciphered_under(named(h.transport, generation_at(85, r)), block_at(161, r))
}

// The bank's letter, 0 where there is none.
fn letter_in(r: &[u8]) -> u8
    ensures { result ≡ letter_in r.now }
{
    let text = between(11, 12, r);
    if text::same_bytes(b"K", text) {
        return 0x4B;
    }
    if text::same_bytes(b"E", text) {
        return 0x45;
    }
    0
}

// The bank's code, 0 where it can't be read.
fn code_in(r: &[u8]) -> u32
    ensures { result ≡ code_in r.now }
{
    let text = between(12, 16, r);
    if text.len() != 4 {
        return 0;
    }
    if !text::all_digits(text) {
        return 0;
    }
    text::number(text) as u32
}

// ---- the checks, in their order

// Whether other characters came there than the awaited ones.
fn differs(awaited: &[u8], from: usize, to: usize, r: &[u8]) -> bool
    requires { from ≤ to }
    ensures { result ≡ fails (same awaited.now (part from (to - from) r.now)) }
{
    !text::same_bytes(awaited, between(from, to, r))
}

#[tactic(auto, unfolding(checks::specs::Checks::checksum_differs, message::specs::Fields::checksum_field_of, message::specs::Layout::field_text, message::specs::Layout::offset_in, message::specs::Layout::width_in, ground::specs::Choice::pick, ground::specs::Choice::fails))]
fn checksum_differs(k: Option<u64>, r: &[u8]) -> bool
    ensures { result ≡ checksum_differs k r.now }
{
    k.is_none_or(|key| digest::checksum(key, r) != block_at(144, r))
}

// A key that is missing has no parity either.
#[tactic(auto, unfolding(crate::specs::Desk::is_not_odd, ground::specs::Choice::fails))]
fn is_not_odd(k: Option<u64>) -> bool
    ensures { result ≡ is_not_odd k }
{
    k.is_none_or(|key| !keys::has_odd_parity(key))
}

// Whether a key is enclosed and its parity is not odd.
#[tactic(auto, unfolding(ground::specs::Choice::both))]
fn is_enclosed_even(h: Held, r: &[u8]) -> bool
    ensures { result ≡ both (encloses r.now) (is_not_odd (enclosed_in h r.now)) }
{
    desk_form::encloses_key(r) && is_not_odd(enclosed_in(h, r))
}

// 3029.
fn came_faults(r: &[u8]) -> Result<(), Fault>
    ensures { result ≡ first_failing (came_checks r.now) }
{
    message::first_failing(&[Check::new(3029, r.len() < 1)])
}

// 3021: identity and qualifier count.
fn receiver_faults(h: Held, r: &[u8]) -> Result<(), Fault>
    ensures { result ≡ first_failing (receiver_checks h r.now) }
{
    let width = 25;
    message::first_failing(&[Check::new(3021, differs(&h.own[..width], 35, 35 + width, r))])
}

// 3011 of field 10, then of field 11, 3020, 3030.
fn reply_key_faults(h: Held, s: Sent, r: &[u8]) -> Result<(), Fault>
    ensures { result ≡ first_failing (reply_key_checks h s r.now) }
{
    let key = named(h.working, generation_at(86, r));
    message::first_failing(&[
        Check::of_field(3011, 100, differs(&[s.transport], 85, 86, r)),
        Check::of_field(3011, 110, differs(&[s.working], 86, 87, r)),
        Check::new(3020, checksum_differs(key, r)),
        Check::new(3030, is_enclosed_even(h, r)),
    ])
}

// 3022, the stamp of what was sent.
fn stamp_faults(s: Sent, r: &[u8]) -> Result<(), Fault>
    ensures { result ≡ first_failing (stamp_sent_checks s r.now) }
{
    message::first_failing(&[Check::new(3022, differs(&s.stamp, 87, 102, r))])
}

// 3027 field by field, then 3028. What was sent to the bank comes back from it, so the two parties are exchanged.
fn batch_faults(s: Sent, r: &[u8]) -> Result<(), Fault>
    ensures { result ≡ first_failing (batch_sent_checks s r.now) }
{
    message::first_failing(&[
        Check::of_field(3027, 80, differs(&s.sender, 35, 60, r)),
        Check::of_field(3027, 90, differs(&s.receiver, 60, 85, r)),
        Check::of_field(3027, 120, differs(&s.stamp, 87, 102, r)),
        Check::of_field(3027, 130, differs(&[s.area], 102, 103, r)),
        Check::of_field(3027, 150, differs(&s.once, 112, 128, r)),
        Check::new(3028, differs(&s.digest, 128, 144, r)),
    ])
}

// The first fault of the bank's ESI: form, receiver, stamp, keys.
fn esi_faults(h: Held, s: Sent, r: &[u8]) -> Result<(), Fault>
    ensures { result ≡ first_failing (desk_esi_checks h s r.now) }
{
    desk_form::fault_of(desk_form::Reply::Esi, r)?;
    receiver_faults(h, r)?;
    stamp_faults(s, r)?;
    reply_key_faults(h, s, r)
}

// The first fault of a PTE: whether it came, form, receiver, the batch, keys.
fn pte_faults(h: Held, s: Sent, r: &[u8]) -> Result<(), Fault>
    ensures { result ≡ first_failing (desk_pte_checks h s r.now) }
{
    came_faults(r)?;
    desk_form::fault_of(desk_form::Reply::Pte, r)?;
    receiver_faults(h, r)?;
    batch_faults(s, r)?;
    reply_key_faults(h, s, r)
}

// ---- what a check of a reply gives

// The desk with the key that a reply encloses.
fn kept_from(h: Held, r: &[u8]) -> Held
    ensures { result ≡ kept_from h r.now }
{
    let key = checks::key_or_0(enclosed_in(h, r));
    Held {
        working: with_enclosed(h.working, generation_at(86, r), key),
        ..h
    }
}

// The desk after a reply: a key is kept exactly if all checks pass.
#[tactic(auto, unfolding(crate::specs::Desk::held_after, verdict::specs::Outcomes::is_sound, ground::specs::Choice::both, ground::specs::Choice::pick))]
fn held_after(h: Held, r: &[u8], f: Result<(), Fault>) -> Held
    ensures { result ≡ held_after h r.now f }
{
    if f.is_ok() && desk_form::encloses_key(r) {
        kept_from(h, r)
    } else {
        h
    }
}

#[tactic(auto, unfolding(crate::specs::Desk::finding_of))]
fn finding_of(f: Result<(), Fault>) -> Result<(), Finding>
    ensures { result ≡ finding_of f }
{
    f.map_err(|fault| Finding {
        code: fault.code,
        field: fault.field,
    })
}

// What is told of a reply whose first fault is known.
#[tactic(auto, unfolding(crate::specs::Desk::checked_by))]
fn checked_by(h: Held, r: &[u8], f: Result<(), Fault>) -> Checked
    ensures { result ≡ checked_by h r.now f }
{
    Checked {
        finding: finding_of(f),
        held: held_after(h, r, f),
        letter: letter_in(r),
        code: code_in(r),
    }
}

/// The bank's ESI, which answers the ESI that was sent.
pub fn check_esi(h: Held, s: Sent, reply: &[u8]) -> Checked
    ensures { result ≡ esi_checked h s reply.now }
{
    checked_by(h, reply, esi_faults(h, s, reply))
}

/// The PTE, which answers the batch that was sent.
pub fn check_pte(h: Held, s: Sent, reply: &[u8]) -> Checked
    ensures { result ≡ pte_checked h s reply.now }
{
    checked_by(h, reply, pte_faults(h, s, reply))
}
