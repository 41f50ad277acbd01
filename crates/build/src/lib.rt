// The customer's messages: ESI, SUO and VAR built round the records of a batch.

#![tactic(auto)]

ghost use Rattle.std.specs.Prelude.{◌≡◌, List, [], ◌∷◌, ◌++◌, ℕ, ◌≤◌, length};
ghost use Rattle.ground.specs.Choice.{fails};
ghost use Rattle.text.specs.Numbers.{decimal_digits, hex_digits};
ghost use Rattle.splices.specs.Bytes.{splice};
ghost use Rattle.des.specs.Des.{enciphered};
ghost use Rattle.digest.specs.Mac.{checksum_of};
ghost use Rattle.digest.specs.Running.{alike, took_bytes, ended, answered};
ghost use Rattle.message.specs.declared.Kind.TheVariants.{Suo};
ghost use Rattle.verdict.specs.Outcomes.{is_sound};
ghost use Rattle.refusals.specs.Refusals.{refusal, lowest};
ghost use Rattle.refusals.specs.Numbers.{code_of};
ghost use Rattle.whole_file.specs.Messages.{known_text};
ghost use Rattle.reply.specs.Reply.{joined};
ghost use Rattle.build.specs.Messages.{tag_of, size_of, opening_fields, middle_fields, var_front, esi_built, suo_built, var_built};
ghost use Rattle.build.specs.Building.{breaks_rules, other_generation, message_by, no_batch, esi_building};
ghost use Rattle.build.specs.Building.{suo_building, maker_after, record_added, digest_number, var_building};

use refusals::Refusal;

// What a SUO is given beside the desk.
#[derive(Clone, Copy, Debug, PartialEq, Eq)]
pub struct Given {
    pub software: [u8; 16],
    pub method: [u8; 3],
    pub stamp: [u8; 15],
    pub area: u8,
}

// A batch on its way: its SUO, the one-time key, the working key of that moment, and the digest of its records so far.
#[derive(Clone, Copy, Debug, PartialEq, Eq)]
pub struct Batch {
    pub suo: [u8; 128],
    pub once: u64,
    pub working: u64,
    pub state: digest::State,
}

// An ESI or a VAR, and what was sent by it; zeros where the call was refused.
#[derive(Clone, Copy, Debug, PartialEq, Eq)]
pub struct BuiltMessage {
    pub refusal: u32,
    pub text: [u8; 161],
    pub sent: desk::Sent,
}

// A SUO stands in its batch.
#[derive(Clone, Copy, Debug, PartialEq, Eq)]
pub struct BuiltSuo {
    pub refusal: u32,
    pub batch: Batch,
}

// A SUO, and the key maker after it.
#[derive(Clone, Copy, Debug, PartialEq, Eq)]
pub struct MadeSuo {
    pub built: BuiltSuo,
    pub maker: keys::KeyMaker,
}

// ---- the fields

// Fields 1 and 2.
fn tag_of(k: message::Kind) -> [u8; 8]
    ensures { result ≡ tag_of k ++ size_of k }
{
    match k {
        message::Kind::Esi => *b">>ESI161",
        message::Kind::Suo => *b">>SUO128",
        message::Kind::Var => *b">>VAR161",
    }
}

// Fields 1 to 7.
fn put_opening(out: &mut [u8], k: message::Kind, software: [u8; 16], method: [u8; 3])
    requires { 35 ≤ length out.old }
    ensures { out.new ≡ splice 0 (joined (opening_fields k software method)) out.old }
{
    let tag = tag_of(k);
    codec::write_bytes(out, 0, &tag);
    codec::write_bytes(out, 8, b"120 0000");
    codec::write_bytes(out, 16, &software);
    codec::write_bytes(out, 32, &method);
}

// The last decimal digit.
fn low_digit(x: u32) -> u8
    ensures { result ∷ [] ≡ decimal_digits 1 x }
{
    0x30 + (x % 10) as u8
}

// Fields 8 to 14.
fn put_middle(out: &mut [u8], h: desk::Held, stamp: [u8; 15], area: u8)
    requires { 112 ≤ length out.old }
    ensures { out.new ≡ splice 35 (joined (middle_fields h stamp area)) out.old }
{
    let marks = [
        low_digit(h.transport.generation),
        low_digit(h.working.generation),
    ];
    codec::write_bytes(out, 35, &h.bank);
    codec::write_bytes(out, 60, &h.own);
    codec::write_bytes(out, 85, &marks);
    codec::write_bytes(out, 87, &stamp);
    codec::write_bytes(out, 102, &[area]);
    codec::write_bytes(out, 103, b"         ");
}

// Fields 17 and 18: the checksum is that of the characters before it.
fn put_closing(out: &mut [u8], working: u64, request: u8)
    requires { 161 ≤ length out.old }
    ensures { out.new ≡ splice 144 (hex_digits 16 (checksum_of working out.old) ++ (request ∷ []))
        out.old }
{
    let sum = text::hex_digits(digest::checksum(working, out));
    codec::write_bytes(out, 144, &sum);
    codec::write_bytes(out, 160, &[request]);
}

// ---- the messages

// Fields 15 and 16 are blank.
fn esi_text(h: desk::Held, software: [u8; 16], stamp: [u8; 15], request: u8) -> [u8; 161]
    ensures { result ≡ esi_built h software stamp request }
{
    let mut out = [0u8; 161];
    put_opening(&mut out, message::Kind::Esi, software, *b"SMH");
    put_middle(&mut out, h, stamp, 0x20);
    codec::write_bytes(&mut out, 112, b"                                ");
    put_closing(&mut out, h.working.key, request);
    out
}

// Field 15 is the one-time key, enciphered.
fn suo_text(h: desk::Held, g: Given, once: u64) -> [u8; 128]
    ensures { result ≡ suo_built h g.software g.method g.stamp g.area once }
{
    let cipher = des::encipher(h.transport.key, once);
    let sealed = text::hex_digits(cipher);
    let mut out = [0u8; 128];
    put_opening(&mut out, message::Kind::Suo, g.software, g.method);
    put_middle(&mut out, h, g.stamp, g.area);
    codec::write_bytes(&mut out, 112, &sealed);
    out
}

// Fields 1 to 16 of a VAR: the SUO's but for 1, 2, 7 and 16.
fn put_var_front(out: &mut [u8], suo: [u8; 128], digest: u64)
    requires { 144 ≤ length out.old }
    ensures { out.new ≡ splice 0 (joined (var_front suo digest)) out.old }
{
    let tag = tag_of(message::Kind::Var);
    let digits = text::hex_digits(digest);
    codec::write_bytes(out, 0, &tag);
    codec::write_bytes(out, 8, &suo[8..32]);
    codec::write_bytes(out, 32, b"SMH");
    codec::write_bytes(out, 35, &suo[35..128]);
    codec::write_bytes(out, 128, &digits);
}

fn var_text(suo: [u8; 128], working: u64, digest: u64, request: u8) -> [u8; 161]
    ensures { result ≡ var_built suo working digest request }
{
    let mut out = [0u8; 161];
    put_var_front(&mut out, suo, digest);
    put_closing(&mut out, working, request);
    out
}

// A SUO as the base knows it: zeros after its fields.
fn known_suo(suo: [u8; 128]) -> [u8; 161]
    ensures { result ≡ known_text Suo suo }
{
    let mut out = [0u8; 161];
    text::copy(&mut out, &suo);
    out
}

// ---- refusals

#[tactic(auto, unfolding(ground::specs::Choice::fails, verdict::specs::Outcomes::is_sound))]
fn is_fault(f: Result<(), message::Fault>) -> bool
    ensures { result ≡ fails (is_sound f) }
{
    f.is_err()
}

// Whether the base finds a fault of the form in a message, by its known fields.
fn breaks_rules(k: message::Kind, known: [u8; 161]) -> bool
    ensures { (m : List ℕ) → known ≡ known_text k m → result ≡ breaks_rules k m }
{
    is_fault(message::fault_of(
        k,
        message::About::Answered,
        message::Extent::Whole,
        true,
        &known,
    ))
}

// A SUO, by the text that the base knows of it.
pub fn suo_breaks_rules(suo: [u8; 128]) -> bool
    ensures { result ≡ breaks_rules Suo suo }
{
    breaks_rules(message::Kind::Suo, known_suo(suo))
}

// Whether a generation is above 9, so that it is none.
#[tactic(auto, unfolding(crate::specs::Building::other_generation, ground::specs::Choice::either))]
fn other_generation(h: desk::Held) -> bool
    ensures { result ≡ other_generation h }
{
    9 < h.transport.generation || 9 < h.working.generation
}

// Why a VAR can't be built, if it can't.
fn rules_refusal(broken: bool) -> Result<(), Refusal>
    ensures { code_of result ≡ lowest (refusal 13 broken ∷ []) }
{
    refusals::first_of(&[(broken, Refusal::OtherForm)])
}

// Why an ESI or a SUO can't be built, if it can't.
fn building_refusal(h: desk::Held, broken: bool) -> Result<(), Refusal>
    ensures { code_of result ≡ lowest (refusal 11 (other_generation h) ∷ refusal 13 broken ∷ []) }
{
    refusals::first_of(&[
        (other_generation(h), Refusal::OutOfLimits),
        (broken, Refusal::OtherForm),
    ])
}

// ---- an ESI

// What a call hands back: where it refuses, zeros. Bytes of no length say that nothing was sent.
fn message_by(outcome: Result<(), Refusal>, text: [u8; 161], sent: desk::Sent) -> BuiltMessage
    ensures { result ≡ message_by (code_of outcome) text sent }
{
    let refusal = refusals::code(outcome);
    match outcome {
        Ok(()) => BuiltMessage {
            refusal,
            text,
            sent,
        },
        Err(_) => BuiltMessage {
            refusal,
            text: [0; 161],
            sent: desk_bytes::load_sent(b""),
        },
    }
}

// An ESI to the bank, under the current keys.
pub fn build_esi(h: desk::Held, software: [u8; 16], stamp: [u8; 15], request: u8) -> BuiltMessage
    ensures { result ≡ esi_building h software stamp request }
{
    let text = esi_text(h, software, stamp, request);
    let outcome = building_refusal(h, breaks_rules(message::Kind::Esi, text));
    let sent = desk::sent_by(text, text);
    message_by(outcome, text, sent)
}

// ---- a SUO

// What is handed back where a SUO is refused.
pub fn no_batch() -> Batch
    ensures { result ≡ no_batch }
{
    Batch {
        suo: [0; 128],
        once: 0,
        working: 0,
        state: digest::start(),
    }
}

// The maker by value, for a caller that keeps its own.
pub fn make_suo(h: desk::Held, maker: keys::KeyMaker, clock: u64, g: Given) -> MadeSuo
    ensures { result ≡ record { built = suo_building h maker clock g; maker = maker_after h maker clock g } }
{
    let made = keys::make(maker, clock);
    let once = made.made;
    let suo = suo_text(h, g, once);
    let outcome = building_refusal(h, suo_breaks_rules(suo));
    let refusal = refusals::code(outcome);
    match outcome {
        Ok(()) => {
            let batch = Batch {
                suo,
                once,
                working: h.working.key,
                state: digest::start(),
            };
            MadeSuo {
                built: BuiltSuo { refusal, batch },
                maker: made.maker,
            }
        }
        Err(_) => {
            let batch = no_batch();
            let built = BuiltSuo { refusal, batch };
            MadeSuo { built, maker }
        }
    }
}

// A SUO, with a one-time key from the key maker; it goes out before the data is seen. A refused call leaves the maker where it stood.
pub fn build_suo(h: desk::Held, maker: &mut keys::KeyMaker, clock: u64, g: Given) -> BuiltSuo
    ensures { (result ≡ suo_building h maker.old clock g) × (maker.new ≡ maker_after h maker.old clock g) }
{
    let m = make_suo(h, *maker, clock, g);
    *maker = m.maker;
    m.built
}

// ---- the records

// The digest with one record more.
fn digest_with(
    once: u64,
    m: digest::Method,
    state: digest::State,
    characters: &[u8],
) -> digest::State
    ensures { result ≡ (ended m (took_bytes (enciphered once) (alike state) characters.now)).last }
{
    let table = des::joined_table();
    let keys = des::schedule(once);
    let taken = digest::run(&table, keys, digest::at_record(state), characters);
    let end = digest::end_record(m, taken);
    end.last
}

// One record more, without its line end.
pub fn add_record(b: Batch, characters: &[u8]) -> Batch
    ensures { result ≡ record_added b characters.now }
{
    let method = message::method(known_suo(b.suo));
    let state = digest_with(b.once, method, b.state, characters);
    Batch { state, ..b }
}

// ---- a VAR

// Without any character left it is zeros.
#[tactic(auto, unfolding(crate::specs::Building::digest_number))]
fn digest_number(a: Option<u64>) -> u64
    ensures { result ≡ digest_number a }
{
    a.unwrap_or(0)
}

// The digest under the one-time key.
fn batch_digest(once: u64, state: digest::State) -> u64
    ensures { result ≡ digest_number (answered (enciphered once) state) }
{
    let table = des::joined_table();
    let keys = des::schedule(once);
    digest_number(digest::finish(&table, keys, state))
}

// The VAR that closes the batch.
pub fn build_var(b: Batch, request: u8) -> BuiltMessage
    ensures { result ≡ var_building b request }
{
    let digest = batch_digest(b.once, b.state);
    let text = var_text(b.suo, b.working, digest, request);
    let outcome = rules_refusal(breaks_rules(message::Kind::Var, text));
    let sent = desk::sent_by(known_suo(b.suo), text);
    message_by(outcome, text, sent)
}
