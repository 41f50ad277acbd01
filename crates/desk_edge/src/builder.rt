// The calls that build for a box in C or Rust: a message, a batch and the key maker's two numbers are lent. A refused call changes nothing
// lent to it.
ghost use Rattle.std.specs.Prelude.{◌≡◌, eqb, length};
ghost use Rattle.ground.specs.Choice.{both, pick};
ghost use Rattle.desk_bytes.specs.Layout.{sent_size};
ghost use Rattle.desk_bytes.specs.Bytes.{is_held};
ghost use Rattle.build_bytes.specs.Layout.{batch_size};
ghost use Rattle.build_bytes.specs.Bytes.{is_batch};
ghost use Rattle.desk_edge.specs.Builder.{is_character, text_after, sent_after, MeetsBuilding, esi_built_by, var_built_by};
ghost use Rattle.desk_edge.specs.Builder.{maker_in, maker_to, given_of, suo_built_by, suo_text_after, batch_after, maker_later};
ghost use Rattle.desk_edge.specs.Builder.{add_refusal, added_by};

use crate::fixed;

// How many bytes a batch takes.
#[unsafe(no_mangle)]
pub extern "C" fn lp_batch_size() -> u32
    ensures { result ≡ 168 }
{
    168
}

// ---- an ESI or a VAR

// Whether the request is a character, and there is room for the message and for what was sent.
#[tactic(auto, unfolding(ground::specs::Choice::both))]
fn has_room(request: u32, text: usize, sent: usize) -> bool
    ensures { result ≡ both (is_character request) (both (eqb text 161) (eqb sent sent_size)) }
{
    request < 256 && text == 161 && sent == 100
}

// The message and what was sent, where the call is served.
fn put_message(text: &mut [u8], sent: &mut [u8], x: build::BuiltMessage)
    requires { length text.old ≡ 161 }
    ensures writes { text.new ≡ text_after text.old x }
    ensures keeps { sent.new ≡ sent_after sent.old x }
{
    if x.refusal == 0 {
        text::copy(text, &x.text);
        desk_bytes::store_sent(sent, x.sent);
    }
}

#[tactic(auto, unfolding(ground::specs::Choice::both))]
fn is_esi_given(
    held: &[u8],
    software: usize,
    stamp: usize,
    request: u32,
    text: usize,
    sent: usize,
) -> bool
    ensures { result ≡ both (is_held held.now) (both (eqb software 16) (both (eqb stamp 15)
        (both (is_character request) (both (eqb text 161) (eqb sent sent_size))))) }
{
    desk_bytes::is_held(held) && software == 16 && stamp == 15 && has_room(request, text, sent)
}

#[unsafe(no_mangle)]
pub extern "C" fn lp_build_esi(
    held: &[u8],
    software: &[u8],
    stamp: &[u8],
    request: u32,
    text: &mut [u8],
    sent: &mut [u8],
) -> u32
    ensures { MeetsBuilding text.old sent.old
        (esi_built_by held.now software.now stamp.now request text.old sent.old)
        result text.new sent.new }
{
    if !is_esi_given(
        held,
        software.len(),
        stamp.len(),
        request,
        text.len(),
        sent.len(),
    ) {
        return 11;
    }
    let h = desk_bytes::load_held(held);
    let x = build::build_esi(h, fixed(software), fixed(stamp), request as u8);
    put_message(text, sent, x);
    x.refusal
}

#[tactic(auto, unfolding(ground::specs::Choice::both))]
fn is_var_given(batch: &[u8], request: u32, text: usize, sent: usize) -> bool
    ensures { result ≡ both (is_batch batch.now)
        (both (is_character request) (both (eqb text 161) (eqb sent sent_size))) }
{
    build_bytes::is_batch(batch) && has_room(request, text, sent)
}

#[unsafe(no_mangle)]
pub extern "C" fn lp_build_var(batch: &[u8], request: u32, text: &mut [u8], sent: &mut [u8]) -> u32
    ensures { MeetsBuilding text.old sent.old
        (var_built_by batch.now request text.old sent.old)
        result text.new sent.new }
{
    if !is_var_given(batch, request, text.len(), sent.len()) {
        return 11;
    }
    let b = build_bytes::load_batch(batch);
    let x = build::build_var(b, request as u8);
    put_message(text, sent, x);
    x.refusal
}

// ---- a SUO

#[tactic(auto, unfolding(ground::specs::Choice::both))]
fn is_suo_given(
    held: &[u8],
    maker: usize,
    software: usize,
    method: usize,
    stamp: usize,
    area: u32,
    text: usize,
    batch: usize,
) -> bool
    ensures { result ≡ both (is_held held.now) (both (eqb maker 2) (both (eqb software 16) (both (eqb method 3)
        (both (eqb stamp 15) (both (is_character area) (both (eqb text 128) (eqb batch batch_size))))))) }
{
    desk_bytes::is_held(held)
        && maker == 2
        && software == 16
        && method == 3
        && stamp == 15
        && area < 256
        && text == 128
        && batch == 168
}

fn maker_in(maker: &[u64]) -> keys::KeyMaker
    requires { length maker.now ≡ 2 }
    ensures { result ≡ maker_in maker.now }
{
    keys::KeyMaker {
        key: maker[0],
        seed: maker[1],
    }
}

// Only a served call moves the maker on.
fn put_maker(maker: &mut [u64], refusal: u32, m: keys::KeyMaker)
    requires { length maker.old ≡ 2 }
    ensures { maker.new ≡ pick (eqb refusal 0) (maker_to m) maker.old }
{
    if refusal == 0 {
        maker[0] = m.key;
        maker[1] = m.seed;
    }
}

// The SUO's characters and its batch, where the call is served.
fn put_suo(text: &mut [u8], batch: &mut [u8], built: build::BuiltSuo)
    requires { length text.old ≡ 128 }
    ensures writes { text.new ≡ suo_text_after text.old built }
    ensures keeps { batch.new ≡ batch_after batch.old built }
{
    if built.refusal == 0 {
        text::copy(text, &built.batch.suo);
        build_bytes::store_batch(batch, built.batch);
    }
}

#[unsafe(no_mangle)]
pub extern "C" fn lp_build_suo(
    held: &[u8],
    maker: &mut [u64],
    clock: u64,
    software: &[u8],
    method: &[u8],
    stamp: &[u8],
    area: u32,
    text: &mut [u8],
    batch: &mut [u8],
) -> u32
    ensures answers { result ≡ (suo_built_by held.now maker.old clock
        (given_of software.now method.now stamp.now area)
        text.old batch.old).refusal }
    ensures writes { text.new ≡ suo_text_after text.old (suo_built_by held.now maker.old clock
        (given_of software.now method.now stamp.now area)
        text.old batch.old) }
    ensures keeps { batch.new ≡ batch_after batch.old (suo_built_by held.now maker.old clock
        (given_of software.now method.now stamp.now area)
        text.old batch.old) }
    ensures moves { maker.new ≡ maker_later held.now maker.old clock
        (given_of software.now method.now stamp.now area)
        text.old batch.old }
{
    if !is_suo_given(
        held,
        maker.len(),
        software.len(),
        method.len(),
        stamp.len(),
        area,
        text.len(),
        batch.len(),
    ) {
        return 11;
    }
    let h = desk_bytes::load_held(held);
    let k = maker_in(maker);
    let g = build::Given {
        software: fixed(software),
        method: fixed(method),
        stamp: fixed(stamp),
        area: area as u8,
    };
    let made = build::make_suo(h, k, clock, g);
    let built = made.built;
    let moved = made.maker;
    put_maker(maker, built.refusal, moved);
    put_suo(text, batch, built);
    built.refusal
}

// ---- a record is added

// The record stands without its line end.
#[unsafe(no_mangle)]
pub extern "C" fn lp_add_record(batch: &mut [u8], characters: &[u8]) -> u32
    ensures answers { result ≡ add_refusal batch.old }
    ensures keeps { batch.new ≡ added_by batch.old characters.now }
{
    if !build_bytes::is_batch(batch) {
        return 11;
    }
    let b = build_bytes::load_batch(batch);
    let later = build::add_record(b, characters);
    build_bytes::store_batch(batch, later);
    0
}
