// Messages as their records come: what begins one, whether it is one record alone,
// whether it wants more; and what a collected one does to a session and to the table.

#![tactic(auto)]

ghost use Rattle.std.specs.Prelude.{◌≡◌, false, List, [], ℕ, ◌≤◌, min, length, take, drop};
ghost use Rattle.ground.specs.Choice.{between};
ghost use Rattle.ground.specs.Lists.{same};
ghost use Rattle.text.specs.Characters.{all_blank};
ghost use Rattle.table.specs.Decode.{table_of};
ghost use Rattle.message.specs.declared.Kind.TheVariants.{Esi, Suo, Var};
ghost use Rattle.message.specs.Layout.{field, no_field};
ghost use Rattle.message.specs.Order.{first_failing};
ghost use Rattle.message.specs.Rules.{form_of, form_checks};
ghost use Rattle.message.specs.declared.About.TheVariants.{Answered};
ghost use Rattle.verdict.specs.Outcomes.{is_sound};
ghost use Rattle.whole_file.specs.Messages.{begins, most_length, extent_of, is_whole, known_text};
ghost use Rattle.whole_file.specs.Messages.{one_time, transport_held, one_time_of, once_of};
ghost use Rattle.session.specs.Events.{held, wants, collected_by, is_esi, no_reply, silent, bare_turn, place_after_esi, esi_done, suo_done, frame_by};
ghost use Rattle.session.specs.Events.{var_done, data_taken};

// ---- a message as its records come

// How many characters are kept: at most the room.
fn kept_count(text: [u8; 161], count: usize) -> usize
    ensures { (result ≡ length (take count text)) × (result ≤ 161) }
{
    count.min(161)
}

fn begins_with(text: [u8; 161], count: usize, tag: &[u8]) -> bool
    ensures { result ≡ same (take 5 (take count text)) tag.now }
{
    &text[..count.min(5)] == tag
}

#[tactic(auto, unfolding(text::specs::Letters::letters, whole_file::specs::Messages::begins, session::specs::Events::held))]
pub fn begins_esi(g: session::Gathered) -> bool
    ensures { result ≡ begins ">>ESI" (held g) }
{
    begins_with(g.text, g.count, b">>ESI")
}

#[tactic(auto, unfolding(text::specs::Letters::letters, whole_file::specs::Messages::begins, session::specs::Events::held))]
pub fn begins_suo(g: session::Gathered) -> bool
    ensures { result ≡ begins ">>SUO" (held g) }
{
    begins_with(g.text, g.count, b">>SUO")
}

#[tactic(auto, unfolding(text::specs::Letters::letters, whole_file::specs::Messages::begins, session::specs::Events::held))]
pub fn begins_var(g: session::Gathered) -> bool
    ensures { result ≡ begins ">>VAR" (held g) }
{
    begins_with(g.text, g.count, b">>VAR")
}

// Whether a length is from the layout's to the longest message's.
#[tactic(auto, unfolding(ground::specs::Choice::between, ground::specs::Choice::both))]
fn is_between(layout: usize, length: u64) -> bool
    ensures { result ≡ between layout most_length length }
{
    (layout as u64..=500).contains(&length)
}

// What the first record tells of a message.
fn extent_in(k: message::Kind, text: [u8; 161], count: usize) -> message::Extent
    ensures { result ≡ extent_of k (take count text) }
{
    let n = kept_count(text, count);
    if n < 11 {
        return message::Extent::TooShort;
    }
    if !text::all_digits(&text[5..8]) {
        return message::Extent::LengthNotDigits;
    }
    if !is_between(message::length_of(k), text::number(&text[5..8])) {
        return message::Extent::OtherLength;
    }
    message::Extent::Whole
}

#[tactic(auto, unfolding(session::specs::Events::held))]
pub fn extent_of(k: message::Kind, g: session::Gathered) -> message::Extent
    ensures { result ≡ extent_of k (held g) }
{
    extent_in(k, g.text, g.count)
}

#[tactic(auto, unfolding(whole_file::specs::Messages::is_whole))]
pub fn is_whole(extent: message::Extent) -> bool
    ensures { result ≡ is_whole extent }
{
    matches!(extent, message::Extent::Whole)
}

// Whether the length that it states is not yet reached.
#[tactic(auto, unfolding(session::specs::Events::wants, session::specs::Events::held))]
pub fn wants_more(g: session::Gathered) -> bool
    ensures { result ≡ wants g }
{
    g.count < session::wanted_length(g.text, g.count)
}

// Whether those kept past the first `from` are blank.
fn over_blank(text: [u8; 161], count: usize, from: usize) -> bool
    ensures { result ≡ all_blank (drop from (take count text)) }
{
    let n = kept_count(text, count);
    n <= from || text::all_blank(&text[from..n])
}

// The known fields: the rest of the room is zeros.
fn known_text(k: message::Kind, text: [u8; 161], count: usize) -> [u8; 161]
    ensures { result ≡ known_text k (take count text) }
{
    let mut out = [0u8; 161];
    let n = message::length_of(k).min(count);
    text::copy(&mut out, &text[..n]);
    out
}

// The message with its known fields.
#[tactic(auto, unfolding(session::specs::Events::collected_by, session::specs::Events::held, ground::specs::Choice::both))]
pub fn collected_by(
    k: message::Kind,
    extent: message::Extent,
    g: session::Gathered,
) -> message::Collected
    ensures { result ≡ collected_by k extent g }
{
    let wanted = session::wanted_length(g.text, g.count);
    message::Collected {
        extent,
        blank: over_blank(g.text, g.count, wanted) && g.blank,
        text: known_text(k, g.text, g.count),
    }
}

#[tactic(auto, unfolding(session::specs::Events::is_esi))]
pub fn is_esi(k: message::Kind) -> bool
    ensures { result ≡ is_esi k }
{
    matches!(k, message::Kind::Esi)
}

// ---- what every event is made of

// A step without a reply.
#[tactic(auto, unfolding(session::specs::Events::silent))]
pub fn quiet(s: session::Session) -> session::Stepped
    ensures parts { result ≡ record { session = s; reply = no_reply } }
    ensures value { (w : List ℕ) → result ≡ (silent s w).out }
{
    session::Stepped {
        session: s,
        reply: session::no_reply(),
    }
}

// A bare reply, ESI or PTE, that names a field in the first `count` characters of `m`, and the session after it.
#[tactic(auto, unfolding(session::specs::Events::bare_turn, session::specs::Events::replies))]
fn bare_on(
    t: &[u8],
    s: session::Session,
    pte: bool,
    code: u32,
    field: u32,
    m: [u8; 161],
    count: usize,
    after: session::Session,
) -> session::Stepped
    ensures { result ≡ (bare_turn s t.now pte code field (take count m) after).out }
{
    session::Stepped {
        session: after,
        reply: session::Reply {
            given: true,
            answer: answers::bare_answer(t, s.opening, pte, code, field, m, count),
        },
    }
}

// A bare reply that names no field.
pub fn bare(
    t: &[u8],
    s: session::Session,
    pte: bool,
    code: u32,
    after: session::Session,
) -> session::Stepped
    ensures { result ≡ (bare_turn s t.now pte code no_field [] after).out }
{
    bare_on(t, s, pte, code, 0, [0; 161], 0, after)
}

// A bare ESI on field 1 of the record that ends.
#[tactic(auto, unfolding(session::specs::Events::held))]
pub fn bare_tag(
    t: &[u8],
    s: session::Session,
    code: u32,
    after: session::Session,
) -> session::Stepped
    ensures { result ≡ (bare_turn s t.now false code (field 1) (held s.gathered) after).out }
{
    bare_on(
        t,
        s,
        false,
        code,
        10,
        s.gathered.text,
        s.gathered.count,
        after,
    )
}

#[tactic(auto, unfolding(session::specs::Events::place_after_esi))]
fn place_after_esi(accepted: bool) -> session::Place
    ensures { result ≡ place_after_esi accepted }
{
    if accepted {
        session::Place::Outside
    } else {
        session::Place::Closed
    }
}

// An ESI's end: refused, it closes the file.
#[tactic(auto, unfolding(session::specs::Events::esi_done, session::specs::Events::replies))]
pub fn esi_done(s: session::Session, t: &mut [u8], extent: message::Extent) -> session::Stepped
    ensures value { result ≡ (esi_done s t.old (collected_by Esi extent s.gathered)).out }
    ensures t_after { t.new ≡ (esi_done s t.old (collected_by Esi extent s.gathered)).table }
{
    let m = collected_by(message::Kind::Esi, extent, s.gathered);
    let o = session::occasion_of(s.opening, s.made);
    let out = verdict::judge_esi(t, o, m);
    let answer = answers::verdict_answer(t, s.opening, false, out, m.text, m.text);
    let place = place_after_esi(notice::is_accepted(out.code));
    session::Stepped {
        session: session::after_verdict(s, place, out.made, message::sender(m.text)),
        reply: session::Reply {
            given: true,
            answer,
        },
    }
}

// Field 15 deciphered under a transport key, if there is one.
#[tactic(auto, unfolding(whole_file::specs::Messages::one_time))]
fn one_time(k: Option<u64>, suo: [u8; 161]) -> Option<u64>
    ensures { result ≡ one_time k suo }
{
    k.map(|transport| des::decipher(transport, message::once_field(suo)))
}

// The transport key of the generation that a SUO names; a sender who is not there holds none.
#[tactic(auto, unfolding(whole_file::specs::Messages::transport_held))]
fn transport_held(t: &[u8], place: Option<usize>, suo: [u8; 161]) -> Option<u64>
    ensures { result ≡ transport_held (table_of t.now) place suo }
{
    let customer = table::load(t, place?);
    changeover::held(customer.transport, message::transport_generation(suo))
}

// The one-time key, by the transport key that the SUO's sender holds now.
#[tactic(auto, unfolding(whole_file::specs::Messages::one_time_of))]
fn one_time_of(t: &[u8], suo: [u8; 161]) -> Option<u64>
    ensures { result ≡ one_time_of (table_of t.now) suo }
{
    let place = table::find(t, message::sender(suo));
    one_time(transport_held(t, place, suo), suo)
}

// Whether a SUO has no fault of form.
fn is_sound_suo(suo: message::Collected) -> bool
    ensures { result ≡ is_sound (first_failing (form_checks (form_of Suo) Answered suo)) }
{
    verdict::is_sound(message::fault_of(
        message::Kind::Suo,
        message::About::Answered,
        suo.extent,
        suo.blank,
        &suo.text,
    ))
}

// The one-time key that a SUO carries: a faulty one carries none.
#[tactic(auto, unfolding(whole_file::specs::Messages::once_of, ground::specs::Choice::pick))]
fn once_of(t: &[u8], suo: message::Collected) -> Option<u64>
    ensures { result ≡ once_of (table_of t.now) suo }
{
    if is_sound_suo(suo) {
        one_time_of(t, suo.text)
    } else {
        None
    }
}

// A SUO's end, faulty or not, opens a frame.
#[tactic(auto, unfolding(session::specs::Events::suo_done))]
pub fn suo_done(s: session::Session, t: &[u8], extent: message::Extent) -> session::Session
    ensures { result ≡ suo_done s t.now (collected_by Suo extent s.gathered) }
{
    let suo = collected_by(message::Kind::Suo, extent, s.gathered);
    let batch = session::Batch {
        suo,
        once: once_of(t, suo),
        running: digest::at_record(digest::start()),
    };
    let at = session::at_place(s, session::Place::InData, s.told, session::no_characters());
    session::with_batch(at, batch)
}

// The frame at its VAR's end, with the digest of the records before.
fn frame_by(s: session::Session, var: message::Collected) -> checks::Frame
    ensures { result ≡ frame_by s var }
{
    let table = des::joined_table();
    let keys = des::schedule(checks::key_or_0(s.batch.once));
    checks::Frame {
        suo: s.batch.suo,
        var,
        once: s.batch.once,
        digest: digest::finish(&table, keys, s.batch.running.start),
    }
}

// A VAR's end: the frame's verdict.
#[tactic(auto, unfolding(session::specs::Events::var_done, session::specs::Events::replies))]
pub fn var_done(s: session::Session, t: &mut [u8], extent: message::Extent) -> session::Stepped
    ensures value { result ≡ (var_done s t.old (collected_by Var extent s.gathered)).out }
    ensures t_after { t.new ≡ (var_done s t.old (collected_by Var extent s.gathered)).table }
{
    let m = collected_by(message::Kind::Var, extent, s.gathered);
    let o = session::occasion_of(s.opening, s.made);
    let out = verdict::judge_frame(t, o, frame_by(s, m));
    let answer = answers::verdict_answer(t, s.opening, true, out, s.batch.suo.text, m.text);
    session::Stepped {
        session: session::after_verdict(s, session::Place::Outside, out.made, s.sender),
        reply: session::Reply {
            given: true,
            answer,
        },
    }
}

// The end of a data record.
#[tactic(auto, unfolding(session::specs::Events::data_taken))]
pub fn data_taken(s: session::Session) -> session::Session
    ensures { result ≡ data_taken s }
{
    let batch = session::Batch {
        running: digest::end_record(message::method(s.batch.suo.text), s.batch.running),
        ..s.batch
    };
    let at = session::at_place(s, session::Place::InData, s.told, session::no_characters());
    session::with_batch(at, batch)
}
