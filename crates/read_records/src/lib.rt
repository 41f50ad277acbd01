// What a record's end, a byte past the size limit and the file's end do to a session and to the table.

#![tactic(auto)]

ghost use Rattle.std.specs.Prelude.{◌≡◌};
ghost use Rattle.session.specs.Events.{first_ends, outside_ends, frame_ends, collecting_ends, record_ended, passed, cut_short, file_ended};
ghost use Rattle.read_records.specs.Messages.{message_done, message_start};

// A message's end: the verdict on an ESI and on a VAR, and a SUO's frame.
#[tactic(auto, unfolding(crate::specs::Messages::message_done, session::specs::Events::silent))]
fn message_done(
    k: message::Kind,
    extent: message::Extent,
    s: session::Session,
    t: &mut [u8],
) -> session::Stepped
    ensures value { result ≡ (message_done k extent s t.old).out }
    ensures t_after { t.new ≡ (message_done k extent s t.old).table }
{
    match k {
        message::Kind::Esi => read_messages::esi_done(s, t, extent),
        message::Kind::Suo => read_messages::quiet(read_messages::suo_done(s, t, extent)),
        message::Kind::Var => read_messages::var_done(s, t, extent),
    }
}

// A record's end in a message: it goes on until its length is reached.
#[tactic(auto, using(crate::proofs::ByKind::on_is), unfolding(ground::specs::Choice::pick, session::specs::Events::silent))]
fn message_on(k: message::Kind, s: session::Session, t: &mut [u8]) -> session::Stepped
    ensures value { result ≡ (collecting_ends k s t.old).out }
    ensures t_after { t.new ≡ (collecting_ends k s t.old).table }
{
    if read_messages::wants_more(s.gathered) {
        return read_messages::quiet(session::keeps_on(s, k));
    }
    message_done(k, message::Extent::Whole, s, t)
}

// The first record of a message: one with a fault of its extent stands alone.
#[tactic(auto, using(crate::proofs::ByKind::start_is), unfolding(ground::specs::Choice::pick, session::specs::Events::extent_by))]
fn message_start(k: message::Kind, s: session::Session, t: &mut [u8]) -> session::Stepped
    ensures value { result ≡ (message_start k s t.old).out }
    ensures t_after { t.new ≡ (message_start k s t.old).table }
{
    let extent = read_messages::extent_of(k, s.gathered);
    if read_messages::is_whole(extent) {
        return message_on(k, s, t);
    }
    message_done(k, extent, s, t)
}

// The first record: it must be an ESI's.
#[tactic(auto, unfolding(session::specs::Events::first_ends, crate::specs::Messages::message_start, ground::specs::Choice::pick, session::specs::Events::bare_turn, session::specs::Events::replies))]
fn first_ends(s: session::Session, t: &mut [u8]) -> session::Stepped
    ensures value { result ≡ (first_ends s t.old).out }
    ensures t_after { t.new ≡ (first_ends s t.old).table }
{
    if read_messages::begins_esi(s.gathered) {
        return message_start(message::Kind::Esi, s, t);
    }
    read_messages::bare_tag(t, s, 1010, session::closed_at(s))
}

// A record outside a frame.
#[tactic(auto, unfolding(session::specs::Events::outside_ends, crate::specs::Messages::message_start, ground::specs::Choice::pick, session::specs::Events::bare_turn, session::specs::Events::replies, session::specs::Events::silent))]
fn outside_ends(s: session::Session, t: &mut [u8]) -> session::Stepped
    ensures value { result ≡ (outside_ends s t.old).out }
    ensures t_after { t.new ≡ (outside_ends s t.old).table }
{
    if read_messages::begins_suo(s.gathered) {
        return message_start(message::Kind::Suo, s, t);
    }
    if read_messages::begins_esi(s.gathered) {
        return read_messages::bare_tag(t, s, 1011, session::closed_at(s));
    }
    let after = session::at_place(s, session::Place::Outside, true, session::no_characters());
    if s.told {
        return read_messages::quiet(after);
    }
    read_messages::bare(t, s, true, 1023, after)
}

// A record in a frame: the VAR, a second SUO, a later ESI, or data.
#[tactic(auto, unfolding(session::specs::Events::frame_ends, crate::specs::Messages::message_start, ground::specs::Choice::pick, session::specs::Events::bare_turn, session::specs::Events::replies, session::specs::Events::silent))]
fn frame_ends(s: session::Session, t: &mut [u8]) -> session::Stepped
    ensures value { result ≡ (frame_ends s t.old).out }
    ensures t_after { t.new ≡ (frame_ends s t.old).table }
{
    if read_messages::begins_var(s.gathered) {
        return message_start(message::Kind::Var, s, t);
    }
    if read_messages::begins_suo(s.gathered) {
        let second = message_start(message::Kind::Suo, s, t);
        return read_messages::bare(t, s, true, 1024, second.session);
    }
    if read_messages::begins_esi(s.gathered) {
        return read_messages::bare(t, s, true, 1024, session::closed_at(s));
    }
    read_messages::quiet(read_messages::data_taken(s))
}

// A record's end.
#[tactic(auto, unfolding(session::specs::Events::record_ended, session::specs::Events::ends_in, session::specs::Events::silent))]
pub fn record_ended(s: session::Session, t: &mut [u8]) -> session::Stepped
    ensures value { result ≡ (record_ended s t.old).out }
    ensures t_after { t.new ≡ (record_ended s t.old).table }
{
    match s.place {
        session::Place::BeforeEsi => first_ends(s, t),
        session::Place::Outside => outside_ends(s, t),
        session::Place::Collecting(k) => message_on(k, s, t),
        session::Place::InData => frame_ends(s, t),
        session::Place::Closed => read_messages::quiet(s),
    }
}

// A byte past the size limit: until an ESI is accepted the reply is an ESI.
#[tactic(auto, unfolding(session::specs::Events::passed, session::specs::Events::passed_in, session::specs::Events::is_esi, ground::specs::Choice::pick))]
pub fn size_passed(s: session::Session, t: &[u8]) -> session::Stepped
    ensures { result ≡ (passed s t.now).out }
{
    match s.place {
        session::Place::Closed => read_messages::quiet(s),
        session::Place::BeforeEsi | session::Place::Collecting(message::Kind::Esi) => {
            read_messages::bare(t, s, false, 1034, session::closed_at(s))
        }
        _ => read_messages::bare(t, s, true, 1034, session::closed_at(s)),
    }
}

// A message cut short by the file's end.
#[tactic(auto, unfolding(session::specs::Events::cut_short, crate::specs::Messages::message_done, session::specs::Events::bare_turn, session::specs::Events::replies))]
fn cut_short(k: message::Kind, s: session::Session, t: &mut [u8]) -> session::Stepped
    ensures value { result ≡ (cut_short k s t.old).out }
    ensures t_after { t.new ≡ (cut_short k s t.old).table }
{
    match k {
        message::Kind::Suo => read_messages::bare(t, s, true, 1032, session::closed_at(s)),
        _ => message_done(k, message::Extent::CutShort, s, t),
    }
}

// The file's end.
#[tactic(auto, unfolding(session::specs::Events::file_ended, session::specs::Events::finished_in, session::specs::Events::silent, session::specs::Events::bare_turn, session::specs::Events::replies))]
pub fn file_ended(s: session::Session, t: &mut [u8]) -> session::Stepped
    ensures value { result ≡ (file_ended s t.old).out }
    ensures t_after { t.new ≡ (file_ended s t.old).table }
{
    match s.place {
        session::Place::Collecting(k) => cut_short(k, s, t),
        session::Place::InData => read_messages::bare(t, s, true, 1024, session::closed_at(s)),
        _ => read_messages::quiet(s),
    }
}
