// The verdict on an ESI or a frame: the first failing check, and what acceptance changes.

#![tactic(auto)]

ghost use Rattle.std.specs.Prelude.{◌≡◌, Ok};
ghost use Rattle.acceptance.specs.Stamps.{with_stamp};
ghost use Rattle.table.specs.Decode.{table_of};
ghost use Rattle.message.specs.Fields.{stamp_of};
ghost use Rattle.verdict.specs.Outcomes.{grant_to, outcome_of, is_sound, stored_at, bytes_after, bytes_by, esi_outcome, esi_leaves};
ghost use Rattle.verdict.specs.Outcomes.{frame_outcome, frame_leaves};

use acceptance::Granted;
use calendar::Date;
use checks::{Frame, Occasion};
use customer::Customer;
use message::{About, Collected, Fault};

/// The answer: code, field and the message that the field is of, the key to enclose, and the keys made in this file then.
#[derive(Clone, Copy, Debug, PartialEq, Eq)]
pub struct Outcome {
    pub code: u32,
    pub field: u32,
    pub about: About,
    pub enclosed: Option<u64>,
    pub made: u64,
}

// What is granted to the sender of a message.
fn grant_to(t: &[u8], o: Occasion, m: [u8; 161], closing: [u8; 161]) -> Granted
    ensures { result ≡ grant_to (table_of t.now) o m closing }
{
    acceptance::grant(
        checks::customer_of(t, m),
        table::settings(t).maker,
        keys::clock_value(o.clock, o.made),
        o.today,
        message::working_generation(m),
        message::request(closing),
    )
}

// A record with the message's stamp marked used.
fn marked(t: &[u8], today: Date, c: Customer, m: [u8; 161], once: u64) -> Customer
    ensures { result ≡ with_stamp (table_of t.now).holidays today c (stamp_of m) once }
{
    let all = table::holidays_in(t);
    let holidays = &all.dates[..all.count as usize];
    acceptance::with_stamp(c, today, holidays, message::stamp(m), once)
}

// Another record for the customer at a place, if there is one.
fn store_record(t: &mut [u8], place: Option<usize>, c: Customer)
    ensures { t.new ≡ stored_at t.old place c }
{
    match place {
        Some(i) => table::store(t, i, c),
        None => {}
    }
}

/// Whether no check failed.
pub fn is_sound(fault: Result<(), Fault>) -> bool
    ensures { result ≡ is_sound fault }
{
    fault.is_ok()
}

// What acceptance grants: the record and the key maker's seed are stored, and the answer tells it.
fn accept(t: &mut [u8], o: Occasion, m: [u8; 161], closing: [u8; 161], once: u64) -> Outcome
    ensures { (result ≡ outcome_of (Ok tt) (grant_to (table_of t.old) o m closing) o.made)
        × (t.new ≡ bytes_after t.old o m closing once) }
{
    let granted = grant_to(t, o, m, closing);
    let record = marked(t, o.today, granted.customer, m, once);
    let place = table::find(t, message::sender(m));
    store_record(t, place, record);
    table::store_seed(t, granted.seed);
    Outcome {
        code: granted.code,
        field: 0,
        about: About::Answered,
        enclosed: granted.enclosed,
        made: keys::clock_value(o.made, granted.made as u64),
    }
}

// The answer by a verdict, and what it changes: where a check failed, nothing.
fn conclude(
    t: &mut [u8],
    fault: Result<(), Fault>,
    o: Occasion,
    m: [u8; 161],
    closing: [u8; 161],
    once: u64,
) -> Outcome
    ensures { (result ≡ outcome_of fault (grant_to (table_of t.old) o m closing) o.made)
        × (t.new ≡ bytes_by fault t.old (bytes_after t.old o m closing once)) }
{
    match fault {
        Ok(()) => accept(t, o, m, closing, once),
        Err(Fault { code, field, about }) => Outcome {
            code,
            field,
            about,
            enclosed: None,
            made: o.made,
        },
    }
}

/// The verdict on an ESI.
pub fn judge_esi(t: &mut [u8], o: Occasion, m: Collected) -> Outcome
    ensures { (result ≡ esi_outcome (table_of t.old) o m) × (t.new ≡ esi_leaves t.old o m) }
{
    let fault = checks::check_esi(t, o, m);
    conclude(t, fault, o, m.text, m.text, 0)
}

/// The verdict on a frame.
pub fn judge_frame(t: &mut [u8], o: Occasion, f: Frame) -> Outcome
    ensures { (result ≡ frame_outcome (table_of t.old) o f) × (t.new ≡ frame_leaves t.old o f) }
{
    let once = checks::key_or_0(f.once);
    let fault = checks::check_frame(t, o, f);
    conclude(t, fault, o, f.suo.text, f.var.text, once)
}
