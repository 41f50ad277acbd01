// What acceptance asks of a customer's stamps, and what it grants and changes.

#![tactic(auto)]

ghost use Rattle.std.specs.Prelude.{◌≡◌, ◌≤◌, ◌&&◌, length, take, nat_eq, not};
ghost use Rattle.std.specs.List.{list_any, zip};
ghost use Rattle.calendar.specs.Banking.{earliest_good};
ghost use Rattle.acceptance.specs.Stamps.{holds_stamp, stamp_old, live_stamps, once_used, with_live, with_stamp};
ghost use Rattle.acceptance.specs.Grants.{granted_by};
ghost use Rattle.acceptance.specs.Steps.{granted, under_previous, new_key, under_current};

use calendar::Date;
use customer::Customer;
use keys::KeyMaker;

// What acceptance grants: the code, the customer's record, the key to enclose, how many keys were made, the seed afterwards.
#[derive(Clone, Copy, Debug, PartialEq, Eq)]
pub struct Granted {
    pub code: u32,
    pub customer: Customer,
    pub enclosed: Option<u64>,
    pub made: u32,
    pub seed: u64,
}

// Those of 64 places that are held: of the stamps, or of the one-time keys beside them.
fn held(places: &[u64; 64], count: u32) -> &[u64]
    ensures { result.now ≡ take count places.now }
{
    &places[..places.len().min(count as usize)]
}

// Whether the customer holds that stamp.
#[tactic(auto, unfolding(crate::specs::Stamps::holds_stamp), using(ground::proofs::Std::member_is))]
pub fn holds_stamp(c: Customer, stamp: u64) -> bool
    ensures { result ≡ holds_stamp c stamp }
{
    held(&c.stamps, c.count).contains(&stamp)
}

// A day with its bank's holidays, and the earliest date that isn't too old then.
#[derive(Drop)]
struct Day<'a> {
    today: Date,
    holidays: &'a [u32],
    earliest: Date,
    ghost first: { earliest ≡ earliest_good holidays.now today },
}

impl<'a> Day<'a> {
    fn new(today: Date, holidays: &'a [u32]) -> Self
        ensures { (result.today ≡ today) × (result.holidays.now ≡ holidays.now) }
    {
        Day {
            today,
            holidays,
            earliest: today.earliest_good(holidays),
        }
    }

    // Whether a stamp's date is too old on that day. A day's number depends on six digits only.
    #[tactic(auto, using(crate::proofs::Digits::as_old, crate::proofs::Digits::old_before))]
    fn is_old(&self, stamp: u64) -> bool
        ensures { result ≡ stamp_old self.now.holidays.now self.now.today stamp }
    {
        let date = Date {
            yymmdd: (stamp / 1000000000 % 1000000) as u32,
        };
        if date.is_real() && self.today.is_real() {
            date.before(self.earliest)
        } else {
            date.is_too_old(self.today, self.holidays)
        }
    }
}

// How many stamps of the customer are not too old.
pub fn live_count(c: Customer, today: Date, holidays: &[u32]) -> u32
    ensures { result ≡ length (live_stamps holidays.now today c) }
{
    let day = Day::new(today, holidays);
    held(&c.stamps, c.count)
        .iter()
        .filter(|&&s| !day.is_old(s))
        .count() as u32
}

// Whether the key stands beside a stamp that is not too old.
fn is_beside(stamps: &[u64], once: &[u64], day: &Day<'_>, key: u64) -> bool
    ensures { result
        ≡ list_any
        (λ p. nat_eq p.1 key && not (stamp_old day.now.holidays.now day.now.today p.0))
        (zip stamps.now once.now) }
{
    stamps
        .iter()
        .zip(once)
        .any(|(&s, &k)| k == key && !day.is_old(s))
}

// Whether a batch whose stamp is not too old had the same one-time key; 0 stands for none.
#[tactic(auto, unfolding(crate::specs::Stamps::once_used, ground::specs::Choice::both, ground::specs::Choice::fails), using(crate::proofs::Lives::live_any))]
pub fn is_once_used(c: Customer, today: Date, holidays: &[u32], key: u64) -> bool
    ensures { result ≡ once_used holidays.now today c key }
{
    key != 0
        && is_beside(
            held(&c.stamps, c.count),
            held(&c.once, c.count),
            &Day::new(today, holidays),
            key,
        )
}

// The customer's record with the stamps that are not too old alone, in their order, from the front, with their one-time keys.
fn with_live(c: Customer, day: &Day<'_>) -> Customer
    ensures live { result ≡ with_live day.now.holidays.now day.now.today c }
    ensures few { result.count ≤ 64 }
{
    let mut live = Customer {
        count: 0,
        stamps: [0; 64],
        once: [0; 64],
        ..c
    };
    for (s, k) in held(&c.stamps, c.count).iter().zip(held(&c.once, c.count)) {
        if !day.is_old(*s) {
            let n = live.count as usize;
            live.stamps[n] = *s;
            live.once[n] = *k;
            live.count += 1;
        }
    }
    live
}

// The customer's record with a stamp marked used, and the one-time key of its batch or 0; those that are too old are left out.
#[tactic(auto, using(crate::proofs::Lives::marked_more, crate::proofs::Lives::marked_full))]
pub fn with_stamp(c: Customer, today: Date, holidays: &[u32], stamp: u64, once: u64) -> Customer
    ensures { result ≡ with_stamp holidays.now today c stamp once }
{
    let mut live = with_live(c, &Day::new(today, holidays));
    let n = live.count as usize;
    if n < 64 {
        live.stamps[n] = stamp;
        live.once[n] = once;
    }
    live.count += 1;
    live
}

// The answer where no key was made.
fn without_key(code: u32, customer: Customer, enclosed: Option<u64>, seed: u64) -> Granted
    ensures { result ≡ granted code customer enclosed 0 seed }
{
    Granted {
        code,
        customer,
        enclosed,
        made: 0,
        seed,
    }
}

// What a message under the previous working key is granted: the current key is enclosed.
#[tactic(auto, unfolding(crate::specs::Steps::under_previous, ground::specs::Choice::pick))]
fn under_previous(c: Customer, maker: KeyMaker, request: u32) -> Granted
    ensures { result ≡ under_previous c maker request }
{
    let current = Some(c.working.key);
    match request {
        0 => without_key(1002, c, current, maker.seed),
        1 => without_key(1003, c, current, maker.seed),
        _ => without_key(1037, c, None, maker.seed),
    }
}

// A new working key, which is enclosed.
#[tactic(auto, unfolding(crate::specs::Steps::new_key))]
fn new_key(c: Customer, maker: KeyMaker, clock: u64, today: Date) -> Granted
    ensures { result ≡ new_key c maker clock today }
{
    let mut seed = maker.seed;
    let key = keys::take_key(maker.key, &mut seed, clock);
    Granted {
        code: 1003,
        customer: changeover::with_working(c, key, today),
        enclosed: Some(key),
        made: 1,
        seed,
    }
}

// What a message under the current working key is granted.
#[tactic(auto, unfolding(crate::specs::Steps::under_current, ground::specs::Choice::pick, ground::specs::Choice::fails))]
fn under_current(c: Customer, maker: KeyMaker, clock: u64, today: Date, request: u32) -> Granted
    ensures { result ≡ under_current c maker clock today request }
{
    let busy = changeover::is_changing(c.working.previous, today);
    match request {
        0 => without_key(1001, c, None, maker.seed),
        1 if !c.leave => without_key(1004, c, None, maker.seed),
        1 if busy => without_key(1005, c, None, maker.seed),
        1 => new_key(c, maker, clock, today),
        _ if busy => without_key(1036, changeover::without_previous(c), None, maker.seed),
        _ => without_key(1037, c, None, maker.seed),
    }
}

// What acceptance grants, by the generation of the working key that the message used and by its request.
#[tactic(auto, unfolding(ground::specs::Choice::pick), using(crate::proofs::Rows::by_rows))]
pub fn grant(
    c: Customer,
    maker: KeyMaker,
    clock: u64,
    today: Date,
    generation: u32,
    request: u32,
) -> Granted
    ensures { result ≡ granted_by c maker clock today generation request }
{
    if c.working.generation == generation {
        under_current(c, maker, clock, today, request)
    } else {
        under_previous(c, maker, request)
    }
}
