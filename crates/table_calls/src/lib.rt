// The four calls that keep a table: set up, add a customer, enter a transport key, order a new working key.

#![tactic(auto)]

ghost use Rattle.std.specs.Prelude.{◌≡◌, ◌<◌, ◌^◌, length, leb, ltb, eqb};
ghost use Rattle.ground.specs.Choice.{either, fails};
ghost use Rattle.customer.specs.Settings.{sound_who, sound_name};
ghost use Rattle.table.specs.Table.{rising};
ghost use Rattle.table.specs.Written.{table_size};
ghost use Rattle.refusals.specs.Refusals.{bad_length};
ghost use Rattle.refusals.specs.Numbers.{code_of};
ghost use Rattle.table_calls.specs.Promises.{MeetsKeeping};
ghost use Rattle.table_calls.specs.Calls.{new_customer, setting_up_answer, setting_up_leaves, adding_answer, adding_leaves, entering_answer};
ghost use Rattle.table_calls.specs.Calls.{entering_leaves, ordering_answer, ordering_leaves};

use calendar::{CalendarDays, Date};
use customer::{Customer, KeyPair, Settings};
use keys::KeyMaker;
use refusals::Refusal;

/// What a table is set up with: the bank's identity (17) and qualifier (8), the software's name, the version floor, the key maker.
#[derive(Clone, Copy, Debug, PartialEq, Eq)]
pub struct Setting {
    pub bank: [u8; 25],
    pub software: [u8; 16],
    pub floor: u32,
    pub key: u64,
    pub seed: u64,
}

#[derive(Clone, Copy, Debug, PartialEq, Eq)]
pub struct Adding {
    pub today: Date,
    pub who: [u8; 25],
    pub part1: u64,
    pub part2: u64,
    pub check: u64,
    pub generation: u32,
    pub types: u32,
    pub agreed: bool,
    pub leave: bool,
    pub length: Option<CalendarDays>,
}

#[derive(Clone, Copy, Debug, PartialEq, Eq)]
pub struct Entering {
    pub today: Date,
    pub who: [u8; 25],
    pub part1: u64,
    pub part2: u64,
    pub check: u64,
    pub generation: u32,
}

#[derive(Clone, Copy, Debug, PartialEq, Eq)]
pub struct Ordering {
    pub today: Date,
    pub who: [u8; 25],
    pub clock: u64,
}

// ---- set up a table

// Whether the table's bytes, a name, the floor or the list of holidays is out of its limits.
#[tactic(auto, unfolding(ground::specs::Choice::either, ground::specs::Choice::fails))]
fn is_setting_out(t: &[u8], s: Setting, holidays: &[u32]) -> bool
    ensures { result ≡
        either (fails (eqb (length t.now) table_size))
        (either (fails (sound_who s.bank))
        (either (fails (sound_name s.software))
        (either (fails (either (eqb s.floor 110) (eqb s.floor 120)))
        (either (ltb 200 (length holidays.now)) (fails (rising holidays.now)))))) }
{
    t.len() != 49152
        || !customer::is_sound_who(&s.bank)
        || !customer::is_sound_name(&s.software)
        || !refusals::is_floor(s.floor)
        || 200 < holidays.len()
        || !refusals::are_rising(holidays)
}

/// Why a table can't be set up, if it can't.
pub fn setting_up_refusal(t: &[u8], s: Setting, holidays: &[u32]) -> Result<(), Refusal>
    ensures { code_of result ≡ setting_up_answer t.now s holidays.now }
{
    refusals::first_of(&[
        (!refusals::are_real(holidays), Refusal::BadDate),
        (is_setting_out(t, s, holidays), Refusal::OutOfLimits),
    ])
}

/// A new table without customers, of day 800101.
pub fn set_up(t: &mut [u8], s: Setting, holidays: &[u32]) -> Result<(), Refusal>
    ensures { MeetsKeeping (setting_up_answer t.old s holidays.now)
        (setting_up_leaves t.old s holidays.now) (code_of result) t.new }
{
    setting_up_refusal(t, s, holidays)?;
    let bank = s.bank;
    let software = s.software;
    let settings = Settings {
        bank,
        software,
        floor: s.floor,
        maker: KeyMaker {
            key: s.key,
            seed: s.seed,
        },
    };
    table::set_up(t, Date { yymmdd: 800101 }, settings, holidays);
    Ok(())
}

// ---- add a customer

// Whether the name, the generation, the types or the length is out of its limits.
#[tactic(auto, unfolding(ground::specs::Choice::either, ground::specs::Choice::fails))]
fn is_adding_out(a: Adding) -> bool
    ensures { result ≡
        either (fails (sound_who a.who)) (either (ltb 9 a.generation) (either (leb (2 ^ 16) a.types) (bad_length a.length))) }
{
    !customer::is_sound_who(&a.who)
        || 9 < a.generation
        || 65536 <= a.types
        || refusals::is_bad_length(a.length)
}

/// Why a customer can't be added, if it can't.
pub fn adding_refusal(t: &[u8], a: Adding) -> Result<(), Refusal>
    ensures { code_of result ≡ adding_answer t.now a }
{
    if !table::is_table(t) {
        return Err(Refusal::NoTable);
    }
    refusals::first_of(&[
        (refusals::is_bad_day(t, a.today), Refusal::BadDate),
        (refusals::is_full(t), Refusal::TableFull),
        (refusals::is_there(t, a.who), Refusal::AlreadyThere),
        (refusals::is_even_part(a.part1, a.part2), Refusal::EvenPart),
        (
            refusals::is_other_check(a.part1, a.part2, a.check),
            Refusal::OtherCheck,
        ),
        (is_adding_out(a), Refusal::OutOfLimits),
    ])
}

// The customer that is added.
#[tactic(auto, unfolding(crate::specs::Calls::new_customer))]
fn new_customer(a: Adding) -> Customer
    ensures { result ≡ new_customer a }
{
    let who = a.who;
    let key = keys::combine(a.part1, a.part2);
    Customer {
        who,
        types: a.types,
        agreed: a.agreed,
        leave: a.leave,
        length: refusals::days_of(a.length),
        transport: KeyPair {
            generation: a.generation,
            key,
            previous: None,
        },
        working: KeyPair {
            generation: 0,
            key: keys::working_key_0(key),
            previous: None,
        },
        count: 0,
        stamps: [0; 64],
        once: [0; 64],
    }
}

/// One customer more.
pub fn add(t: &mut [u8], a: Adding) -> Result<(), Refusal>
    ensures { MeetsKeeping (adding_answer t.old a) (adding_leaves t.old a) (code_of result) t.new }
{
    adding_refusal(t, a)?;
    table::add(t, new_customer(a));
    table::store_day(t, a.today);
    Ok(())
}

// ---- enter a transport key

/// Why a transport key can't be entered, if it can't.
pub fn entering_refusal(t: &[u8], e: Entering) -> Result<(), Refusal>
    ensures { code_of result ≡ entering_answer t.now e }
{
    if !table::is_table(t) {
        return Err(Refusal::NoTable);
    }
    let k = table::named(t, e.who).transport;
    refusals::first_of(&[
        (refusals::is_bad_day(t, e.today), Refusal::BadDate),
        (!refusals::is_there(t, e.who), Refusal::Unknown),
        (refusals::is_even_part(e.part1, e.part2), Refusal::EvenPart),
        (
            refusals::is_other_check(e.part1, e.part2, e.check),
            Refusal::OtherCheck,
        ),
        (
            refusals::is_not_next(k.generation, e.generation),
            Refusal::NotNext,
        ),
        (
            changeover::is_changing(k.previous, e.today),
            Refusal::StillChanging,
        ),
    ])
}

/// A new transport key.
pub fn enter(t: &mut [u8], e: Entering) -> Result<(), Refusal>
    ensures { MeetsKeeping (entering_answer t.old e) (entering_leaves t.old e) (code_of result) t.new }
{
    entering_refusal(t, e)?;
    let Some(i) = table::find(t, e.who) else {
        return Err(Refusal::Unknown);
    };
    let key = keys::combine(e.part1, e.part2);
    let after = changeover::with_transport(table::load(t, i), e.generation, key, e.today);
    table::store(t, i, after);
    table::store_day(t, e.today);
    Ok(())
}

// ---- order a new working key

/// Why a working key can't be ordered, if it can't.
pub fn ordering_refusal(t: &[u8], o: Ordering) -> Result<(), Refusal>
    ensures { code_of result ≡ ordering_answer t.now o }
{
    if !table::is_table(t) {
        return Err(Refusal::NoTable);
    }
    let k = table::named(t, o.who).working;
    refusals::first_of(&[
        (refusals::is_bad_day(t, o.today), Refusal::BadDate),
        (!refusals::is_there(t, o.who), Refusal::Unknown),
        (
            changeover::is_changing(k.previous, o.today),
            Refusal::StillChanging,
        ),
    ])
}

/// A new working key, from the key maker.
pub fn order(t: &mut [u8], o: Ordering) -> Result<(), Refusal>
    ensures { MeetsKeeping (ordering_answer t.old o) (ordering_leaves t.old o) (code_of result) t.new }
{
    ordering_refusal(t, o)?;
    let Some(i) = table::find(t, o.who) else {
        return Err(Refusal::Unknown);
    };
    let maker = table::settings(t).maker;
    let mut seed = maker.seed;
    let key = keys::take_key(maker.key, &mut seed, o.clock);
    let after = changeover::with_working(table::load(t, i), key, o.today);
    table::store(t, i, after);
    table::store_seed(t, seed);
    table::store_day(t, o.today);
    Ok(())
}
