// What stands in the way of a call: each condition of document 01's table of refusals that more than a comparison decides.

#![tactic(auto)]

ghost use Rattle.std.specs.Prelude.{◌≡◌, eqb, find, map};
ghost use Rattle.ground.specs.Choice.{either};
ghost use Rattle.ground.specs.Lists.{all};
ghost use Rattle.calendar.specs.Dates.{real_date};
ghost use Rattle.table.specs.Table.{rising};
ghost use Rattle.table.specs.Decode.{table_of};
ghost use Rattle.refusals.specs.Numbers.{code_of, condition_of};
ghost use Rattle.refusals.specs.Refusals.{lowest, bad_day, table_full, already_there, even_part, check_differs, not_next, bad_length};
ghost use Rattle.refusals.specs.Length.{length_of};

/// Why a call is refused, by its number from 1 on.
#[derive(Clone, Copy, Debug, PartialEq, Eq, PartialOrd, Ord)]
pub enum Refusal {
    /// The room for a reply is too small.
    NoRoom = 1,
    /// The bytes are no table.
    NoTable,
    /// The session is none that this call takes.
    NoSession,
    /// A date or time is not real, or the day is before the table's.
    BadDate,
    /// The table has 32 customers already.
    TableFull,
    /// The identity with its qualifier is there already.
    AlreadyThere,
    /// No customer has that identity and qualifier.
    Unknown,
    /// The parity of a key part is even.
    EvenPart,
    /// The check value differs.
    OtherCheck,
    /// The generation is not the next.
    NotNext,
    /// An argument is out of its limits.
    OutOfLimits,
    /// The changeover before is not past.
    StillChanging,
    /// A field given breaks the rules on a message's format or values.
    OtherForm,
}

/// 0 for a call that was served, and else the refusal's number: what a box is told.
#[tactic(auto, unfolding(crate::specs::Numbers::code_of, crate::specs::Numbers::number_of))]
pub fn code(outcome: Result<(), Refusal>) -> u32
    ensures { result ≡ code_of outcome }
{
    match outcome {
        Ok(()) => 0,
        Err(refusal) => refusal as u32,
    }
}

// The first condition that holds, with its refusal.
fn first_held(conditions: &[(bool, Refusal)]) -> Option<(bool, Refusal)>
    ensures { result ≡ find (λ c. c.0) conditions.now }
{
    conditions.iter().copied().find(|&(holds, _)| holds)
}

/// The refusal of the first condition that holds, in the order of the list.
pub fn first_of(conditions: &[(bool, Refusal)]) -> Result<(), Refusal>
    ensures { code_of result ≡ lowest (map condition_of conditions.now) }
{
    match first_held(conditions) {
        Some((_, refusal)) => Err(refusal),
        None => Ok(()),
    }
}

// Whether today is no real date, or before the table's day.
#[tactic(auto, using(ground::proofs::Std::words), unfolding(crate::specs::Refusals::bad_day))]
pub fn is_bad_day(t: &[u8], today: calendar::Date) -> bool
    ensures { result ≡ bad_day (table_of t.now) today }
{
    !today.is_real() || today.before(table::day(t))
}

// Whether the table has no room for one more customer.
#[tactic(auto, using(ground::proofs::Std::words), unfolding(crate::specs::Refusals::table_full))]
pub fn is_full(t: &[u8]) -> bool
    ensures { result ≡ table_full (table_of t.now) }
{
    32 <= table::customer_count(t)
}

// Whether a customer has that identity and qualifier.
#[tactic(auto, unfolding(crate::specs::Refusals::already_there, table::specs::Table::is_unknown, ground::specs::Choice::fails))]
pub fn is_there(t: &[u8], who: [u8; 25]) -> bool
    ensures { result ≡ already_there (table_of t.now) who }
{
    table::find(t, who).is_some()
}

// Whether the parity of a key part is even.
#[tactic(auto, using(ground::proofs::Std::words), unfolding(crate::specs::Refusals::even_part))]
pub fn is_even_part(part1: u64, part2: u64) -> bool
    ensures { result ≡ even_part part1 part2 }
{
    !keys::has_odd_parity(part1) || !keys::has_odd_parity(part2)
}

// Whether the parts have another check value.
#[tactic(auto, using(ground::proofs::Std::words), unfolding(crate::specs::Refusals::check_differs))]
pub fn is_other_check(part1: u64, part2: u64, check: u64) -> bool
    ensures { result ≡ check_differs part1 part2 check }
{
    keys::check_value(keys::combine(part1, part2)) != check
}

// Whether a generation isn't the one that follows the current one.
#[tactic(auto, using(ground::proofs::Std::words), unfolding(crate::specs::Refusals::not_next))]
pub fn is_not_next(current: u32, new: u32) -> bool
    ensures { result ≡ not_next current new }
{
    keys::next_generation(current) != new
}

// The days of a changeover.
#[tactic(auto, unfolding(crate::specs::Length::length_of))]
pub fn days_of(l: Option<calendar::CalendarDays>) -> calendar::CalendarDays
    ensures { result ≡ length_of l }
{
    l.unwrap_or(calendar::CalendarDays(30))
}

// Whether a length is given and out of its limits.
#[tactic(auto, using(ground::proofs::Std::words), unfolding(crate::specs::Refusals::bad_length))]
pub fn is_bad_length(l: Option<calendar::CalendarDays>) -> bool
    ensures { result ≡ bad_length l }
{
    l.is_some_and(|n| n.0 < 1 || 60 < n.0)
}

// Whether a version floor is one of the two.
#[tactic(auto, using(ground::proofs::Std::words))]
pub fn is_floor(floor: u32) -> bool
    ensures { result ≡ either (eqb floor 110) (eqb floor 120) }
{
    floor == 110 || floor == 120
}

// Whether each date is real.
pub fn are_real(dates: &[u32]) -> bool
    ensures { result ≡ all real_date dates.now }
{
    dates
        .iter()
        .all(|&yymmdd| calendar::Date { yymmdd }.is_real())
}

// Whether the dates rise strictly.
pub fn are_rising(dates: &[u32]) -> bool
    ensures { result ≡ rising dates.now }
{
    for w in dates.windows(2) {
        let low = calendar::Date { yymmdd: w[0] };
        let high = calendar::Date { yymmdd: w[1] };
        if !low.before(high) {
            return false;
        }
    }
    true
}
