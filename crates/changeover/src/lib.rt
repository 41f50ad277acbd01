// The keys of a customer: which one a generation names, which is good for a date, and what a new key changes.

#![tactic(auto)]

ghost use Rattle.std.specs.Prelude.{◌≡◌};
ghost use Rattle.changeover.specs.Held.{held_key, good_for, changing};
ghost use Rattle.changeover.specs.Changes.{changed, with_transport, with_working, without_previous};

use calendar::{CalendarDays, Date};
use customer::{Changeover, Customer, KeyPair};

// The key of that generation, if it is held, whatever the date.
#[tactic(auto, unfolding(crate::specs::Held::held_key, crate::specs::Held::previous_named, ground::specs::Choice::pick))]
pub fn held(k: KeyPair, generation: u32) -> Option<u64>
    ensures { result ≡ held_key k generation }
{
    if k.generation == generation {
        Some(k.key)
    } else {
        k.previous
            .filter(|p| p.generation == generation)
            .map(|p| p.key)
    }
}

// Whether a generation is good for a stamp of that date: the current one always, the previous one up to its last day. On which day its
// changeover began doesn't count: a file that was made before it may arrive in it.
#[tactic(auto, unfolding(crate::specs::Held::good_for, crate::specs::Held::previous_good, ground::specs::Choice::both, ground::specs::Choice::either, ground::specs::Choice::fails))]
pub fn is_good_for(k: KeyPair, generation: u32, date: Date) -> bool
    ensures { result ≡ good_for k generation date }
{
    k.generation == generation
        || k.previous
            .is_some_and(|p| p.generation == generation && !p.last.before(date))
}

// Whether a previous key is held whose last day isn't past.
#[tactic(auto, unfolding(crate::specs::Held::changing, ground::specs::Choice::fails))]
pub fn is_changing(p: Option<Changeover>, today: Date) -> bool
    ensures { result ≡ changing p today }
{
    p.is_some_and(|p| !p.last.before(today))
}

// The keys after a change: the current one becomes the previous one, from today on for a number of calendar days.
#[tactic(auto, unfolding(crate::specs::Changes::changed))]
pub fn change(old: KeyPair, generation: u32, key: u64, today: Date, days: CalendarDays) -> KeyPair
    ensures { result ≡ changed old generation key today days }
{
    let previous = Changeover {
        generation: old.generation,
        key: old.key,
        first: today,
        last: today.plus(days),
    };
    KeyPair {
        generation,
        key,
        previous: Some(previous),
    }
}

// The customer with a new transport key.
#[tactic(auto, unfolding(crate::specs::Changes::with_transport, crate::specs::Changes::with_keys))]
pub fn with_transport(c: Customer, generation: u32, key: u64, today: Date) -> Customer
    ensures { result ≡ with_transport c generation key today }
{
    Customer {
        transport: change(c.transport, generation, key, today, c.length),
        ..c
    }
}

// The customer with a new working key, of the next generation.
#[tactic(auto, unfolding(crate::specs::Changes::with_working, crate::specs::Changes::with_keys))]
pub fn with_working(c: Customer, key: u64, today: Date) -> Customer
    ensures { result ≡ with_working c key today }
{
    let generation = keys::next_generation(c.working.generation);
    Customer {
        working: change(c.working, generation, key, today, c.length),
        ..c
    }
}

// The customer without its previous working key.
#[tactic(auto, unfolding(crate::specs::Changes::without_previous, crate::specs::Changes::with_keys))]
pub fn without_previous(c: Customer) -> Customer
    ensures { result ≡ without_previous c }
{
    Customer {
        working: KeyPair {
            previous: None,
            ..c.working
        },
        ..c
    }
}
