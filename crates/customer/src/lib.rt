// A customer's record and a bank's settings, by value, and the tests of their parts: whether a table may hold them.

#![tactic(auto)]

ghost use Rattle.std.specs.Prelude.{◌≡◌};
ghost use Rattle.customer.specs.Settings.{sound_name, sound_who, sound_settings};
ghost use Rattle.customer.specs.Customer.{sound_previous, sound_keys, real_stamp, sound_once};

// A previous key, with its changeover from the first to the last day.
#[derive(Clone, Copy, Debug, PartialEq, Eq)]
pub struct Changeover {
    pub generation: u32,
    pub key: u64,
    pub first: calendar::Date,
    pub last: calendar::Date,
}

// The keys of one kind: the current one, and perhaps a previous one.
#[derive(Clone, Copy, Debug, PartialEq, Eq)]
pub struct KeyPair {
    pub generation: u32,
    pub key: u64,
    pub previous: Option<Changeover>,
}

// A customer: identity (17) and qualifier (8), data types (bit k - 1 for type k), agreement, leave to ask for keys, length of a
// changeover, transport and working keys, and the stamps of accepted messages, each with the one-time key of a batch or 0.
#[derive(Clone, Copy, Debug, PartialEq, Eq)]
pub struct Customer {
    pub who: [u8; 25],
    pub types: u32,
    pub agreed: bool,
    pub leave: bool,
    pub length: calendar::CalendarDays,
    pub transport: KeyPair,
    pub working: KeyPair,
    pub count: u32,
    pub stamps: [u64; 64],
    pub once: [u64; 64],
}

// What is set once for a bank: its identity (17) and qualifier (8), the software's name, the version floor, the key maker.
#[derive(Clone, Copy, Debug, PartialEq, Eq)]
pub struct Settings {
    pub bank: [u8; 25],
    pub software: [u8; 16],
    pub floor: u32,
    pub maker: keys::KeyMaker,
}

// A name: field characters, not all blank.
#[tactic(auto, unfolding(crate::specs::Settings::sound_name, ground::specs::Choice::both, ground::specs::Choice::fails))]
pub fn is_sound_name(name: &[u8]) -> bool
    ensures { result ≡ sound_name name.now }
{
    text::all_field_characters(name) && !text::all_blank(name)
}

// An identity, whose 17 characters are a name, with its qualifier.
#[tactic(auto, unfolding(crate::specs::Settings::sound_who, ground::specs::Choice::both, ground::specs::Choice::fails))]
pub fn is_sound_who(who: &[u8]) -> bool
    ensures { result ≡ sound_who who.now }
{
    let identity = &who[..who.len().min(17)];
    text::all_field_characters(who) && !text::all_blank(identity)
}

// Whether fifteen digits yymmddhhmmssnnn are a real date and time.
#[tactic(auto, unfolding(crate::specs::Customer::real_stamp, ground::specs::Choice::both))]
pub fn is_real_stamp(s: u64) -> bool
    ensures { result ≡ real_stamp s }
{
    s < 1000000000000000
        && calendar::Date {
            yymmdd: (s / 1000000000) as u32,
        }
        .is_real()
        && calendar::is_real_time((s / 1000 % 1000000) as u32)
}

// A one-time key has odd parity; 0 stands for none.
#[tactic(auto, unfolding(crate::specs::Customer::sound_once, ground::specs::Choice::either))]
pub fn is_sound_once(k: u64) -> bool
    ensures { result ≡ sound_once k }
{
    k == 0 || keys::has_odd_parity(k)
}

// Whether what may be held beside the current generation may stand there.
#[tactic(auto, unfolding(crate::specs::Customer::sound_previous, ground::specs::Choice::both, ground::specs::Choice::fails))]
pub fn is_sound_previous(current: u32, p: Option<Changeover>) -> bool
    ensures { result ≡ sound_previous current p }
{
    p.is_none_or(|p| {
        p.generation <= 9
            && keys::next_generation(p.generation) == current
            && keys::has_odd_parity(p.key)
            && p.first.is_real()
            && p.last.is_real()
            && !p.last.before(p.first)
    })
}

// Generations 0 to 9, keys of odd parity.
#[tactic(auto, unfolding(crate::specs::Customer::sound_keys, ground::specs::Choice::both))]
pub fn is_sound_keys(k: KeyPair) -> bool
    ensures { result ≡ sound_keys k }
{
    k.generation <= 9 && keys::has_odd_parity(k.key) && is_sound_previous(k.generation, k.previous)
}

#[tactic(auto, unfolding(crate::specs::Settings::sound_settings, ground::specs::Choice::both, ground::specs::Choice::either))]
pub fn is_sound_settings(s: Settings) -> bool
    ensures { result ≡ sound_settings s }
{
    is_sound_who(&s.bank) && is_sound_name(&s.software) && matches!(s.floor, 110 | 120)
}
