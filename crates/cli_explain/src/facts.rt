// What the bank has and what the message gives: version and floor, receiver and bank, data types, the key that is enclosed.
use crate::parts::Reply;
use cli_texts::sheet::Sheet;

// The bank's floor and name; the sender's data types; the generation of the current working key after a reply, none where the sender is
// no customer, and whether it was made for that reply.
#[derive(Clone, Copy)]
pub struct Facts {
    floor: u32,
    bank: [u8; 25],
    types: u32,
    generation: Option<u32>,
    is_new: bool,
}

fn generation_in(t: &[u8], who: [u8; 25]) -> Option<u32> {
    let i = table::find(t, who)?;
    Some(table::load(t, i).working.generation)
}

fn types_in(t: &[u8], who: [u8; 25]) -> u32 {
    match table::find(t, who) {
        Some(i) => table::load(t, i).types,
        None => 0,
    }
}

// By the table before a reply and after it.
pub fn of(t: &[u8], after: &[u8], who: [u8; 25]) -> Facts {
    let settings = table::settings(t);
    let bank = settings.bank;
    let generation = generation_in(after, who);
    Facts {
        floor: settings.floor,
        bank,
        types: types_in(t, who),
        generation,
        is_new: generation_in(t, who) != generation,
    }
}

impl Facts {
    // Puts them, and those of a message of that data type, on the sheet.
    pub fn put(&self, s: &mut Sheet, m: &[u8; 161], kind: u32) {
        s.part(b'A', &m[8..11]);
        s.number(b'B', self.floor as u64);
        s.name(b'C', &m[35..52]);
        s.name(b'D', &m[52..60]);
        s.name(b'E', &self.bank[..17]);
        s.name(b'F', &self.bank[17..]);
        s.number(b'G', kind as u64);
        s.types(b'H', self.types);
        // 10 is no key's generation.
        s.number(b'z', self.generation.map_or(10, u64::from));
    }

    // The text of a reply with a key: a new one, or the current one where the previous was used.
    pub fn key_of(&self, r: &Reply, key: u64) -> u64 {
        match r.code() {
            1003 if self.is_new => cli_texts::NEW_KEY,
            1003 => cli_texts::CURRENT_KEY,
            _ => key,
        }
    }
}
