// The generations of keys that a customer holds.
use cli_texts::sheet::Sheet;
use cli_texts::{Line, add_text};

fn add_keys(l: &mut Line, s: &mut Sheet, k: &customer::KeyPair) {
    s.number(b'g', k.generation as u64);
    add_text(l, s, cli_texts::HELD);
    if let Some(previous) = k.previous {
        s.number(b'p', previous.generation as u64);
        s.date(b'y', previous.last);
        add_text(l, s, cli_texts::PREVIOUS);
    }
}

// The generations of the kind that 1013 or 1014 is about; none where the sender is no customer.
pub fn add_held(l: &mut Line, s: &mut Sheet, t: &[u8], who: [u8; 25], code: u64) {
    let Some(i) = table::find(t, who) else {
        return;
    };
    let c = table::load(t, i);
    match code {
        1013 => add_keys(l, s, &c.transport),
        1014 => add_keys(l, s, &c.working),
        _ => {}
    }
}
