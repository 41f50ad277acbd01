// The messages that a reply is about, from the session just before it was settled.
use crate::Settled;
use message::{About, Kind};
use session::{Place, Session};

// The message that a fault of form is of, and the line where it begins; the one that is answered, an ESI or a SUO; the one that closes a
// frame.
#[derive(Clone, Copy)]
pub struct Heard {
    pub faulty: [u8; 161],
    pub line: u64,
    pub answered: [u8; 161],
    pub closing: [u8; 161],
}

// Whether a frame's SUO has no fault of form: then a fault of form is its VAR's.
fn is_sound_suo(suo: &message::Collected) -> bool {
    verdict::is_sound(message::fault_of(
        Kind::Suo,
        About::Answered,
        suo.extent,
        suo.blank,
        &suo.text,
    ))
}

// The first ESI begins the file; a later one is settled where its first record ends.
fn esi_line(place: Place, at: Settled) -> u64 {
    match place {
        Place::BeforeEsi | Place::Collecting(_) => 1,
        _ => at.line,
    }
}

// An ESI, or a SUO that no frame was opened with yet, is what was gathered itself.
pub fn heard_of(s: &Session, is_esi: bool, at: Settled) -> Heard {
    let closing = s.gathered.text;
    let suo = s.batch.suo;
    let is_in_frame = matches!(s.place, Place::Collecting(Kind::Var) | Place::InData);
    let (faulty, line, answered) = if is_esi {
        (closing, esi_line(s.place, at), closing)
    } else if !is_in_frame {
        (closing, at.suo, closing)
    } else if is_sound_suo(&suo) {
        (closing, at.var, suo.text)
    } else {
        (suo.text, at.suo, suo.text)
    };
    Heard {
        faulty,
        line,
        answered,
        closing,
    }
}
