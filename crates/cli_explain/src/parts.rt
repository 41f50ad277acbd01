// What a reply says by itself: its code, what it is about, whom it answers.
use cli_texts::room::is_shown;
use cli_texts::sheet::Sheet;

// A reply's first 237 characters: all that an ESI has, and all of a PTE that says something.
#[derive(Clone, Copy)]
pub struct Reply {
    pub text: [u8; 237],
}

impl Reply {
    pub fn of(characters: &[u8]) -> Reply {
        let mut text = [0u8; 237];
        text::copy(&mut text, characters);
        Reply { text }
    }

    // 0, which is no code, where its characters aren't digits or are the key of a text that is no code's.
    pub fn code(&self) -> u64 {
        let digits = &self.text[12..16];
        if !text::all_digits(digits) {
            return 0;
        }
        match text::number(digits) {
            code if code < 2000 => code,
            _ => 0,
        }
    }

    pub fn is_accepted(&self) -> bool {
        self.text[11] == b'K'
    }

    pub fn is_esi(&self) -> bool {
        self.text[2] == b'E'
    }

    // The bare form: field 8 is blank.
    pub fn is_bare(&self) -> bool {
        text::all_blank(&self.text[35..60])
    }

    // Whether it answers a batch, and neither an ESI, data outside a batch nor a file that is too large.
    pub fn is_of_batch(&self) -> bool {
        self.about() == cli_texts::OF_BATCH
    }

    // What it is about, by its text.
    pub fn about(&self) -> u64 {
        match self.key() {
            _ if self.is_esi() => cli_texts::OF_ESI,
            1023 => cli_texts::OUTSIDE,
            cli_texts::TOO_LARGE => cli_texts::OF_FILE,
            _ => cli_texts::OF_BATCH,
        }
    }

    // The text of what is so: 1034 has two reasons, the stamps in the full form and the file's size in the bare one.
    pub fn key(&self) -> u64 {
        match self.code() {
            1034 if self.is_bare() => cli_texts::TOO_LARGE,
            code => code,
        }
    }

    // Whom it names: in its full form whom it answers.
    pub fn whom(&self) -> Whom {
        Whom::of(&self.text[35..60], &self.text[87..102])
    }

    // A sheet of its code and notice, the number of the batch, and whom it answers.
    pub fn sheet(&self, batches: u64, whom: &Whom) -> Sheet {
        let mut s = Sheet::blank();
        s.part(b'c', &self.text[11..12]);
        s.part(b'd', &self.text[12..16]);
        s.letters(b'n', &self.text[186..237]);
        s.number(b'm', batches.wrapping_add(1));
        s.name(b'i', &whom.who[..17]);
        s.name(b'q', &whom.who[17..]);
        s.part(b'j', &whom.stamp[..6]);
        s.part(b'r', &whom.stamp[6..12]);
        s.part(b's', &whom.stamp[12..]);
        s
    }
}

// Identity and qualifier, and a stamp: date, time and number.
#[derive(Clone, Copy)]
pub struct Whom {
    who: [u8; 25],
    stamp: [u8; 15],
}

impl Whom {
    pub fn of(who: &[u8], stamp: &[u8]) -> Whom {
        let mut whom = Whom {
            who: [b' '; 25],
            stamp: [b' '; 15],
        };
        text::copy(&mut whom.who, who);
        text::copy(&mut whom.stamp, stamp);
        whom
    }

    // Whether identity and qualifier came whole, and can be shown.
    pub fn is_named(&self) -> bool {
        is_shown(&self.who)
    }

    pub fn is_stamped(&self) -> bool {
        is_shown(&self.stamp)
    }
}
