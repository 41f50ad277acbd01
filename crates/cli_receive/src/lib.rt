// The command receive. The order of writes: the replies beside their name, flushed; the table; the replies' name; then the listing. The
// input is read in parts and the replies are written as they come, so memory does not grow with the file.
#![tactic(auto)]

use calendar::Date;
use cli_files::Seen;
use cli_help::Command;
use cli_run::Run;
use cli_terminal::options::Words;
use cli_terminal::program::Program::Lentilpot;
use cli_terminal::say;
use cli_terminal::status::{Status, Told};
use opening::Opening;
use session::Session;
use size_limit::Growing;
use std::fs::File;
use std::io;
use std::io::Read;

// How a run ended, but for trouble that was told: with a refusal to answer on a table of that day, or with the replies to list (and, where
// they are asked for, the explanations).
#[derive(Drop)]
enum Done {
    Refused {
        refusal: u32,
        day: Date,
    },
    Saved {
        replies: io::Result<File>,
        explanations: Option<Growing>,
    },
}

// The names of the table, of the file to receive and of its replies; on what occasion, and how many bytes a read.
#[derive(Drop)]
struct Asked {
    table: Vec<u8>,
    file: Vec<u8>,
    replies: Vec<u8>,
    opening: Opening,
    size: usize,
}

// The table that a run has taken: which run, and what was seen of the table's file then.
#[derive(Clone, Copy)]
struct Taken {
    run: Run,
    seen: Option<Seen>,
}

pub fn receive(rt: &HostRuntime, words: &Words) -> Result<Status, Told> {
    cli_help::are_as_many(rt, words, Command::Receive, 9, 10)?;
    words.are_taken(rt, Lentilpot, b"--later --explain ")?;
    let asked = Asked::of(rt, words)?;
    asked.receive(rt, words)
}

// Bytes a read; all that is read at once where the word is left out.
fn read_size(rt: &HostRuntime, words: &Words, i: usize) -> Result<usize, Told> {
    if words.count() <= i {
        return Ok(65536);
    }
    let size = cli_asked::read_size(rt, Lentilpot, words.word(i))?;
    Ok(size as usize)
}

// What is said once the table is free again, since a reader may be slow to take it.
fn answered(rt: &HostRuntime, done: Done, asked: &Asked) -> Result<Status, Told> {
    let o = asked.opening;
    match done {
        Done::Refused { refusal: 11, .. } => {
            say::answer_limits(rt, Lentilpot, b"TYPE", b"a data type, 1 to 16")
        }
        Done::Refused { refusal, day } => cli_days::answer(rt, day, o.today, o.time, refusal),
        Done::Saved {
            replies,
            explanations,
        } => cli_listing::list(
            rt,
            replies,
            explanations,
            &asked.replies,
            &asked.file,
            o.today,
        ),
    }
}

impl Asked {
    fn of(rt: &HostRuntime, words: &Words) -> Result<Asked, Told> {
        let p = Lentilpot;
        let table = cli_names::of_kept(rt, p, words.word(2), b"TABLE")?;
        let day = cli_asked::date(rt, p, words.word(3))?;
        let time = cli_asked::digits(rt, p, words.word(4), 6, 6, b"TIME", b"six digits hhmmss")?;
        let kind = cli_asked::digits(rt, p, words.word(5), 1, 9, b"TYPE", b"a data type, 1 to 16")?;
        let clock = cli_asked::key(rt, p, words.word(6), b"CLOCK")?;
        let size = read_size(rt, words, 9)?;
        let file = cli_names::of_input(rt, p, words.word(7))?;
        let replies = cli_names::of_made(rt, p, words.word(8), b"REPLIES")?;
        Ok(Asked {
            table,
            file,
            replies,
            opening: Opening {
                today: Date { yymmdd: day },
                time,
                kind,
                clock,
            },
            size,
        })
    }

    // The file is opened before the table is taken: the opening of a pipe may wait.
    fn receive(&self, rt: &HostRuntime, words: &Words) -> Result<Status, Told> {
        if self.file.as_slice() == b"-".as_slice() {
            let mut input = rt.stdin();
            let given = cli_files::of_descriptor(rt, &input).ok();
            return self.receive_open(rt, words, &mut input, given);
        }
        let what = b"can't open the file to receive";
        let mut input = cli_beside::open_told(rt, Lentilpot, what, &self.file)?;
        let given = cli_files::of_open(&input).ok();
        self.receive_open(rt, words, &mut input, given)
    }

    fn receive_open<I: Read>(
        &self,
        rt: &HostRuntime,
        words: &Words,
        input: &mut I,
        given: Option<Seen>,
    ) -> Result<Status, Told> {
        let run = cli_lock::take(rt, Lentilpot, &self.table)?;
        let done = self.under_lock(rt, words, input, given, run);
        cli_lock::release(rt, Lentilpot, &self.table, &run);
        answered(rt, done?, self)
    }

    // Loads the table and opens the file.
    fn under_lock<I: Read>(
        &self,
        rt: &HostRuntime,
        words: &Words,
        input: &mut I,
        given: Option<Seen>,
        run: Run,
    ) -> Result<Done, Told> {
        let mut t = [0u8; 49152];
        let seen = cli_files::of_name(rt, &self.table).ok();
        cli_table::load(rt, Lentilpot, &self.table, &mut t)?;
        if cli_files::are_same(given, seen) {
            say::expected(rt, Lentilpot, b"FILE", b"another file than TABLE");
            return Err(Told);
        }
        cli_days::is_meant(rt, words, &t, self.opening.today)?;
        let a = calls::open(&mut t, self.opening);
        if a.refusal != 0 {
            return Ok(Done::Refused {
                refusal: a.refusal,
                day: table::day(&t),
            });
        }
        self.make_table(rt, words, input, Taken { run, seen }, &mut t, a.session)
    }

    // Makes TABLE.new: from here on the names that this run may not give to its replies are taken.
    fn make_table<I: Read>(
        &self,
        rt: &HostRuntime,
        words: &Words,
        input: &mut I,
        taken: Taken,
        t: &mut [u8],
        s: Session,
    ) -> Result<Done, Told> {
        let kept = cli_table::begin(rt, Lentilpot, &self.table)?;
        if let Err(told) = cli_replies::is_free(rt, Lentilpot, &self.replies) {
            cli_table::give_up(rt, &self.table, kept);
            return Err(told);
        }
        match cli_replies::begin(rt, Lentilpot, &self.replies, &self.table, &taken.run) {
            Ok(out) => self.make_replies(rt, words, input, taken, kept, out, t, s),
            Err(told) => {
                cli_replies::undo(rt, Lentilpot, &self.table, kept, &taken.run);
                Err(told)
            }
        }
    }

    // Fills REPLIES.new, saves the table and gives the replies their name.
    fn make_replies<I: Read>(
        &self,
        rt: &HostRuntime,
        words: &Words,
        input: &mut I,
        taken: Taken,
        kept: File,
        mut out: Growing,
        t: &mut [u8],
        s: Session,
    ) -> Result<Done, Told> {
        let explanations = match self.fill(rt, words, input, &mut out, t, s) {
            Ok(explanations) => explanations,
            Err(told) => {
                cli_replies::remove(rt, Lentilpot, &self.replies, out.file(), &taken.run);
                cli_replies::undo(rt, Lentilpot, &self.table, kept, &taken.run);
                return Err(told);
            }
        };
        // opened while the name is surely this run's, and listed once all is done
        let replies = cli_beside::open_beside(rt, &self.replies, b".new");
        cli_replies::is_finished(
            rt,
            Lentilpot,
            &self.table,
            kept,
            taken.seen,
            &self.replies,
            out.file(),
            &taken.run,
            t,
        )?;
        Ok(Done::Saved {
            replies,
            explanations,
        })
    }

    // Every reply written and flushed; the explanations, where they are asked for.
    fn fill<I: Read>(
        &self,
        rt: &HostRuntime,
        words: &Words,
        input: &mut I,
        out: &mut Growing,
        t: &mut [u8],
        s: Session,
    ) -> Result<Option<Growing>, Told> {
        let mut explanations = cli_listing::begin(rt, words, &self.replies)?;
        cli_feed::is_received(
            rt,
            input,
            &self.file,
            out,
            &mut explanations,
            &self.replies,
            t,
            s,
            self.size,
        )?;
        cli_replies::is_flushed(rt, Lentilpot, &self.replies, out.file())?;
        Ok(explanations)
    }
}
