// The command explain: replies for people.
use cli_explain::{Count, Unfinished, Untold};
use cli_help::Command;
use cli_terminal::options::Words;
use cli_terminal::program::Program::Lentilpot;
use cli_terminal::say;
use cli_terminal::status::{Status, Told};
use std::fs::File;

// Why the replies were not told whole.
fn tell(rt: &HostRuntime, path: &[u8], why: Untold) {
    match why {
        Untold::NotReplies => cli_beside::tell(
            rt,
            Lentilpot,
            path,
            b"not a file of replies: expected one that 'receive' wrote, each reply of 237 or 317 characters and an LF\n",
        ),
        Untold::Unread(e) => {
            say::trouble(rt, Lentilpot, b"can't read the replies", path, &e);
        }
        Untold::Unwritten(e) => {
            let _ = say::is_said(rt, Lentilpot, Err(e), b"the replies can't be shown: ");
        }
    }
}

// The status says whether some are refusals.
fn explained(rt: &HostRuntime, path: &[u8], input: &mut File) -> Result<Status, Told> {
    match cli_explain::replies(input, &mut rt.stdout()) {
        Ok(Count { refused: 0, .. }) => Ok(Status::Served),
        Ok(_) => Ok(Status::Refused),
        Err(Unfinished { why, .. }) => {
            tell(rt, path, why);
            Err(Told)
        }
    }
}

pub fn explain(rt: &HostRuntime, words: &Words) -> Result<Status, Told> {
    cli_help::are_as_many(rt, words, Command::Explain, 3, 3)?;
    words.are_taken(rt, Lentilpot, b"")?;
    let path = cli_names::of(rt, Lentilpot, words.word(2), b"REPLIES")?;
    let mut input = cli_beside::open_told(
        rt,
        Lentilpot,
        b"can't open the replies",
        path.as_slice(),
    )?;
    explained(rt, path.as_slice(), &mut input)
}
