// The listing, once the table is saved and the replies have their name: K or E and the code of each, or, where they are asked for, the
// explanations. These are kept meanwhile in a file without a name, so that a run that is cut off leaves nothing of them.
#![tactic(auto)]

use cli_terminal::options::Words;
use cli_terminal::program::Program::Lentilpot;
use cli_terminal::say;
use cli_terminal::status::{Status, Told};
use size_limit::Growing;
use std::fs::File;
use std::io;
use std::io::Read;

// A file for the explanations, where they are asked for.
pub fn begin(rt: &HostRuntime, words: &Words, replies: &[u8]) -> Result<Option<Growing>, Told> {
    if !words.is_given(b"--explain") {
        return Ok(None);
    }
    let what = b"nothing was changed: can't make a file for the explanations beside the replies";
    let file = cli_beside::nameless(rt, Lentilpot, what, replies)?;
    Ok(Some(Growing::new(rt, file)))
}

// ---- the replies, read back

// How many replies there were, and how many of them are refusals.
#[derive(Clone, Copy)]
struct Listed {
    replies: u64,
    refused: u64,
}

// Why they can't be listed.
#[derive(Drop)]
enum Unlisted {
    Unread(io::Error),
    Unwritten(io::Error),
}

// An error on the way is one of reading; what is written is told by itself.
impl From<io::Error> for Unlisted {
    fn from(e: io::Error) -> Unlisted {
        Unlisted::Unread(e)
    }
}

// Reads the replies back, as they were saved, counts them and, where they are to be shown, lists them.
fn list_replies(rt: &HostRuntime, file: &mut File, is_shown: bool) -> Result<Listed, Unlisted> {
    let mut l = Listed {
        replies: 0,
        refused: 0,
    };
    for _ in 0..u64::MAX {
        let Some(head) = next_head(file)? else {
            return Ok(l);
        };
        if is_shown {
            show(rt, &head).map_err(|e| Unlisted::Unwritten(e))?;
        }
        l = l.with(&head);
    }
    Err(Unlisted::Unread(io::Error::from(io::ErrorKind::FileTooLarge)))
}

// A reply's K or E and its code.
fn show(rt: &HostRuntime, head: &[u8; 16]) -> io::Result<()> {
    let mut line = [b' '; 7];
    line[0] = head[11];
    line[2..6].copy_from_slice(&head[12..]);
    line[6] = b'\n';
    say::out(rt, &line)
}

impl Listed {
    // With one reply more.
    fn with(self, head: &[u8; 16]) -> Listed {
        Listed {
            replies: self.replies.wrapping_add(1),
            refused: self.refused.wrapping_add((head[11] != b'K') as u64),
        }
    }
}

// Reads as much as the room takes; false at the file's end.
fn read_whole<R: Read>(input: &mut R, room: &mut [u8]) -> io::Result<bool> {
    let size = room.len();
    match cli_files::read_in(input, room)? {
        got if got == size => Ok(true),
        0 => Ok(false),
        _ => Err(io::Error::from(io::ErrorKind::UnexpectedEof)),
    }
}

// The beginning of the next reply; none at the file's end.
fn next_head(file: &mut File) -> io::Result<Option<[u8; 16]>> {
    let mut head = [0u8; 16];
    if !read_whole(file, &mut head)? {
        return Ok(None);
    }
    pass_rest(file, head[2])?;
    Ok(Some(head))
}

// The rest of an ESI of 237 or of a PTE of 317 characters, and its LF.
fn pass_rest(file: &mut File, kind: u8) -> io::Result<()> {
    let mut room = [0u8; 302];
    let size = if kind == b'E' { 222 } else { 302 };
    if read_whole(file, &mut room[..size])? {
        return Ok(());
    }
    Err(io::Error::from(io::ErrorKind::UnexpectedEof))
}

fn tell_unread(rt: &HostRuntime, replies: &[u8], e: &io::Error) -> Told {
    let what = b"the table was saved and the replies are in this file, which can't be read back";
    say::trouble(rt, Lentilpot, what, replies, e);
    Told
}

fn tell(rt: &HostRuntime, replies: &[u8], why: &Unlisted) -> Told {
    match why {
        Unlisted::Unread(e) => tell_unread(rt, replies, e),
        Unlisted::Unwritten(e) => {
            let what =
                b"the table was saved and the replies are in this file; they can't be listed: ";
            say::of_file(rt, Lentilpot, replies, b"", what);
            say::fail(rt, b"standard output", e);
            Told
        }
    }
}

// ---- the explanations

fn is_explained(
    rt: &HostRuntime,
    explanations: Option<Growing>,
    replies: &[u8],
) -> Result<(), Told> {
    let Some(mut explanations) = explanations else {
        return Ok(());
    };
    cli_beside::is_copied(rt, explanations.file_mut()).map_err(|e| {
        let what =
            b"the table was saved and the replies are in this file; the explanations can't be listed";
        say::trouble(rt, Lentilpot, what, replies, &e);
        Told
    })
}

// ---- the listing

// A file without any message: what was done is said, since nothing is listed.
fn tell_none(rt: &HostRuntime, file: &[u8], today: calendar::Date) {
    let what = b"no message stood in it, so there is no reply; the table's day is now ";
    cli_beside::tell(rt, Lentilpot, file, what);
    let day = today.yymmdd;
    let _ = eprintln!(rt; "{day:06}");
}

// Lists the replies; the status says whether some are refusals, or something could not be listed.
pub fn list(
    rt: &HostRuntime,
    listed: io::Result<File>,
    explanations: Option<Growing>,
    replies: &[u8],
    file: &[u8],
    today: calendar::Date,
) -> Result<Status, Told> {
    let mut listed = listed.map_err(|e| tell_unread(rt, replies, &e))?;
    let l = list_replies(rt, &mut listed, explanations.is_none()).map_err(|why| tell(
        rt, replies, &why,
    ))?;
    is_explained(rt, explanations, replies)?;
    if l.replies == 0 {
        tell_none(rt, file, today);
    }
    if l.refused == 0 {
        return Ok(Status::Served);
    }
    Ok(Status::Refused)
}
