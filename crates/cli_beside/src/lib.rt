// Files beside a name: NAME with an ending is another file in the same folder. What is asked of them, and what is told.
#![tactic(auto)]

ghost use Rattle.std.specs.Prelude.{◌≡◌, ◌++◌, ◌≤◌, length, IfOk};

use cli_terminal::program::Program;
use cli_terminal::say;
use cli_terminal::status::Told;
use std::alloc::AllocError;
use std::fs::{File, OpenOptions};
use std::io::{ErrorKind, Read, Seek, SeekFrom};
use std::os::fd::AsRawFd;
use std::os::unix::fs::OpenOptionsExt;
use std::random::RandomSource;
use std::{fs, io};

// A name with an ending.
pub fn beside(rt: &HostRuntime, name: &[u8], ending: &[u8]) -> Result<Vec<u8>, AllocError>
    ensures { IfOk result (λ path. path.items ≡ name.now ++ ending.now) }
{
    let mut path = Vec::new(rt.alloc());
    path.extend_from_slice(name)?;
    path.extend_from_slice(ending)?;
    Ok(path)
}

// Makes the file beside a name, only if it is missing.
pub fn make(rt: &HostRuntime, name: &[u8], ending: &[u8]) -> io::Result<File> {
    OpenOptions::new()
        .write(true)
        .create_new(true)
        .open(rt, cli_files::as_path(&beside(rt, name, ending)?)?)
}

// The same, for its owner alone from its first moment.
pub fn make_private(rt: &HostRuntime, name: &[u8], ending: &[u8]) -> io::Result<File> {
    OpenOptions::new()
        .read(true)
        .write(true)
        .create_new(true)
        .mode(0o600)
        .open(rt, cli_files::as_path(&beside(rt, name, ending)?)?)
}

pub fn open_beside(rt: &HostRuntime, name: &[u8], ending: &[u8]) -> io::Result<File> {
    cli_files::open(rt, &beside(rt, name, ending)?)
}

pub fn remove(rt: &HostRuntime, name: &[u8], ending: &[u8]) -> io::Result<()> {
    fs::remove_file(rt, cli_files::as_path(&beside(rt, name, ending)?)?)
}

pub fn remove_new(rt: &HostRuntime, name: &[u8]) {
    let _ = remove(rt, name, b".new");
}

// What a file beside a name is.
fn seen_beside(rt: &HostRuntime, name: &[u8], ending: &[u8]) -> io::Result<cli_files::Seen> {
    let path = beside(rt, name, ending)?;
    cli_files::of_name(rt, &path)
}

// Whether anything has that name, a link that leads nowhere too.
pub fn is_there(rt: &HostRuntime, name: &[u8], ending: &[u8]) -> bool {
    seen_beside(rt, name, ending).is_ok()
}

// A file beside a name, open to read; none where it is no regular file, of which the opening might wait.
fn open_regular(rt: &HostRuntime, name: &[u8], ending: &[u8]) -> io::Result<Option<File>> {
    match seen_beside(rt, name, ending) {
        Ok(seen) if cli_files::is_regular(seen.mode) => Ok(Some(open_beside(rt, name, ending)?)),
        _ => Ok(None),
    }
}

// What a file beside a name holds, as much as the room takes; nothing where it can't be read.
pub fn read_beside(rt: &HostRuntime, name: &[u8], ending: &[u8], room: &mut [u8]) -> usize
    ensures { result ≤ length room.new }
{
    match open_regular(rt, name, ending) {
        Ok(Some(mut file)) => cli_files::read_full(&mut file, room),
        _ => 0,
    }
}

// Whether a file beside a name can be opened to read, or why not; what is no regular file is not opened.
pub fn is_readable(rt: &HostRuntime, name: &[u8], ending: &[u8]) -> io::Result<()> {
    open_regular(rt, name, ending)?;
    Ok(())
}

// Whether a file beside a name is a regular one that holds nothing.
pub fn is_empty(rt: &HostRuntime, name: &[u8], ending: &[u8]) -> bool {
    match open_regular(rt, name, ending) {
        Ok(Some(mut file)) => matches!(file.read(&mut [0u8; 1]), Ok(0)),
        _ => false,
    }
}

// The file beside a name takes that name.
pub fn take_name(rt: &HostRuntime, name: &[u8], ending: &[u8]) -> io::Result<()> {
    let from = beside(rt, name, ending)?;
    fs::rename(rt, cli_files::as_path(&from)?, cli_files::as_path(name)?)
}

// The folder that a name stands in.
fn folder_of(name: &[u8]) -> &[u8] {
    match name.iter().rposition(|&b| b == b'/') {
        Some(0) => b"/",
        Some(at) => &name[..at],
        None => b".",
    }
}

// What was made or renamed in the folder of a name reaches the disk.
pub fn flush_folder(rt: &HostRuntime, name: &[u8]) -> io::Result<()> {
    cli_files::open(rt, folder_of(name))?.sync_all()
}

// Tells something of the file of that very name.
pub fn tell(rt: &HostRuntime, p: Program, path: &[u8], what: &[u8]) {
    say::of_file(rt, p, path, b"", what);
}

// Tells what can't be done with NAME.new, and why.
pub fn trouble_new(rt: &HostRuntime, p: Program, what: &[u8], name: &[u8], e: &io::Error) {
    say::trouble_beside(rt, p, what, name, b".new", e);
}

// Opens a file to read it, or says what is the matter.
pub fn open_told(rt: &HostRuntime, p: Program, what: &[u8], path: &[u8]) -> Result<File, Told> {
    cli_files::open(rt, path).map_err(|e| {
        say::trouble(rt, p, what, path, &e);
        Told
    })
}

// Whether there is more of a file that should end here, or what is the matter.
pub fn read_over(
    rt: &HostRuntime,
    p: Program,
    file: &mut File,
    what: &[u8],
    path: &[u8],
) -> Result<bool, Told> {
    let more = file.read(&mut [0u8; 1]).map_err(|e| {
        say::trouble(rt, p, what, path, &e);
        Told
    })?;
    Ok(0 < more)
}

// Whether nothing was seen of a name because there is nothing.
pub fn is_missing(
    rt: &HostRuntime,
    p: Program,
    what: &[u8],
    name: &[u8],
    e: &io::Error,
) -> Result<(), Told> {
    if e.kind() == ErrorKind::NotFound {
        return Ok(());
    }
    say::trouble(rt, p, what, name, e);
    Err(Told)
}

// Whether the file beside a name is the open one.
pub fn is_ours(rt: &HostRuntime, name: &[u8], ending: &[u8], file: &File) -> bool {
    cli_files::are_same(
        cli_files::of_open(file).ok(),
        seen_beside(rt, name, ending).ok(),
    )
}

// The name of an open file, as the system tells it.
fn name_of(rt: &HostRuntime, file: &File) -> io::Result<String> {
    let number = file.as_raw_fd();
    let link = format!(in rt.alloc(); "/proc/self/fd/{number}")?;
    cli_files::link_text(rt, link.as_bytes())
}

// The name beside which the open file NAME.new is by now: another one where its folder was moved.
pub fn named_now(rt: &HostRuntime, file: &File, name: &[u8]) -> Result<Vec<u8>, AllocError> {
    if let Ok(whole) = name_of(rt, file) {
        if let Some(stem) = whole.as_bytes().strip_suffix(b".new") {
            if 0 < stem.len() && stem.len() <= 4000 {
                return beside(rt, stem, b"");
            }
        }
    }
    beside(rt, name, b"")
}

// ---- a file without a name, for what is said later

// Makes one, where NAME's own folder is, or says what is the matter.
pub fn nameless(rt: &HostRuntime, p: Program, what: &[u8], name: &[u8]) -> Result<File, Told> {
    unnamed(rt, name).map_err(|e| {
        say::trouble(rt, p, what, name, &e);
        Told
    })
}

// Six random letters after a point, for a name that nothing has.
fn random_ending(rt: &HostRuntime) -> io::Result<String> {
    let mut letters = [0u8; 6];
    rt.fill_bytes(&mut letters)?;
    let mut ending = String::from_str(rt.alloc(), ".")?;
    for b in letters {
        ending.push(char::from(b'A' + b % 26))?;
    }
    Ok(ending)
}

// Makes a file under a name that nothing has, and takes the name away.
fn unnamed(rt: &HostRuntime, name: &[u8]) -> io::Result<File> {
    for _ in 0..100 {
        let ending = random_ending(rt)?;
        match make_private(rt, name, ending.as_bytes()) {
            Ok(file) => {
                let _ = remove(rt, name, ending.as_bytes());
                return Ok(file);
            }
            Err(e) if e.kind() == ErrorKind::AlreadyExists => {}
            Err(e) => return Err(e),
        }
    }
    Err(io::Error::from(ErrorKind::AlreadyExists))
}

// Puts all that was written to a file on standard output too.
pub fn is_copied(rt: &HostRuntime, file: &mut File) -> io::Result<()> {
    let mut part = [0u8; 65536];
    file.seek(SeekFrom::Start(0))?;
    for _ in 0..u64::MAX {
        let n = file.read(&mut part)?;
        if n == 0 {
            return Ok(());
        }
        say::out(rt, &part[..n])?;
    }
    Err(io::Error::from(ErrorKind::FileTooLarge))
}
