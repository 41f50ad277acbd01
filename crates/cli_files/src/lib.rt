// What a file is, so that a program tells files apart by device and inode and not by their names.
#![tactic(auto)]

ghost use Rattle.std.specs.Prelude.{◌≡◌, ◌≢◌, ◌↔◌, ◌≤◌, IsTrue, IsOk, IfOk, IsSomeAnd, IsUtf8, All, length, bit_and};
ghost use Rattle.std.specs.Fs.{metadata_mode};

use std::fs::{File, Metadata};
use std::io::Read;
use std::os::fd::AsRawFd;
use std::os::unix::fs::MetadataExt;
use std::{fs, io};

const LONGEST: usize = 4095;

const KIND: u32 = 0o170000;

const REGULAR: u32 = 0o100000;

const LINK: u32 = 0o120000;

// What a name or an open file is. `mode` has the bits of the file's kind too.
#[derive(Clone, Copy, Debug, PartialEq, Eq)]
pub struct Seen {
    pub device: u64,
    pub inode: u64,
    pub names: u64,
    pub mode: u32,
    pub owner: u32,
    pub group: u32,
}

// A name as the system is handed it here: std takes names in UTF-8 alone.
pub fn as_path(name: &[u8]) -> io::Result<&str>
    ensures taken { IsOk result ↔ (length name.now ≤ 4095 × All (λ b. b ≢ 0) name.now × IsUtf8 name.now) }
    ensures same { IfOk result (λ path. path.now ≡ name.now) }
{
    if !is_path(name) {
        return Err(io::Error::from(io::ErrorKind::InvalidFilename));
    }
    match str::from_utf8(name) {
        Ok(path) => Ok(path),
        Err(_) => Err(io::Error::from(io::ErrorKind::InvalidFilename)),
    }
}

// Opens the file of that name to read it.
pub fn open(rt: &HostRuntime, name: &[u8]) -> io::Result<File> {
    File::open(rt, as_path(name)?)
}

// What the name is: of a link, the link itself.
pub fn of_name(rt: &HostRuntime, path: &[u8]) -> io::Result<Seen> {
    Ok(told(&fs::symlink_metadata(rt, as_path(path)?)?))
}

// What the open file is.
pub fn of_open(file: &File) -> io::Result<Seen> {
    Ok(told(&file.metadata()?))
}

// The same of standard input, which can't be asked itself.
pub fn of_descriptor<F: AsRawFd>(rt: &HostRuntime, file: &F) -> io::Result<Seen> {
    let number = file.as_raw_fd();
    let path = format!(in rt.alloc(); "/proc/self/fd/{number}")?;
    Ok(told(&fs::metadata(rt, path)?))
}

// What a link leads to, as the link says it.
pub fn link_text(rt: &HostRuntime, path: &[u8]) -> io::Result<String> {
    Ok(fs::read_link(rt, as_path(path)?)?.into_string())
}

// Whether the mode is a regular file's.
pub fn is_regular(mode: u32) -> bool
    ensures { IsTrue result ↔ (bit_and mode 0o170000 ≡ 0o100000) }
{
    mode & KIND == REGULAR
}

// Whether the mode is a symbolic link's.
pub fn is_link(mode: u32) -> bool
    ensures { IsTrue result ↔ (bit_and mode 0o170000 ≡ 0o120000) }
{
    mode & KIND == LINK
}

// What of the system's answer the caller is told.
fn told(m: &Metadata) -> Seen
    ensures { result.mode ≡ metadata_mode m.now }
{
    Seen {
        device: m.dev(),
        inode: m.ino(),
        names: m.nlink(),
        mode: m.mode(),
        owner: m.uid(),
        group: m.gid(),
    }
}

// Whether the system can be handed all of path: it reads a name up to its first 0.
fn is_path(path: &[u8]) -> bool
    ensures { IsTrue result ↔ (length path.now ≤ 4095 × All (λ b. b ≢ 0) path.now) }
{
    path.len() <= LONGEST && path.iter().all(|&b| b != 0)
}

// Whether two are the same file, whatever their names.
pub fn is_same(a: &Seen, b: &Seen) -> bool
    ensures { IsTrue result ↔ (a.now.device ≡ b.now.device × a.now.inode ≡ b.now.inode) }
{
    a.device == b.device && a.inode == b.inode
}

// Whether both were seen, and are the same file.
pub fn are_same(a: Option<Seen>, b: Option<Seen>) -> bool
    ensures { IsTrue result ↔ IsSomeAnd a (λ x. IsSomeAnd b (λ y. x.device ≡ y.device × x.inode ≡ y.inode)) }
{
    match (a, b) {
        (Some(a), Some(b)) => is_same(&a, &b),
        _ => false,
    }
}

// Reads bytes up to the room's end or the file's, and how many those were.
pub fn read_in<R: Read>(input: &mut R, room: &mut [u8]) -> io::Result<usize>
    ensures { IfOk result (λ n. n ≤ length room.new) }
{
    let (count, ended) = fill(input, room);
    ended?;
    Ok(count)
}

// Reads as much as the room takes, and how much that was; a read that fails ends it, as the file's end does.
pub fn read_full<R: Read>(input: &mut R, room: &mut [u8]) -> usize
    ensures { result ≤ length room.new }
{
    let (count, _) = fill(input, room);
    count
}

// How many bytes were read, and whether the room's end or the file's ended them, or a read that failed.
// kept: the count is what each read adds to; no method of std reads until the room is full and tells how much came before a failure.
fn fill<R: Read>(input: &mut R, room: &mut [u8]) -> (usize, io::Result<()>)
    ensures { result.0 ≤ length room.new }
{
    let mut count = 0;
    while count < room.len() {
        match input.read(&mut room[count..]) {
            Ok(0) => break,
            Ok(n) => count += n,
            Err(e) => return (count, Err(e)),
        }
    }
    (count, Ok(()))
}
