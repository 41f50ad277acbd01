// The limit on a file's size. A write past it ends the process by SIGXFSZ, which nothing of std ignores, so a program that has to undo what
// it began asks first.
#![tactic(auto)]

ghost use Rattle.std.specs.Prelude.{◌≡◌, ◌+◌, ◌<◌, ◌≤◌, ◌↔◌, ◌^◌, length, IsNone, IfSome, IsOk, IfOk, IfErr, OnOk, Some, pos};
ghost use Rattle.std.specs.IoError.{raw_os_error};
ghost use Rattle.std.specs.Io.KnownBytes.{Appends};

use std::fs::File;
use std::io::Write;
use std::{fs, io};

// EFBIG, so that the error has the system's own words.
const FILE_TOO_LARGE: i32 = 27;

// The soft limit in bytes, `None` for no limit, of the text of /proc/self/limits.
pub fn of_text(text: &str) -> Option<u64> {
    let rest = text
        .lines()
        .find_map(|line| line.strip_prefix("Max file size"))?;
    rest.split_whitespace().next()?.parse::<u64>().ok()
}

// The limit of this process. Where the system doesn't tell it there is none.
pub fn of_process(rt: &HostRuntime) -> Option<u64> {
    match fs::read_to_string(rt, "/proc/self/limits") {
        Ok(text) => of_text(text.as_str()),
        Err(_) => None,
    }
}

// Whether so many bytes fit after so many others; else the error that writing them would give.
pub fn allows(limit: Option<u64>, written: u64, more: u64) -> io::Result<()>
    ensures unlimited { IsNone limit → IsOk result }
    ensures limited { IfSome limit (λ most. written ≤ most → (IsOk result ↔ written + more ≤ most)) }
    ensures error { IfErr result (λ e. raw_os_error e ≡ Some (pos 27)) }
{
    match limit {
        Some(most) if more > most.saturating_sub(written) => {
            Err(io::Error::from_raw_os_error(FILE_TOO_LARGE))
        }
        _ => Ok(()),
    }
}

// Writes all the bytes, of which the first lands at `at`, or none of them where the limit forbids it; answers where the next one lands.
pub fn put<W: Write>(limit: Option<u64>, at: u64, to: &mut W, bytes: &[u8]) -> io::Result<u64>
    ensures next { IfOk result (λ n. at + length bytes.now < 2 ^ 64 → n ≡ at + length bytes.now) }
    ensures written { OnOk result (Appends (W.contents to.old) (W.contents to.new) bytes.now) }
{
    let more = bytes.len() as u64;
    allows(limit, at, more)?;
    to.write_all(bytes)?;
    Ok(at.saturating_add(more))
}

// A file that is written from a place on, within the limit of the process.
#[derive(Drop)]
pub struct Growing {
    file: File,
    at: u64,
    limit: Option<u64>,
}

impl Growing {
    // A file that holds nothing yet.
    pub fn new(rt: &HostRuntime, file: File) -> Growing {
        Growing {
            file,
            at: 0,
            limit: of_process(rt),
        }
    }

    // A file that is open to append.
    pub fn at_end(rt: &HostRuntime, file: File) -> io::Result<Growing> {
        let at = file.metadata()?.len();
        let limit = of_process(rt);
        Ok(Growing { file, at, limit })
    }

    pub fn file(&self) -> &File {
        &self.file
    }

    pub fn file_mut(&mut self) -> &mut File {
        &mut self.file
    }
}

// Writes whole pieces, or nothing where the limit forbids it.
impl Write for Growing {
    fn write(&mut self, bytes: &[u8]) -> io::Result<usize> {
        allows(self.limit, self.at, bytes.len() as u64)?;
        let n = self.file.write(bytes)?;
        self.at = self.at.saturating_add(n as u64);
        Ok(n)
    }

    fn flush(&mut self) -> io::Result<()> {
        self.file.flush()
    }
}

#[cfg(test)]
mod tests;
