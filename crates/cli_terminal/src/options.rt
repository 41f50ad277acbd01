// Options stand anywhere among the words and begin with two dashes; a word `--` ends them, so that a name may begin so too. The words are
// counted without them: word 0 is the program, word 1 the command.
use crate::program::Program;
use crate::say;
use crate::status::Told;
use std::env::{Env, FillError};
use std::io;

// The words of the command line, and how many of them stand before the word `--`; the options; and how many all of them are.
#[derive(Drop)]
pub struct Words {
    counted: Vec<Vec<u8>>,
    before_end: usize,
    options: Vec<Vec<u8>>,
    all: usize,
}

fn is_option(word: &[u8]) -> bool {
    word.starts_with(b"--")
}

impl Words {
    // Reads the words, each of at most 4,096 bytes; a longer one, or one more than there are, ends them. The program's own name, word 0, is
    // asked for by nobody, and an empty one stands for a longer one.
    pub fn read(rt: &HostRuntime) -> io::Result<Words> {
        let mut words = Words {
            counted: Vec::new(rt.alloc()),
            before_end: 0,
            options: Vec::new(rt.alloc()),
            all: 0,
        };
        let mut is_ended = false;
        let mut room = [0u8; 4096];
        for i in 0..usize::MAX {
            let n = match rt.arg(i, &mut room) {
                Ok(n) => n,
                Err(FillError::TooLong) if i == 0 => 0,
                Err(_) => break,
            };
            let word = &room[..n];
            words.all = i + 1;
            if i == 0 || is_ended || !is_option(word) {
                words.counted.push(Vec::from_slice(rt.alloc(), word)?)?;
            } else if word.len() == 2 {
                is_ended = true;
            } else {
                words.options.push(Vec::from_slice(rt.alloc(), word)?)?;
            }
            if !is_ended {
                words.before_end = words.counted.len();
            }
        }
        Ok(words)
    }

    // How many words there are, without the options.
    pub fn count(&self) -> usize {
        self.counted.len()
    }

    // How many there are with the options and the word that ends them.
    pub fn count_all(&self) -> usize {
        self.all
    }

    // Word i; past the last one an empty word.
    pub fn word(&self, i: usize) -> &[u8] {
        match self.counted.get(i) {
            Some(word) => word,
            None => b"",
        }
    }

    // Whether there are as many words as a command takes; the two that come before them are the program and the command. Where not, the
    // line is begun, and what was expected ends it.
    pub fn are_as_many(
        &self,
        rt: &HostRuntime,
        p: Program,
        low: usize,
        high: usize,
    ) -> Result<(), Told> {
        let what: &[u8] = if self.count() < low {
            b"too few words: expected "
        } else if high < self.count() {
            b"too many words: expected "
        } else {
            return Ok(());
        };
        say::begin_line(rt, p);
        say::err(rt, what);
        Err(Told)
    }

    // Whether an option is given; it may also be one that begins with one dash.
    pub fn is_given(&self, option: &[u8]) -> bool {
        let mut others = self.counted.iter().take(self.before_end).skip(1);
        others.any(|given| given.as_slice() == option)
            || self.options.iter().any(|given| given.as_slice() == option)
    }

    // Whether every option is one that the command takes; a blank stands after each that it does.
    pub fn are_taken(&self, rt: &HostRuntime, p: Program, taken: &[u8]) -> Result<(), Told> {
        for option in &self.options {
            if !is_listed(option, taken) {
                tell_other(rt, p, option);
                return Err(Told);
            }
        }
        Ok(())
    }
}

// Whether a word is one of a list, in which a blank stands after each.
fn is_listed(word: &[u8], list: &[u8]) -> bool {
    list.split(|&b| b == b' ').any(|listed| listed == word)
}

fn tell_other(rt: &HostRuntime, p: Program, option: &[u8]) {
    say::begin_line(rt, p);
    say::err(rt, b"this command has no option");
    say::quoted(rt, option, b"");
    say::err(
        rt,
        b": expected one that '--help' lists, or '--' before a name that begins so\n",
    );
}

// Whether every word fits where it is put.
pub fn are_whole(rt: &HostRuntime) -> bool {
    let mut room = [0u8; 4096];
    for i in 1..usize::MAX {
        match rt.arg(i, &mut room) {
            Ok(_) => {}
            Err(FillError::TooLong) => return false,
            Err(FillError::NotPresent) => return true,
        }
    }
    true
}
