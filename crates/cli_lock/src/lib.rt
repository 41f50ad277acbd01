// One run on a table (or a desk, and messages for replies: `cli_terminal` says which) at a time: TABLE.lock is made only if it is missing and says which run has the table, and for `receive` the
// name of the replies once TABLE.new is there. A lock that a dead process left is never taken over, since two runs could both do
// so: its mend is told.
#![tactic(auto)]

pub mod underway;

use cli_run::Run;
use cli_terminal::program::Program;
use cli_terminal::say;
use cli_terminal::status::Told;
use size_limit::Growing;
use std::fs::{File, OpenOptions};
use std::io;
use std::io::{ErrorKind, Write};

// Takes the table; where it can't be had, who has it is told.
pub fn take(rt: &HostRuntime, p: Program, table: &[u8]) -> Result<Run, Told> {
    let r = cli_run::begun(rt, p)?;
    let file = cli_beside::make(rt, table, b".lock").map_err(|e| {
        tell_unmade(rt, p, table, &e);
        Told
    })?;
    sign(rt, p, table, file, &r)?;
    Ok(r)
}

// Says in the lock whose it is.
fn sign(rt: &HostRuntime, p: Program, table: &[u8], file: File, r: &Run) -> Result<(), Told> {
    let mut lock = Growing::new(rt, file);
    put(&mut lock, &[cli_run::line(r).as_slice()]).map_err(|e| {
        say::trouble_beside(rt, p, b"can't write the lock", table, b".lock", &e);
        let _ = cli_beside::remove(rt, table, b".lock");
        Told
    })
}

// Writes the parts one after another, and flushes them.
fn put(to: &mut Growing, parts: &[&[u8]]) -> io::Result<()> {
    for part in parts {
        to.write_all(part)?;
    }
    to.file().sync_all()
}

fn tell_unmade(rt: &HostRuntime, p: Program, table: &[u8], e: &io::Error) {
    if e.kind() == ErrorKind::AlreadyExists {
        tell(rt, p, table);
        return;
    }
    say::trouble_beside(
        rt,
        p,
        b"can't lock the $k, expected a folder that can be written",
        table,
        b".lock",
        e,
    );
}

// Removes the lock, if it is still this run's.
pub fn release(rt: &HostRuntime, p: Program, table: &[u8], r: &Run) {
    if !is_of(rt, table, r) {
        return;
    }
    if let Err(e) = cli_beside::remove(rt, table, b".lock") {
        say::trouble_beside(rt, p, b"can't remove the lock", table, b".lock", &e);
    }
}

// Whether the table is still this run's; told where it isn't.
pub fn is_held(rt: &HostRuntime, p: Program, table: &[u8], r: &Run) -> Result<(), Told> {
    if is_of(rt, table, r) {
        return Ok(());
    }
    cli_beside::tell(
        rt,
        p,
        table,
        b"nothing was changed: the lock was removed, or its folder moved, while the run was under way\n",
    );
    Err(Told)
}

// Names the replies in the lock: from here on a missing TABLE.new says that the table was saved.
pub fn name_replies(rt: &HostRuntime, table: &[u8], replies: &[u8]) -> io::Result<()> {
    let path = cli_beside::beside(rt, table, b".lock")?;
    let file = OpenOptions::new()
        .append(true)
        .open(rt, cli_files::as_path(&path)?)?;
    let mut lock = Growing::at_end(rt, file)?;
    put(&mut lock, &[replies, b"\n".as_slice()])
}

// Cuts the replies' name off again, in one step, which has to reach the disk before TABLE.new goes.
pub fn is_unnamed(rt: &HostRuntime, table: &[u8]) -> io::Result<()> {
    let path = cli_beside::beside(rt, table, b".lock")?;
    let file = OpenOptions::new()
        .read(true)
        .write(true)
        .open(rt, cli_files::as_path(&path)?)?;
    file.set_len(28)?;
    file.sync_all()
}

// ---- a lock that is there

fn tell(rt: &HostRuntime, p: Program, table: &[u8]) {
    let mut lock = [0u8; 65536];
    let n = cli_beside::read_beside(rt, table, b".lock", &mut lock);
    let Some(r) = cli_run::read(&lock[..n]) else {
        tell_unsigned(rt, p, table);
        return;
    };
    if cli_run::is_living(rt, &r) {
        tell_living(rt, p, table, &r);
        return;
    }
    say::of_file(rt, p, table, b".lock", b"left by ");
    cli_run::tell(rt, &r);
    say::err(rt, b", which runs no more and ");
    let name = cli_run::name(&lock[..n]);
    if cli_asked::has_control(name) {
        say::told(
            rt,
            p,
            b"names its $w with control characters: nothing can be told of it\n",
        );
        return;
    }
    // files that can't be asked for here
    if str::from_utf8(name).is_err() {
        say::told(
            rt,
            p,
            b"names its $w by a name that isn't UTF-8: nothing can be told of it\n",
        );
        return;
    }
    tell_mend(rt, p, table, name, &r);
}

// Whether the lock of a table is of that run.
pub fn is_of(rt: &HostRuntime, table: &[u8], r: &Run) -> bool {
    is_signed(rt, table, b".lock", r)
}

// Whether the file beside a name says that it is of that run.
fn is_signed(rt: &HostRuntime, name: &[u8], ending: &[u8], r: &Run) -> bool {
    let mut file = [0u8; 65536];
    let n = cli_beside::read_beside(rt, name, ending, &mut file);
    cli_run::read(&file[..n]) == Some(*r)
}

// The lock's own name ends what is to be typed.
fn end_at_lock(rt: &HostRuntime, table: &[u8]) {
    say::quoted(rt, table, b".lock");
    say::end_line(rt);
}

// A lock that no run of this program has signed.
fn tell_unsigned(rt: &HostRuntime, p: Program, table: &[u8]) {
    if let Err(e) = cli_beside::is_readable(rt, table, b".lock") {
        say::trouble_beside(
            rt,
            p,
            b"the $k is in use, and nothing was changed: can't read the lock",
            table,
            b".lock",
            &e,
        );
        return;
    }
    if !cli_beside::is_empty(rt, table, b".lock") {
        say::of_file(
            rt,
            p,
            table,
            b".lock",
            b"the $k is in use, by a lock that this program did not write, and nothing was changed; whoever wrote it knows its mend\n",
        );
        return;
    }
    cli_beside::tell(
        rt,
        p,
        table,
        b"in use by a run that has just begun, and nothing was changed; if no $p runs on it, that run did nothing. To mend: rm",
    );
    end_at_lock(rt, table);
}

fn tell_living(rt: &HostRuntime, p: Program, table: &[u8], r: &Run) {
    cli_beside::tell(rt, p, table, b"the $k is in use by ");
    cli_run::tell(rt, r);
    say::err(
        rt,
        b", and nothing was changed; try again when it has ended\n",
    );
}

// What is the case with the table after a run that was cut off, and what to type.
pub fn tell_mend(rt: &HostRuntime, p: Program, table: &[u8], replies: &[u8], r: &Run) {
    if cli_beside::is_there(rt, table, b".new") {
        // TABLE.new goes last: without it the lock would say that the table was saved
        tell_unchanged(rt, p, table, replies, r);
        return;
    }
    if replies.is_empty() {
        say::told(rt, p, b"may have changed the $k: 'show' tells. To mend: rm");
    } else {
        tell_saved(rt, p, replies, r);
    }
    end_at_lock(rt, table);
}

fn tell_unchanged(rt: &HostRuntime, p: Program, table: &[u8], replies: &[u8], r: &Run) {
    say::told(rt, p, b"did not change the $k. To mend: ");
    if underway::is_of(rt, replies, r) {
        say::err(rt, b"rm -f");
        say::quoted(rt, replies, b".new");
        say::quoted(rt, replies, b".run");
        say::err(rt, b" && ");
    }
    say::err(rt, b"rm");
    say::quoted(rt, table, b".lock");
    say::err(rt, b" && rm");
    say::quoted(rt, table, b".new");
    say::end_line(rt);
}

fn tell_saved(rt: &HostRuntime, p: Program, replies: &[u8], r: &Run) {
    let is_under_way = underway::is_of(rt, replies, r);
    if is_under_way && cli_beside::is_there(rt, replies, b".new") {
        say::told(rt, p, b"saved the $k; its $w stand");
        underway::tell_move(rt, replies, r);
        return;
    }
    if !is_under_way && !cli_beside::is_there(rt, replies, b"") {
        say::told(rt, p, b"saved the $k; its $w are no longer in");
        say::quoted(rt, replies, b"");
        say::err(
            rt,
            b", nor said to be under way: look for them. To mend: rm",
        );
        return;
    }
    say::told(rt, p, b"saved the $k; its $w are in");
    say::quoted(rt, replies, b"");
    say::err(rt, b". To mend: rm");
    if is_under_way {
        say::quoted(rt, replies, b".run");
    }
}
