// The file that a program keeps, the bank's table or the customer's desk, called the table here: read whole, and replaced whole by a file that was written beside it and flushed. That file, TABLE.new, is there from
// before anything else is written until it takes the table's name: whoever finds it knows that the table was not changed.
#![tactic(auto)]

use cli_files::Seen;
use cli_terminal::program::Program;
use cli_terminal::say;
use cli_terminal::status::Told;
use std::fs::{File, Permissions};
use std::io;
use std::io::ErrorKind;
use std::os::unix::fs::{PermissionsExt, fchown};

// How saving a table ended.
#[derive(Clone, Copy, Debug, PartialEq, Eq)]
pub enum Saved {
    Not,
    Unflushed,
    Whole,
}

pub fn wrong_size(rt: &HostRuntime, p: Program, table: &[u8]) {
    cli_beside::tell(
        rt,
        p,
        table,
        b"not the size of a $k: expected a file of $n bytes, made by '$m'\n",
    );
}

// Whether a file may be a table: saving gives the table's name to a new file, so a link, or another name, would go on with the old stamps.
fn is_alone(rt: &HostRuntime, p: Program, table: &[u8], seen: &Seen) -> Result<(), Told> {
    let what: &[u8] = if cli_files::is_link(seen.mode) {
        b"a link, which saving would part from its file, and $a: expected the $k itself\n"
    } else if !cli_files::is_regular(seen.mode) {
        b"not a regular file: expected a $k, made by '$m'\n"
    } else if seen.names != 1 {
        b"a file with more than one name, which saving would part, so that $A: expected a $k with one name\n"
    } else {
        return Ok(());
    };
    cli_beside::tell(rt, p, table, what);
    Err(Told)
}

// Opens a table, or says what is the matter where it is none.
fn open_table(rt: &HostRuntime, p: Program, table: &[u8]) -> Result<File, Told> {
    let what = b"can't open the $k, expected a file of $n bytes, made by '$m'";
    let seen = cli_files::of_name(rt, table).map_err(|e| {
        say::trouble(rt, p, what, table, &e);
        Told
    })?;
    is_alone(rt, p, table, &seen)?;
    let file = cli_beside::open_told(rt, p, what, table)?;
    if !is_seen(&file, &seen) {
        cli_beside::tell(
            rt,
            p,
            table,
            b"another file took the $k's name just now: try again\n",
        );
        return Err(Told);
    }
    Ok(file)
}

// Whether an open file is the one that was seen.
fn is_seen(file: &File, seen: &Seen) -> bool {
    cli_files::are_same(cli_files::of_open(file).ok(), Some(*seen))
}

// Reads the table, which has to fill its room.
pub fn load(rt: &HostRuntime, p: Program, table: &[u8], t: &mut [u8]) -> Result<(), Told> {
    let mut file = open_table(rt, p, table)?;
    let n = cli_files::read_full(&mut file, t);
    is_whole(rt, p, table, &mut file, n, t.len())
}

// Whether a table ends after the n bytes that were read, and is of that size.
fn is_whole(
    rt: &HostRuntime,
    p: Program,
    table: &[u8],
    file: &mut File,
    n: usize,
    size: usize,
) -> Result<(), Told> {
    let more = cli_beside::read_over(
        rt,
        p,
        file,
        b"can't read the $k, expected a file of $n bytes, made by '$m'",
        table,
    )?;
    if !more && n == size {
        return Ok(());
    }
    wrong_size(rt, p, table);
    Err(Told)
}

// Whether a table may be set up there: nothing has the name. A table that is there would lose its used stamps, and an empty file
// may be a run's.
pub fn is_free(rt: &HostRuntime, p: Program, table: &[u8]) -> Result<(), Told> {
    if let Err(e) = cli_files::of_name(rt, table) {
        return cli_beside::is_missing(rt, p, b"can't set up a $k there", table, &e);
    }
    cli_beside::tell(
        rt,
        p,
        table,
        b"there is a file already: expected the name of a new $k (an old one would lose its $u)\n",
    );
    Err(Told)
}

// Makes TABLE.new. It is to hold keys, so it is its owner's alone from its first moment; later the table's owner's, and open to those that
// the table is.
pub fn begin(rt: &HostRuntime, p: Program, table: &[u8]) -> Result<File, Told> {
    let file = cli_beside::make_private(rt, table, b".new").map_err(|e| {
        tell_unmade(rt, p, table, &e);
        Told
    })?;
    match is_kept(rt, p, table, &file) {
        Ok(()) => Ok(file),
        Err(told) => {
            give_up(rt, table, file);
            Err(told)
        }
    }
}

// A file of that name without a lock: an empty one is of a run that was cut off, another may be anybody's.
fn tell_unmade(rt: &HostRuntime, p: Program, table: &[u8], e: &io::Error) {
    if e.kind() != ErrorKind::AlreadyExists {
        cli_beside::trouble_new(rt, p, b"can't make the new $k", table, e);
        return;
    }
    if !cli_beside::is_empty(rt, table, b".new") {
        say::of_file(
            rt,
            p,
            table,
            b".new",
            b"there is a file already, which no run says is its own; nothing was changed: move it away if it is no other run's or $k\n",
        );
        return;
    }
    say::of_file(
        rt,
        p,
        table,
        b".new",
        b"left by a run that did not change the $k, and whose lock was removed; if no $p runs on it: To mend: rm",
    );
    say::quoted(rt, table, b".new");
    say::end_line(rt);
}

// Whether TABLE.new's name has reached the disk; it has the table's owner and mode, where the system lets us.
fn is_kept(rt: &HostRuntime, p: Program, table: &[u8], file: &File) -> Result<(), Told> {
    if let Ok(seen) = cli_files::of_name(rt, table) {
        keep_as(file, &seen);
    }
    cli_beside::flush_folder(rt, table).map_err(|e| {
        say::trouble(rt, p, b"can't flush the folder of the $k", table, &e);
        Told
    })
}

// With another owner the mode would let in others than it did.
fn keep_as(file: &File, seen: &Seen) {
    if fchown(file, Some(seen.owner), Some(seen.group)).is_ok() {
        let _ = file.set_permissions(Permissions::from_mode(seen.mode % 0o1000));
    }
}

// Leaves the table as it was.
pub fn give_up(rt: &HostRuntime, table: &[u8], file: File) {
    if cli_beside::is_ours(rt, table, b".new", &file) {
        cli_beside::remove_new(rt, table);
    }
}

fn write_whole(rt: &HostRuntime, file: &mut File, t: &[u8]) -> io::Result<()> {
    size_limit::put(size_limit::of_process(rt), 0, file, t)?;
    file.sync_all()
}

// Writes TABLE.new and flushes it.
fn is_written(
    rt: &HostRuntime,
    p: Program,
    table: &[u8],
    file: &mut File,
    t: &[u8],
) -> Result<(), Told> {
    write_whole(rt, file, t).map_err(|e| {
        cli_beside::trouble_new(
            rt,
            p,
            b"nothing was changed: can't write the new $k",
            table,
            &e,
        );
        Told
    })
}

// Writes TABLE.new, gives it the table's name, which the file seen before must still have, and flushes the folder. Where the table was not
// saved, TABLE.new is the caller's to give up, after all else that it has to undo.
pub fn save(
    rt: &HostRuntime,
    p: Program,
    table: &[u8],
    file: &mut File,
    t: &[u8],
    seen: Option<Seen>,
) -> Saved {
    if is_written(rt, p, table, file, t).is_err() {
        return Saved::Not;
    }
    if !cli_beside::is_ours(rt, table, b".new", file) || !is_still(rt, table, seen) {
        cli_beside::tell(
            rt,
            p,
            table,
            b"nothing was changed: another file took the $k's name, or that of the new one, while the run was under way\n",
        );
        return Saved::Not;
    }
    if let Err(e) = cli_beside::take_name(rt, table, b".new") {
        say::trouble(
            rt,
            p,
            b"nothing was changed: can't replace the $k",
            table,
            &e,
        );
        return Saved::Not;
    }
    if let Err(e) = cli_beside::flush_folder(rt, table) {
        say::trouble(
            rt,
            p,
            b"the $k was changed, and a power failure may still undo it: can't flush its folder",
            table,
            &e,
        );
        return Saved::Unflushed;
    }
    Saved::Whole
}

// Whether a table is still what was seen of its name: that file, or nothing.
fn is_still(rt: &HostRuntime, table: &[u8], seen: Option<Seen>) -> bool {
    match (seen, cli_files::of_name(rt, table)) {
        (Some(seen), Ok(now)) => cli_files::is_same(&now, &seen),
        (seen, now) => seen.is_none() && now.is_err(),
    }
}
