// The file of replies, or of messages: written beside its name, and given the name once the table is saved. It never takes a
// name that something has.
#![tactic(auto)]

use cli_files::Seen;
use cli_lock::underway;
use cli_run::Run;
use cli_table::Saved;
use cli_terminal::program::Program;
use cli_terminal::say;
use cli_terminal::status::Told;
use size_limit::Growing;
use std::fs::File;
use std::io;
use std::io::{ErrorKind, Write};

// Whether nothing has the replies' name. The lock and TABLE.new are there by now, so their names are taken too.
pub fn is_free(rt: &HostRuntime, p: Program, replies: &[u8]) -> Result<(), Told> {
    if let Err(e) = cli_files::of_name(rt, replies) {
        return cli_beside::is_missing(
            rt,
            p,
            b"nothing was changed: can't make the $w",
            replies,
            &e,
        );
    }
    cli_beside::tell(
        rt,
        p,
        replies,
        b"there is a file already, and $w never replace one; nothing was changed: expected the name of a new file for $W\n",
    );
    Err(Told)
}

// Takes the replies' name for this run and makes REPLIES.new, or says what is the matter.
pub fn begin(
    rt: &HostRuntime,
    p: Program,
    replies: &[u8],
    table: &[u8],
    r: &Run,
) -> Result<Growing, Told> {
    cli_lock::name_replies(rt, table, replies).map_err(|e| {
        let what = b"nothing was changed: can't write the lock";
        say::trouble_beside(rt, p, what, table, b".lock", &e);
        Told
    })?;
    underway::begin(rt, p, replies, table, r)?;
    match cli_beside::make(rt, replies, b".new") {
        Ok(file) => Ok(Growing::new(rt, file)),
        Err(e) => {
            tell_unmade(rt, p, replies, &e);
            underway::end(rt, p, replies, r);
            Err(Told)
        }
    }
}

fn tell_unmade(rt: &HostRuntime, p: Program, replies: &[u8], e: &io::Error) {
    if e.kind() != ErrorKind::AlreadyExists {
        cli_beside::trouble_new(rt, p, b"nothing was changed: can't make the $w", replies, e);
        return;
    }
    say::of_file(
        rt,
        p,
        replies,
        b".new",
        b"there is a file already, which no run says is its own; nothing was changed: choose another name for $W\n",
    );
}

// Removes what was made of the replies, if it is still this run's, wherever their folder is by now.
pub fn remove(rt: &HostRuntime, p: Program, replies: &[u8], out: &File, r: &Run) {
    match cli_beside::named_now(rt, out, replies) {
        Ok(now) => remove_named(rt, p, now.as_slice(), out, r),
        Err(_) => remove_named(rt, p, replies, out, r),
    }
}

// Who makes them is told until the last. Each step is on the disk before the next, since the replies may be on another disk than the table.
fn remove_named(rt: &HostRuntime, p: Program, replies: &[u8], out: &File, r: &Run) {
    if cli_beside::is_ours(rt, replies, b".new", out) {
        cli_beside::remove_new(rt, replies);
        let _ = cli_beside::flush_folder(rt, replies);
    }
    underway::end(rt, p, replies, r);
}

// Nothing was changed: what there is of the new table goes, wherever its folder is by now, and the lock with it.
pub fn undo(rt: &HostRuntime, p: Program, table: &[u8], kept: File, r: &Run) {
    match cli_beside::named_now(rt, &kept, table) {
        Ok(now) => undo_named(rt, p, now.as_slice(), kept, r),
        Err(_) => undo_named(rt, p, table, kept, r),
    }
}

// The replies' name leaves the lock before TABLE.new goes. Where it can't, TABLE.new stays and says that the table was not changed.
fn undo_named(rt: &HostRuntime, p: Program, table: &[u8], kept: File, r: &Run) {
    if cli_lock::is_of(rt, table, r) && cli_lock::is_unnamed(rt, table).is_err() {
        return;
    }
    cli_table::give_up(rt, table, kept);
    cli_lock::release(rt, p, table, r);
}

// Whether table and replies are still this run's, just before the table is saved.
fn is_ready(
    rt: &HostRuntime,
    p: Program,
    table: &[u8],
    replies: &[u8],
    out: &File,
    r: &Run,
) -> Result<(), Told> {
    cli_lock::is_held(rt, p, table, r)?;
    if cli_beside::is_ours(rt, replies, b".new", out) && underway::is_of(rt, replies, r) {
        return Ok(());
    }
    say::of_file(
        rt,
        p,
        replies,
        b".new",
        b"nothing was changed: another file took the name of the $w while the run was under way\n",
    );
    Err(Told)
}

// Saves the table that is this run's, and undoes all where it was not saved.
fn saved(
    rt: &HostRuntime,
    p: Program,
    table: &[u8],
    mut kept: File,
    seen: Option<Seen>,
    replies: &[u8],
    out: &File,
    r: &Run,
    t: &[u8],
) -> Saved {
    let saved = match is_ready(rt, p, table, replies, out, r) {
        Ok(()) => cli_table::save(rt, p, table, &mut kept, t, seen),
        Err(Told) => Saved::Not,
    };
    if saved == Saved::Not {
        remove(rt, p, replies, out, r);
        undo(rt, p, table, kept, r);
    }
    saved
}

// Saves the table, then gives the replies their name; they are to be listed where both went well.
pub fn is_finished(
    rt: &HostRuntime,
    p: Program,
    table: &[u8],
    kept: File,
    seen: Option<Seen>,
    replies: &[u8],
    out: &File,
    r: &Run,
    t: &[u8],
) -> Result<(), Told> {
    match saved(rt, p, table, kept, seen, replies, out, r, t) {
        Saved::Not => Err(Told),
        Saved::Unflushed => {
            tell_unflushed(rt, p, replies, r);
            Err(Told)
        }
        Saved::Whole => is_named(rt, p, replies, out, r),
    }
}

fn tell_unflushed(rt: &HostRuntime, p: Program, replies: &[u8], r: &Run) {
    say::of_file(
        rt,
        p,
        replies,
        b".new",
        b"holds the $w; send none before 'sync' has flushed the $k's folder",
    );
    underway::tell_move(rt, replies, r);
    say::end_line(rt);
}

// Takes a name that nothing has; renaming alone would replace a file that came meanwhile.
fn is_taken(rt: &HostRuntime, replies: &[u8]) -> bool {
    cli_beside::make(rt, replies, b"").is_ok()
}

// Gives the replies their name.
fn is_named(rt: &HostRuntime, p: Program, replies: &[u8], out: &File, r: &Run) -> Result<(), Told> {
    if !cli_beside::is_ours(rt, replies, b".new", out)
        || !is_taken(rt, replies)
        || cli_beside::take_name(rt, replies, b".new").is_err()
    {
        say::of_file(
            rt,
            p,
            replies,
            b".new",
            b"holds the $w, which could not be given their name; the $k was saved",
        );
        underway::tell_move(rt, replies, r);
        say::end_line(rt);
        return Err(Told);
    }
    if let Err(e) = cli_beside::flush_folder(rt, replies) {
        say::trouble(
            rt,
            p,
            b"the $k was saved; after a power failure the $w may be in the file that ends in .new: can't flush the folder",
            replies,
            &e,
        );
    }
    underway::end(rt, p, replies, r);
    Ok(())
}

// A reply and its LF.
fn put_line(out: &mut Growing, reply: &[u8]) -> io::Result<()> {
    out.write_all(reply)?;
    out.write_all(b"\n")
}

// A reply, if there is one, and its LF.
pub fn is_put(
    rt: &HostRuntime,
    p: Program,
    out: &mut Growing,
    replies: &[u8],
    reply: &[u8],
) -> Result<(), Told> {
    if reply.is_empty() {
        return Ok(());
    }
    put_line(out, reply).map_err(|e| {
        cli_beside::trouble_new(
            rt,
            p,
            b"nothing was changed: can't write the $w",
            replies,
            &e,
        );
        Told
    })
}

// Whether what was written, and its name, are on the disk.
pub fn is_flushed(rt: &HostRuntime, p: Program, replies: &[u8], out: &File) -> Result<(), Told> {
    out.sync_all().map_err(|e| {
        let what = b"nothing was changed: can't flush the $w";
        cli_beside::trouble_new(rt, p, what, replies, &e);
        Told
    })?;
    cli_beside::flush_folder(rt, replies).map_err(|e| {
        let what = b"nothing was changed: can't flush the folder of the $w";
        say::trouble(rt, p, what, replies, &e);
        Told
    })
}
