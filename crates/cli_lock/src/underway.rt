// Replies under way: REPLIES.run says which run, on which table, is making REPLIES.new. It is made first and removed last, so whoever finds
// replies under way knows whose they are, and those of another table's run are left alone.
use cli_run::Run;
use cli_terminal::program::Program;
use cli_terminal::say;
use cli_terminal::status::Told;
use size_limit::Growing;
use std::fs::File;
use std::io;
use std::io::ErrorKind;

// Whether the replies under way are of that run.
pub fn is_of(rt: &HostRuntime, replies: &[u8], r: &Run) -> bool {
    !replies.is_empty() && crate::is_signed(rt, replies, b".run", r)
}

fn is_written(rt: &HostRuntime, file: File, table: &[u8], r: &Run) -> io::Result<()> {
    let mut file = Growing::new(rt, file);
    let line = cli_run::line(r);
    crate::put(&mut file, &[line.as_slice(), table, b"\n".as_slice()])
}

// Takes the replies' name for this run, or says who has it.
pub fn begin(
    rt: &HostRuntime,
    p: Program,
    replies: &[u8],
    table: &[u8],
    r: &Run,
) -> Result<(), Told> {
    let file = cli_beside::make(rt, replies, b".run").map_err(|e| {
        tell_unmade(rt, p, replies, &e);
        Told
    })?;
    is_written(rt, file, table, r).map_err(|e| {
        say::trouble_beside(
            rt,
            p,
            b"nothing was changed: can't write who makes the $w",
            replies,
            b".run",
            &e,
        );
        let _ = cli_beside::remove(rt, replies, b".run");
        let _ = cli_beside::flush_folder(rt, replies);
        Told
    })
}

// Gives the replies' name up, if it is still this run's; on the disk too before the lock says less than it did.
pub fn end(rt: &HostRuntime, p: Program, replies: &[u8], r: &Run) {
    if !is_of(rt, replies, r) {
        return;
    }
    if let Err(e) = cli_beside::remove(rt, replies, b".run") {
        say::trouble_beside(rt, p, b"can't remove", replies, b".run", &e);
    }
    let _ = cli_beside::flush_folder(rt, replies);
}

fn tell_unmade(rt: &HostRuntime, p: Program, replies: &[u8], e: &io::Error) {
    if e.kind() != ErrorKind::AlreadyExists {
        say::trouble_beside(rt, p, b"can't make the $w", replies, b".run", e);
        return;
    }
    let mut file = [0u8; 65536];
    let n = cli_beside::read_beside(rt, replies, b".run", &mut file);
    let table = cli_run::name(&file[..n]);
    match cli_run::read(&file[..n]) {
        Some(r) if !cli_asked::has_control(table) => tell_other(rt, p, replies, table, &r),
        _ => tell_unsigned(rt, p, replies),
    }
}

fn tell_unsigned(rt: &HostRuntime, p: Program, replies: &[u8]) {
    if let Err(e) = cli_beside::is_readable(rt, replies, b".run") {
        say::trouble_beside(
            rt,
            p,
            b"nothing was changed: $w of that name are under way, and it can't be read whose",
            replies,
            b".run",
            &e,
        );
        return;
    }
    if !cli_beside::is_empty(rt, replies, b".run") {
        say::of_file(
            rt,
            p,
            replies,
            b".run",
            b"there is a file already, which this program did not write; nothing was changed: choose another name for $W\n",
        );
        return;
    }
    say::of_file(
        rt,
        p,
        replies,
        b".run",
        b"of a run that has just begun, and nothing was changed; if no $p runs, that run did nothing. To mend: rm",
    );
    say::quoted(rt, replies, b".run");
    say::end_line(rt);
}

// Replies of a run that is known: it lives, or its table's lock tells what is the case, or that lock is gone.
fn tell_other(rt: &HostRuntime, p: Program, replies: &[u8], table: &[u8], r: &Run) {
    say::of_file(rt, p, replies, b".run", b"nothing was changed: ");
    cli_run::tell(rt, r);
    say::told(rt, p, b", a run on the $k");
    say::quoted(rt, table, b"");
    if cli_run::is_living(rt, r) {
        say::told(
            rt,
            p,
            b", makes these $w: choose another name for $W, or try again when it has ended\n",
        );
        return;
    }
    say::err(rt, b", runs no more and ");
    // a lock that can't be asked for here
    if str::from_utf8(table).is_err() {
        say::told(
            rt,
            p,
            b"its $k has a name that isn't UTF-8: nothing can be told of it; choose another name for $W\n",
        );
        return;
    }
    if crate::is_of(rt, table, r) {
        crate::tell_mend(rt, p, table, replies, r);
        return;
    }
    tell_unsure(rt, p, replies, r);
}

fn tell_unsure(rt: &HostRuntime, p: Program, replies: &[u8], r: &Run) {
    say::told(
        rt,
        p,
        b"its lock was removed, so whether that $k was saved can't be told",
    );
    if cli_beside::is_there(rt, replies, b".new") {
        say::told(rt, p, b"; send none of these $w unless 'show' $s");
        tell_aside(rt, replies, r);
    } else {
        say::err(rt, b". To mend: rm");
        say::quoted(rt, replies, b".run");
    }
    say::end_line(rt);
}

// What to type so that the replies of a saved table get their name, or a free one where another file has it by now. An empty one is the
// run's own, made just before it was cut off.
pub fn tell_move(rt: &HostRuntime, replies: &[u8], r: &Run) {
    if cli_beside::is_empty(rt, replies, b"") {
        say::err(rt, b". To mend: mv");
        tell_moved(rt, replies, b"");
        return;
    }
    if cli_beside::is_there(rt, replies, b"") {
        say::err(rt, b", and another file has their name by now");
        tell_aside(rt, replies, r);
        return;
    }
    tell_free(rt, replies, b"");
}

fn tell_aside(rt: &HostRuntime, replies: &[u8], r: &Run) {
    tell_free(rt, replies, &cli_run::ending(r));
}

// `mv -n` alone would say that all went well where it did nothing.
fn tell_free(rt: &HostRuntime, replies: &[u8], ending: &[u8]) {
    say::err(rt, b". To mend: test ! -e");
    say::quoted(rt, replies, ending);
    say::err(rt, b" && mv -n");
    tell_moved(rt, replies, ending);
}

fn tell_moved(rt: &HostRuntime, replies: &[u8], ending: &[u8]) {
    say::quoted(rt, replies, b".new");
    say::quoted(rt, replies, ending);
    say::err(rt, b" && rm");
    say::quoted(rt, replies, b".run");
}
