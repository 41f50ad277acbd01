// The file, part by part: each part is taken reply by reply, and each reply is written as it comes.
#![tactic(auto)]

use calls::Answer;
use cli_passed::Passed;
use cli_terminal::program::Program::Lentilpot;
use cli_terminal::say;
use cli_terminal::status::Told;
use session::Session;
use size_limit::Growing;
use std::io::Read;

// How far a file was taken, and the session after it.
#[derive(Clone, Copy)]
struct Taken {
    session: Session,
    passed: Passed,
}

// Receives a file to its end, or says what is the matter.
pub fn is_received<I: Read>(
    rt: &HostRuntime,
    input: &mut I,
    file: &[u8],
    out: &mut Growing,
    explanations: &mut Option<Growing>,
    replies: &[u8],
    t: &mut [u8],
    s: Session,
    size: usize,
) -> Result<(), Told> {
    let mut space = [0u8; 65536];
    if 65536 < size {
        return Err(Told);
    }
    let part = &mut space[..size];
    let mut now = Taken {
        session: s,
        passed: Passed::begun(),
    };
    // A proved loop has to end and nothing says that a file does, so it counts turns up to a number that no run reaches.
    for _ in 0..u64::MAX {
        let n = match input.read(part) {
            Ok(n) => n,
            Err(e) => {
                let what = b"nothing was changed: can't read the file to receive";
                say::trouble(rt, Lentilpot, what, file, &e);
                return Err(Told);
            }
        };
        if n == 0 {
            return end(rt, out, explanations, replies, t, now);
        }
        let before = now.passed.bytes;
        let is_closed = feed(rt, out, explanations, replies, t, &mut now, &part[..n])?;
        say::progress(rt, before, now.passed.bytes);
        if is_closed {
            return conclude(rt, explanations, replies, &now.passed);
        }
    }
    Err(Told)
}

// Takes a part, reply by reply; whether one of them closed the file. A file that goes on and takes nothing is stopped.
fn feed(
    rt: &HostRuntime,
    out: &mut Growing,
    explanations: &mut Option<Growing>,
    replies: &[u8],
    t: &mut [u8],
    now: &mut Taken,
    part: &[u8],
) -> Result<bool, Told> {
    let mut rest = part;
    while !rest.is_empty() {
        let a = step(rt, out, explanations, replies, t, now, rest)?;
        if a.finished {
            return Ok(true);
        }
        if a.taken == 0 || rest.len() < a.taken {
            return Err(Told);
        }
        rest = &rest[a.taken..];
    }
    Ok(false)
}

// One read call, and its reply if there is one; explained where that is asked for.
fn step(
    rt: &HostRuntime,
    out: &mut Growing,
    explanations: &mut Option<Growing>,
    replies: &[u8],
    t: &mut [u8],
    now: &mut Taken,
    input: &[u8],
) -> Result<Answer, Told> {
    if let Some(explanations) = explanations {
        let n = cli_passed::cut_at(input);
        return explained_step(rt, out, explanations, replies, t, now, &input[..n]);
    }
    let mut room = [0u8; 317];
    let a = calls::read(t, now.session, input, &mut room);
    put(rt, out, replies, &a, &room)?;
    *now = Taken {
        session: a.session,
        passed: now.passed.plainly_after(a.taken),
    };
    Ok(a)
}

fn explained_step(
    rt: &HostRuntime,
    out: &mut Growing,
    explanations: &mut Growing,
    replies: &[u8],
    t: &mut [u8],
    now: &mut Taken,
    input: &[u8],
) -> Result<Answer, Told> {
    let Taken { session, passed } = *now;
    let mut before = cli_settled::table_before(t);
    let mut room = [0u8; 317];
    let a = calls::read(t, session, input, &mut room);
    let reply = put(rt, out, replies, &a, &room)?;
    let marked = passed.marked_by(&session, input);
    let at = passed.at_step(&marked, &session, input, a.taken);
    cli_settled::is_step_explained(
        rt,
        explanations,
        replies,
        &mut before,
        t,
        session,
        &marked,
        at,
        input,
        a.taken,
        reply,
    )?;
    *now = Taken {
        session: a.session,
        passed: marked.after(input, a.taken, reply),
    };
    Ok(a)
}

// The reply that a call answered, written; none where it has no characters.
fn put<'a>(
    rt: &HostRuntime,
    out: &mut Growing,
    replies: &[u8],
    a: &Answer,
    room: &'a [u8],
) -> Result<&'a [u8], Told> {
    if a.refusal != 0 {
        let what = b"nothing was changed: a read was refused\n";
        say::of_file(rt, Lentilpot, replies, b"", what);
        return Err(Told);
    }
    let Some(reply) = room.get(..a.length) else {
        return Err(Told);
    };
    cli_replies::is_put(rt, Lentilpot, out, replies, reply)?;
    Ok(reply)
}

// The end's replies: one or two, and none where none is due.
fn end(
    rt: &HostRuntime,
    out: &mut Growing,
    explanations: &mut Option<Growing>,
    replies: &[u8],
    t: &mut [u8],
    last: Taken,
) -> Result<(), Told> {
    let mut now = last;
    for _ in 0..8 {
        if end_step(rt, out, explanations, replies, t, &mut now)? {
            return conclude(rt, explanations, replies, &now.passed);
        }
    }
    Err(Told)
}

// One end call, and its reply, explained where that is asked for; whether it closed the file.
fn end_step(
    rt: &HostRuntime,
    out: &mut Growing,
    explanations: &mut Option<Growing>,
    replies: &[u8],
    t: &mut [u8],
    now: &mut Taken,
) -> Result<bool, Told> {
    let Taken { session, passed } = *now;
    let before = cli_settled::table_before(t);
    let mut room = [0u8; 317];
    let a = calls::end(t, session, &mut room);
    let reply = put(rt, out, replies, &a, &room)?;
    let marked = passed.marked_at_end(&session);
    let at = passed.at_end(&marked, &session);
    cli_settled::is_end_explained(
        rt,
        explanations,
        replies,
        &before,
        t,
        session,
        &marked,
        at,
        reply,
    )?;
    *now = Taken {
        session: a.session,
        passed: marked.after(b"", 0, reply),
    };
    Ok(a.finished)
}

// The explanations end with how many were accepted and refused.
fn conclude(
    rt: &HostRuntime,
    explanations: &mut Option<Growing>,
    replies: &[u8],
    passed: &Passed,
) -> Result<(), Told> {
    let Some(explanations) = explanations else {
        return Ok(());
    };
    let written = cli_explain::tell_count(explanations, passed.count);
    cli_settled::is_told(rt, written, replies)
}
