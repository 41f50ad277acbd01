// Explains a reply where it was settled: by the session just before the byte that settled it, and by the table before and after.
#![tactic(auto)]

use cli_explain::Settled;
use cli_passed::Passed;
use cli_terminal::program::Program::Lentilpot;
use cli_terminal::say;
use cli_terminal::status::Told;
use session::Session;
use size_limit::Growing;
use std::io;

pub fn is_told(rt: &HostRuntime, written: io::Result<()>, replies: &[u8]) -> Result<(), Told> {
    written.map_err(|e| {
        say::trouble(
            rt,
            Lentilpot,
            b"nothing was changed: can't write the explanations beside the replies",
            replies,
            &e,
        );
        Told
    })
}

// The table as it is before a call.
pub fn table_before(t: &[u8]) -> [u8; 49152] {
    let mut before = [0u8; 49152];
    text::copy(&mut before, t);
    before
}

// The session after the first n bytes of the input, which settle nothing.
fn session_before(t: &mut [u8], s: Session, input: &[u8], n: usize) -> Session {
    match input.get(..n) {
        Some(first) => calls::read(t, s, first, &mut [0u8; 317]).session,
        None => s,
    }
}

// Explains a reply, if there is one, by the session just before the byte that settled it: the same read without that byte, on the
// table as it was.
pub fn is_step_explained(
    rt: &HostRuntime,
    explanations: &mut Growing,
    replies: &[u8],
    before: &mut [u8],
    t: &[u8],
    s: Session,
    marked: &Passed,
    at: Settled,
    input: &[u8],
    taken: usize,
    reply: &[u8],
) -> Result<(), Told> {
    if reply.is_empty() {
        return Ok(());
    }
    if taken == 0 {
        return Err(Told);
    }
    let held = session_before(before, s, input, taken - 1);
    let written = cli_explain::tell(explanations, before, t, held, reply, marked.count, at);
    is_told(rt, written, replies)
}

// The same of a reply that the file's end gives, where explanations are asked for.
pub fn is_end_explained(
    rt: &HostRuntime,
    explanations: &mut Option<Growing>,
    replies: &[u8],
    before: &[u8],
    t: &[u8],
    s: Session,
    marked: &Passed,
    at: Settled,
    reply: &[u8],
) -> Result<(), Told> {
    let Some(explanations) = explanations else {
        return Ok(());
    };
    if reply.is_empty() {
        return Ok(());
    }
    let written = cli_explain::tell(explanations, before, t, s, reply, marked.count, at);
    is_told(rt, written, replies)
}
