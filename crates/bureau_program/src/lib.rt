// The program of the customer's side: a desk in a file, the files that are sent, and the bank's replies. Thin over the calls: `bureau_keep`
// has the commands open and key, `bureau_make`, `bureau_check` and `bureau_show` the others, `bureau_file` the desk's bytes.
#![tactic(auto)]

ghost use Rattle.std.specs.Prelude.{◌<◌};
ghost use Rattle.std.specs.Process.{exit_status};

use bureau_help::Command;
use cli_terminal::options::Words;
use cli_terminal::program::Program;
use cli_terminal::status::{Status, Told};
use cli_terminal::{say, status};
use std::process::ExitCode;

fn served(rt: &HostRuntime, words: &Words, command: Command) -> Result<Status, Told> {
    match command {
        Command::Open => bureau_keep::open(rt, words),
        Command::Key => bureau_keep::key(rt, words),
        Command::Make => bureau_make::make(rt, words),
        Command::Check => bureau_check::check(rt, words),
        Command::Show => bureau_show::show(rt, words),
        Command::Help => helped(rt, words),
    }
}

// A text of help, shown.
fn shown(rt: &HostRuntime, text: &[u8]) -> Result<Status, Told> {
    status::served_if(say::is_said(
        rt,
        Program::Bureau,
        say::out(rt, text),
        b"the help can't be shown: ",
    ))
}

// `help`, and `help COMMAND`.
fn helped(rt: &HostRuntime, words: &Words) -> Result<Status, Told> {
    bureau_help::are_as_many(rt, words, Command::Help, 2, 3)?;
    if words.count() == 2 {
        return shown(rt, bureau_help::whole());
    }
    let Some(command) = bureau_help::command_of(words.word(2)) else {
        bureau_help::tell_names(rt);
        return Err(Told);
    };
    shown(rt, bureau_help::of(command))
}

// A command, or what was asked in place of one.
fn of_words(rt: &HostRuntime, words: &Words) -> Result<Status, Told> {
    let is_help = words.is_given(b"--help") || words.is_given(b"-h");
    match bureau_help::command_of(words.word(1)) {
        Some(command) if is_help => shown(rt, bureau_help::of(command)),
        Some(command) => served(rt, words, command),
        None if is_help => shown(rt, bureau_help::whole()),
        None if words.count_all() == 2 && words.is_given(b"--version") => {
            shown(rt, bureau_help::version())
        }
        None => {
            bureau_help::tell_names(rt);
            Err(Told)
        }
    }
}

fn asked(rt: &HostRuntime) -> Result<Status, Told> {
    cli_asked::are_open(rt, Program::Bureau)?;
    let words = cli_asked::words(rt, Program::Bureau)?;
    of_words(rt, &words)
}

// The whole work: the exit status.
pub fn run(rt: &HostRuntime) -> ExitCode
    ensures { exit_status result < 3 }
{
    ExitCode::from(status::number(status::ended(asked(rt))))
}
