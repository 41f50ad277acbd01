// The program: a bank's table of customers in a file, and the files that customers send. Thin over the calls: `cli_keep` has the
// commands that keep a table, `cli_receive` and `cli_show` the commands receive and show, `cli_explain` what replies say,
// `cli_asked` the words, `cli_table`, `cli_lock` and `cli_replies` the files.
#![tactic(auto)]

ghost use Rattle.std.specs.Prelude.{◌<◌};
ghost use Rattle.std.specs.Process.{exit_status};

mod explaining;

use cli_help::Command;
use cli_terminal::options::Words;
use cli_terminal::program::Program::Lentilpot;
use cli_terminal::status::{Status, Told};
use cli_terminal::{say, status};
use std::process::ExitCode;

fn served(rt: &HostRuntime, words: &Words, command: Command) -> Result<Status, Told> {
    match command {
        Command::Setup => cli_keep::setup(rt, words),
        Command::Add => cli_keep::add(rt, words),
        Command::Key => cli_keep::key(rt, words),
        Command::Order => cli_keep::order(rt, words),
        Command::Receive => cli_receive::receive(rt, words),
        Command::Show => cli_show::show(rt, words),
        Command::Explain => explaining::explain(rt, words),
        Command::Help => helped(rt, words),
    }
}

// A text of help, shown.
fn shown(rt: &HostRuntime, text: &[u8]) -> Result<Status, Told> {
    status::served_if(say::is_said(
        rt,
        Lentilpot,
        say::out(rt, text),
        b"the help can't be shown: ",
    ))
}

// `help`, and `help COMMAND`.
fn helped(rt: &HostRuntime, words: &Words) -> Result<Status, Told> {
    cli_help::are_as_many(rt, words, Command::Help, 2, 3)?;
    if words.count() == 2 {
        return shown(rt, cli_help::whole());
    }
    let Some(command) = cli_help::command_of(words.word(2)) else {
        cli_help::tell_names(rt);
        return Err(Told);
    };
    shown(rt, cli_help::of(command))
}

// A command, or what was asked in place of one.
fn of_words(rt: &HostRuntime, words: &Words) -> Result<Status, Told> {
    let is_help = words.is_given(b"--help") || words.is_given(b"-h");
    match cli_help::command_of(words.word(1)) {
        Some(command) if is_help => shown(rt, cli_help::of(command)),
        Some(command) => served(rt, words, command),
        None if is_help => shown(rt, cli_help::whole()),
        None if words.count_all() == 2 && words.is_given(b"--version") => {
            shown(rt, cli_help::version())
        }
        None => {
            cli_help::tell_names(rt);
            Err(Told)
        }
    }
}

fn asked(rt: &HostRuntime) -> Result<Status, Told> {
    cli_asked::are_open(rt, Lentilpot)?;
    let words = cli_asked::words(rt, Lentilpot)?;
    of_words(rt, &words)
}

// The whole work: the exit status.
pub fn run(rt: &HostRuntime) -> ExitCode
    ensures { exit_status result < 3 }
{
    ExitCode::from(status::number(status::ended(asked(rt))))
}
