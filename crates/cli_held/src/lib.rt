// A table or a desk that a run has taken, and how a served call leaves it.
#![tactic(auto)]

use cli_files::Seen;
use cli_run::Run;
use cli_table::Saved;
use cli_terminal::program::Program;
use cli_terminal::status::Told;

// The run that has it, and what was seen of the file then.
#[derive(Clone, Copy)]
pub struct Held {
    pub run: Run,
    pub seen: Option<Seen>,
}

// Takes the table; where it can't be had, that was told.
pub fn take(rt: &HostRuntime, p: Program, table: &[u8]) -> Result<Held, Told> {
    let run = cli_lock::take(rt, p, table)?;
    let seen = cli_files::of_name(rt, table).ok();
    Ok(Held { run, seen })
}

pub fn release(rt: &HostRuntime, p: Program, table: &[u8], h: &Held) {
    cli_lock::release(rt, p, table, &h.run);
}

// Saves the table that a served call left, and lets it go; whether that is on the disk.
pub fn is_saved(
    rt: &HostRuntime,
    p: Program,
    table: &[u8],
    t: &[u8],
    h: &Held,
) -> Result<(), Told> {
    let mut file = match cli_table::begin(rt, p, table) {
        Ok(file) => file,
        Err(told) => {
            release(rt, p, table, h);
            return Err(told);
        }
    };
    if let Err(told) = cli_lock::is_held(rt, p, table, &h.run) {
        cli_table::give_up(rt, table, file);
        return Err(told);
    }
    let saved = cli_table::save(rt, p, table, &mut file, t, h.seen);
    if saved == Saved::Not {
        cli_table::give_up(rt, table, file);
    }
    release(rt, p, table, h);
    match saved {
        Saved::Whole => Ok(()),
        Saved::Not | Saved::Unflushed => Err(Told),
    }
}
