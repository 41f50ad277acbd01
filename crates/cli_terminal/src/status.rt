// How a command ends: its exit status.
ghost use Rattle.std.specs.Prelude.{◌<◌};

// Served and every reply K; refused, or some reply E; trouble with words or files.
#[derive(Clone, Copy, Debug, PartialEq, Eq)]
pub enum Status {
    Served,
    Refused,
    Trouble,
}

// What is the matter was told, and the command can't go on: it ends with trouble.
#[derive(Clone, Copy, Debug, PartialEq, Eq)]
pub struct Told;

pub fn number(s: Status) -> u8
    ensures { result < 3 }
{
    match s {
        Status::Served => 0,
        Status::Refused => 1,
        Status::Trouble => 2,
    }
}

// Served, if what was to be said is said.
pub fn served_if(said: Result<(), Told>) -> Result<Status, Told> {
    said.map(|()| Status::Served)
}

// Refused, if what was to be said is said.
pub fn refused_if(said: Result<(), Told>) -> Result<Status, Told> {
    said.map(|()| Status::Refused)
}

// How a command ended.
pub fn ended(by: Result<Status, Told>) -> Status {
    by.unwrap_or(Status::Trouble)
}
