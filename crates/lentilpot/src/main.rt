// The bank's program; its exit status says how a command ended.
#![tactic(auto)]

use std::process::ExitCode;

fn main(rt: HostRuntime) -> ExitCode {
    cli_program::run(&rt)
}
