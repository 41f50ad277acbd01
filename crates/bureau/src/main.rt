// The customer's program; its exit status says how a command ended.
#![tactic(auto)]

use std::process::ExitCode;

fn main(rt: HostRuntime) -> ExitCode {
    bureau_program::run(&rt)
}
