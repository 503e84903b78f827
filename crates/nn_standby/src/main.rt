//! The program: a scenario on standard input; the namespace, replicas, orders and counts that it leaves on standard output.
#![tactic(auto)]

use std::process::ExitCode;

fn main(rt: HostRuntime) -> ExitCode {
    nn_command::start(&rt, &rt)
}
