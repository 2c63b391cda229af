// The program: its answer is the exit status.
#![tactic(auto)]

use std::process::ExitCode;

fn main(rt: HostRuntime) -> ExitCode {
    ExitCode::from(ulmarzhe_run::ulmarzhe_run(&rt).code())
}
