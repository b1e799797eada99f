//! `pokit`: the GNU gettext catalogue tools in one program, a subcommand for each.
//!
//! Only this crate touches arguments, files, streams and the environment, each by a single call of
//! the system (`system`). What is made of these calls is in process, whose `start` is called here.

#![tactic(auto)]

mod system;

use std::process::ExitCode;
use system::System;

fn main(rt: HostRuntime) -> ExitCode {
    ExitCode::from(process::start(rt.alloc(), System(&rt)).exit_status())
}
