//! How the program begins, and what it says at its end.
ghost use Rattle.std.specs.Prelude.{◌≡◌, OnOk, OnErr};
ghost use Rattle.std.specs.Process.{exit_status};

use art_engine::RunFault;
use art_lines::{FromReader, ToWriter};
use std::io::{Stdin, Stdout};
use std::process::ExitCode;

/// The two ends of the program when all is done, and which of them failed, if one did.
#[derive(Drop)]
pub(crate) struct Ends {
    pub(crate) source: FromReader<Stdin>,
    pub(crate) sink: ToWriter<Stdout>,
    pub(crate) done: Result<(), RunFault>,
}

/// The bytes of the stack that a line may need, and some more.
const DEPTH: usize = 58_368;

/// Has the stack grow, so that no line needs it to grow when memory is short: where it can't grow, a program is ended.
/// The byte that it answers follows from two numbers that no compiler knows, so that none leaves out its room.
#[inline(never)]
pub(crate) fn touch_stack(here: usize, there: usize) -> u8 {
    let mut room = [0; DEPTH];
    room[here % DEPTH] = 1;
    room[there % DEPTH]
}

/// Says on standard error which end failed, if one did, and answers the status of the program.
pub(crate) fn report(rt: &HostRuntime, done: Result<(), RunFault>) -> ExitCode
    ensures fine { OnOk done (exit_status result ≡ 0) }
    ensures failed { OnErr done (exit_status result ≡ 1) }
{
    match done {
        Ok(()) => ExitCode::from(0),
        Err(fault) => {
            let _ = eprintln!(rt; "art_index: {fault}");
            ExitCode::from(1)
        }
    }
}
