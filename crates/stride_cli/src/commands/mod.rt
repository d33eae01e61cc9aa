//! The commands: one file a command, and the arm that calls it.
ghost use Rattle.std.specs.Prelude.{◌≡◌, ◌+◌, ◌≤◌, length, IfErr};
ghost use Rattle.stride_cli.specs.Gives.{Gives};
ghost use Rattle.stride_cli.specs.LimitsSeen.{limits_seen};
ghost use Rattle.stride_cli.specs.Looks.{OnEarly, OnUnlinking, command_looks, greatest_looks};

mod bundle;
mod check;
mod demonstration;
mod follow;
mod infer;
mod live;
mod replay;
mod run;
mod show;
mod sim;
mod upgrade;

use crate::limits::Limits;
use crate::refusal::Refusal;
use crate::words::Command;
use check::check_text;
use demonstration::demonstrate;
use follow::follow_schedule;
use infer::infer_bundle;
pub use live::live_report_of;
use replay::replay_bundle;
use show::show_bundle;
use sim::simulate;
use std::alloc::Global;
use std::sync::ledger::Ledger;
use stride_base::limits::INPUT_LIMIT;
use stride_base::{List, Steps};
use upgrade::upgrade_bundle;

/// The report of a command on an input that was read.
pub fn report_of<L: Ledger>(
    alloc: Global,
    command: Command,
    limits: Limits,
    bytes: List<u8>,
    steps: &mut Steps<L>,
) -> Result<List<u8>, Refusal>
    requires { length bytes.items ≤ INPUT_LIMIT }
    ensures answer { Gives result (limits_seen limits) command bytes.items }
    ensures early { IfErr result (λ refusal. OnEarly refusal (steps.new ≡ steps.old)) }
    ensures unlinking { OnUnlinking (Some command) (steps.new ≡ steps.old) }
    ensures looks { steps.new ≤ steps.old + command_looks (limits_seen limits) command bytes.items }
    ensures ceiling { steps.new ≤ steps.old + greatest_looks }
{
    match command {
        Command::Check => check_text(alloc, bytes.as_slice()),
        Command::Follow => follow_schedule(alloc, limits, bytes.as_slice()),
        Command::Sim => simulate(alloc, limits, bytes.as_slice(), steps),
        Command::Show => show_bundle(alloc, bytes.as_slice()),
        Command::Upgrade => upgrade_bundle(alloc, bytes.as_slice()),
        Command::Infer => infer_bundle(alloc, bytes, steps),
        Command::Replay => replay_bundle(alloc, bytes, steps),
        Command::Demo { number } => Ok(demonstrate(alloc, number, steps)?),
    }
}
