//! `follow`: a program played by a schedule.
ghost use Rattle.std.specs.Prelude.{◌≡◌, ◌≤◌, length};
ghost use Rattle.stride_cli.specs.Answers.{member_fault};
ghost use Rattle.stride_cli.specs.Gives.{Gives};
ghost use Rattle.stride_cli.specs.LimitsSeen.{limits_seen};
ghost use Rattle.stride_cli.specs.Refusals.{of_replay};
ghost use Rattle.stride_cli.specs.declared.words.Command.TheVariants.{Follow};

use crate::input::read_input;
use crate::limits::Limits;
use crate::refusal::Refusal;
use crate::reports::put_run;
use crate::status::MemberFault;
use replayer::{ReplayError, replay};
use std::alloc::Global;
use stride_base::List;
use stride_base::limits::INPUT_LIMIT;
use stride_isa::Checked;

// Why a member that names this thread can take no turn.
fn fault_of(program: &Checked, thread: u8) -> MemberFault
    ensures { result ≡ member_fault (length program.now.threads) thread }
{
    if u32::from(thread) < program.threads() {
        MemberFault::CannotGoOn
    } else {
        MemberFault::NoThread
    }
}

/// The refusal of an order that is no schedule of the program.
pub fn refused_order(program: &Checked, order: &[u8], error: ReplayError) -> Refusal
    ensures { result ≡ of_replay program.now order.now error }
{
    match error {
        ReplayError::NotEnabled { place } => {
            let thread = order.get(place as usize).copied().unwrap_or(0);
            Refusal::NotEnabled {
                place,
                fault: fault_of(program, thread),
            }
        }
        ReplayError::NoMemory => Refusal::NoMemory,
    }
}

/// The transcript and the ends of the threads, where the bytes are a program with a schedule of it.
pub fn follow_schedule(alloc: Global, limits: Limits, bytes: &[u8]) -> Result<List<u8>, Refusal>
    requires { length bytes.now ≤ INPUT_LIMIT }
    ensures { Gives result (limits_seen limits) Follow bytes.now }
{
    let input = read_input(alloc, bytes)?;
    let order = input.order.as_slice();
    let played = match replay(alloc, &input.program, limits.fuel, order) {
        Ok(played) => played,
        Err(error) => return Err(refused_order(&input.program, order, error)),
    };
    let mut report = List::new(alloc);
    put_run(&mut report, &played)?;
    Ok(report)
}
