//! The commands of `stride`, from words and bytes to bytes and a status.
//!
//! Owns: what the words name and set (`Words`, `Settings`), the reports (`Reports`), what logs come to (`Inferring`), the answer to
//! words and bytes (`Answers`), what a status tells of it (`Telling`), how many looks it takes (`Looks`), the headline (`Headline`),
//! and the answers of the commands that start threads, one for each recording (`LiveAnswers`, `LiveLooks`, `LiveLaws`).
//! The layer above is `main` alone. It may rely on the clauses of `stride`, the headline among them, and of `offline`: the status and
//! the report are those of the answer, of which there is one where no thread is started; a fault is answered only where the device's
//! count rose; and a refusal leaves the sink as it was. What `replay` is done with is a run in which each thread makes exactly the
//! events of its log, and what `sim` is done with one in which it makes exactly its recorded events.
#![tactic(auto)]

mod commands;
mod inferring;
mod input;
mod laws;
mod limits;
mod messages;
mod offline_call;
mod recorded;
mod recording;
mod refusal;
mod replaying;
mod reports;
mod settings;
mod status;
mod stride_call;
mod words;

pub use laws::{
    an_answer, bundles_are_replayed, one_answer, replays_are_runs, simulations_are_runs,
};
pub use offline_call::offline;
pub use status::{LinkageFault, MemberFault, ProgramFault, Status};
pub use stride_call::stride;
