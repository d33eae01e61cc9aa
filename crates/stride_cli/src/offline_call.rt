//! The top call for all commands that start no thread.
ghost use Rattle.std.specs.Prelude.{◌≡◌, ◌+◌, ◌≤◌, ◌↔◌, [], None, Some, IfSome, map, length};
ghost use Rattle.std.specs.Bool.{MatchBool};
ghost use Rattle.command_words.specs.declared.settings.Command.{Command as Named};
ghost use Rattle.command_words.specs.Words.{IsNoLine, OfLine};
ghost use Rattle.stride_base.specs.Devices.{Rose};
ghost use Rattle.stride_cli.specs.Answers.{AnswersBy, AnswersDemo, AnswersSettings};
ghost use Rattle.stride_cli.specs.LimitsSeen.{limits_seen};
ghost use Rattle.stride_cli.specs.Looks.{BeforeLinking, OnUnlinking, demo_looks, greatest_looks, most_looks};
ghost use Rattle.stride_cli.specs.Refusable.{CanEnd};
ghost use Rattle.stride_cli.specs.Settings.{AreInRange, limits_of};
ghost use Rattle.stride_cli.specs.Telling.{OnDemo, OnDone, OnMemory, OnReadFault, OnRefusal, OnWriteFault, Tells, TellsBy};
ghost use Rattle.stride_cli.specs.Words.{named_reads, offline_named, reads};

use crate::commands::report_of;
use crate::input::{read_bytes, unread};
use crate::limits::Limits;
use crate::status::Status;
use crate::words::{Command, offline_of};
use command_words::{Refusal, Settings, read_words};
use std::alloc::Global;
use std::sync::ledger::Ledger;
use stride_base::{Failed, Sink, Source, Steps, put_all};

// Does a command, as `offline` says.
fn offline_command<S: Source, K: Sink, L: Ledger>(
    alloc: Global,
    command: Command,
    limits: Limits,
    source: &mut S,
    sink: &mut K,
    steps: &mut Steps<L>,
) -> Status
    ensures answer { IfSome (S.left source.old) (λ bytes. TellsBy (AnswersBy (limits_seen limits) (Some command) bytes) (K.held sink.old) (K.held sink.new) result) }
    ensures used { result ≡ Status.Usage → ⊥ }

    ensures untouched { OnRefusal result (sink.new ≡ sink.old) }
    ensures end { MatchBool (reads command) (OnDone result (IfSome (S.left source.new) (λ rest. rest ≡ []))) (source.new ≡ source.old) }
    ensures refusals { (name : Named) → offline_named name ≡ Some command → CanEnd name result }
    ensures demo_answer { OnDemo (Some command) (λ number. TellsBy (AnswersDemo number) (K.held sink.old) (K.held sink.new) result) }
    ensures demo_within { OnDemo (Some command) (λ number. steps.new ≤ steps.old + demo_looks number) }

    ensures read_fault { OnReadFault result (Rose (S.faults source.old) (S.faults source.new)) }
    ensures write_fault { OnWriteFault result (Rose (K.faults sink.old) (K.faults sink.new)) }
    ensures counted { (S.faults source.old ≤ S.faults source.new) × (K.faults sink.old ≤ K.faults sink.new) }

    ensures uncounted { OnUnlinking (Some command) (steps.new ≡ steps.old) }
    ensures early { BeforeLinking result (steps.new ≡ steps.old) }
    ensures looks { IfSome (S.left source.old) (λ bytes. steps.new ≤ steps.old + most_looks (limits_seen limits) (Some command) bytes) }
    ensures ceiling { steps.new ≤ steps.old + greatest_looks }
{
    let bytes = match read_bytes(alloc, command.reads_input(), source) {
        Ok(bytes) => bytes,
        Err(error) => return unread(error),
    };
    let report = match report_of(alloc, command, limits, bytes, steps) {
        Ok(report) => report,
        Err(refusal) => return refusal.into_status(),
    };
    match put_all(sink, report.as_slice()) {
        Ok(()) => Status::Done,
        Err(Failed) => Status::WriteFault,
    }
}

/// Does the command of settings that are in range, as `offline` says.
pub fn offline_by<S: Source, K: Sink, L: Ledger>(
    alloc: Global,
    settings: Settings,
    source: &mut S,
    sink: &mut K,
    steps: &mut Steps<L>,
) -> Status
    requires { AreInRange (limits_of settings) }
    ensures answer { IfSome (S.left source.old) (λ bytes. TellsBy (AnswersSettings bytes settings) (K.held sink.old) (K.held sink.new) result) }
    ensures usage { (result ≡ Status.Usage) ↔ (offline_named settings.command ≡ None) }
    ensures unread { result ≡ Status.Usage → source.new ≡ source.old }

    ensures untouched { OnRefusal result (sink.new ≡ sink.old) }
    ensures end { MatchBool (named_reads None (offline_named settings.command)) (OnDone result (IfSome (S.left source.new) (λ rest. rest ≡ []))) (source.new ≡ source.old) }
    ensures refusals { CanEnd settings.command result }
    ensures demo_answer { OnDemo (offline_named settings.command) (λ number. TellsBy (AnswersDemo number) (K.held sink.old) (K.held sink.new) result) }
    ensures demo_within { OnDemo (offline_named settings.command) (λ number. steps.new ≤ steps.old + demo_looks number) }

    ensures read_fault { OnReadFault result (Rose (S.faults source.old) (S.faults source.new)) }
    ensures write_fault { OnWriteFault result (Rose (K.faults sink.old) (K.faults sink.new)) }
    ensures counted { (S.faults source.old ≤ S.faults source.new) × (K.faults sink.old ≤ K.faults sink.new) }

    ensures uncounted { OnUnlinking (offline_named settings.command) (steps.new ≡ steps.old) }
    ensures early { BeforeLinking result (steps.new ≡ steps.old) }
    ensures looks { IfSome (S.left source.old) (λ bytes. steps.new ≤ steps.old + most_looks (limits_of settings) (offline_named settings.command) bytes) }
    ensures ceiling { steps.new ≤ steps.old + greatest_looks }
{
    match offline_of(settings.command) {
        Some(command) => offline_command(alloc, command, Limits::of(settings), source, sink, steps),
        None => Status::Usage,
    }
}

/// Does the command that the words name (the program's name is none of them): reads the whole input, where the command reads
/// one, and puts the whole report only when it is made. It starts no thread.
///
/// What is said of bytes holds where the source and the sink tell theirs.
pub fn offline<S: Source, K: Sink, L: Ledger>(
    alloc: Global,
    words: &[&str],
    source: &mut S,
    sink: &mut K,
    steps: &mut Steps<L>,
) -> Status
    // The very answer, but for a device's fault and want of memory: the status with its details, and the report, whole where
    // the command is done, or a prefix of it where it could not be put.
    ensures answer { IfSome (S.left source.old) (λ bytes. Tells (map (λ word. word.now) words.entry.now) bytes (K.held sink.old) (K.held sink.new) result) }

    // Exactly where the words are no line of the grammar, or one of a command that isn't for this call.
    ensures usage { OnMemory result ((result ≡ Status.Usage) ↔ OfLine (map (λ word. word.now) words.entry.now) (λ settings. offline_named settings.command ≡ None)) }
    ensures unread { result ≡ Status.Usage → source.new ≡ source.old }

    // Words that are no line of the grammar leave everything as it was, also where memory runs out.
    ensures refused { IsNoLine (map (λ word. word.now) words.entry.now) → (source.new ≡ source.old) × (sink.new ≡ sink.old) × (steps.new ≡ steps.old) }

    ensures untouched { OnRefusal result (sink.new ≡ sink.old) }
    // A command that reads an input reads it to its end.
    ensures end { OfLine (map (λ word. word.now) words.entry.now) (λ settings. MatchBool (named_reads None (offline_named settings.command)) (OnDone result (IfSome (S.left source.new) (λ rest. rest ≡ []))) (source.new ≡ source.old)) }

    // A command gives only refusals of what it reads, whatever the source tells.
    ensures refusals { OfLine (map (λ word. word.now) words.entry.now) (λ settings. CanEnd settings.command result) }

    // A demonstration reads no input, so its answer and its looks are told whatever the source tells.
    ensures demo_answer { OfLine (map (λ word. word.now) words.entry.now) (λ settings. OnDemo (offline_named settings.command) (λ number. TellsBy (AnswersDemo number) (K.held sink.old) (K.held sink.new) result)) }
    ensures demo_within { OfLine (map (λ word. word.now) words.entry.now) (λ settings. OnDemo (offline_named settings.command) (λ number. steps.new ≤ steps.old + demo_looks number)) }

    // A fault is answered only where the device's count rose in this call.
    ensures read_fault { OnReadFault result (Rose (S.faults source.old) (S.faults source.new)) }
    ensures write_fault { OnWriteFault result (Rose (K.faults sink.old) (K.faults sink.new)) }
    ensures counted { (S.faults source.old ≤ S.faults source.new) × (K.faults sink.old ≤ K.faults sink.new) }

    // The counter stands still but for the commands that link, and where these end before that. They take at most so many looks,
    // by the events of the input, and by the limit of events where the source tells no bytes.
    ensures uncounted { OfLine (map (λ word. word.now) words.entry.now) (λ settings. OnUnlinking (offline_named settings.command) (steps.new ≡ steps.old)) }
    ensures early { BeforeLinking result (steps.new ≡ steps.old) }
    ensures looks { OfLine (map (λ word. word.now) words.entry.now) (λ settings. IfSome (S.left source.old) (λ bytes. steps.new ≤ steps.old + most_looks (limits_of settings) (offline_named settings.command) bytes)) }
    ensures ceiling { steps.new ≤ steps.old + greatest_looks }
{
    command_words::one_reading();
    match read_words(alloc, words) {
        Ok(settings) => offline_by(alloc, settings, source, sink, steps),
        Err(Refusal::Usage) => Status::Usage,
        Err(Refusal::NoMemory) => Status::NoMemory,
    }
}
