//! The top call for all commands.
ghost use Rattle.std.specs.Prelude.{◌≡◌, ◌+◌, ◌≤◌, ◌↔◌, [], None, Ok, Some, IfSome, map, length};
ghost use Rattle.std.specs.Bool.{MatchBool};
ghost use Rattle.command_words.specs.declared.settings.Command.{Command as Named};
ghost use Rattle.command_words.specs.Words.{IsNoLine, OfLine};
ghost use Rattle.stride_base.specs.Devices.{Rose};
ghost use Rattle.stride_cli.specs.Answers.{AnswersDemo};
ghost use Rattle.stride_cli.specs.Headline.{DemoHeadline, Headline, IsDemoKeptBy, IsKeptBy, IsLiveKept, World};
ghost use Rattle.stride_cli.specs.LimitsSeen.{limits_seen};
ghost use Rattle.stride_cli.specs.LiveAnswers.{AnswersLiveBytes, AnswersLiveSettings, IsStrideAnswer};
ghost use Rattle.stride_cli.specs.LiveLooks.{LiveLooks, NamedLooks, OnUncounted};
ghost use Rattle.stride_cli.specs.Looks.{BeforeLinking, demo_looks, greatest_looks};
ghost use Rattle.stride_cli.specs.Refusable.{CanEnd};
ghost use Rattle.stride_cli.specs.Settings.{AreInRange, limits_of};
ghost use Rattle.stride_cli.specs.Telling.{OnDemo, OnDone, OnMemory, OnReadFault, OnRefusal, OnWriteFault, TellsBy};
ghost use Rattle.stride_cli.specs.Words.{live_named, live_reads, named_reads, offline_named};

use crate::commands::live_report_of;
use crate::input::{read_bytes, unread};
use crate::limits::Limits;
use crate::offline_call::offline_by;
use crate::status::Status;
use crate::words::{Live, live_of};
use command_words::{Refusal, Settings, read_words};
use recorder::Gate;
use std::alloc::Global;
use std::sync::Wait;
use std::sync::ledger::Ledger;
use std::thread::Threads;
use stride_base::{Failed, Sink, Source, Steps, put_all};

// Does a live command, as `stride` says.
fn live_command<R: Threads + Wait + Sync, S: Source, K: Sink, G: Gate, L: Ledger>(
    rt: &R,
    alloc: Global,
    command: Live,
    limits: Limits,
    source: &mut S,
    sink: &mut K,
    gate: &G,
    steps: &mut Steps<L>,
) -> Status
    ensures promise { IsLiveKept (limits_seen limits) command (S.left source.old) (record { held = K.held sink.old; sink_faults = K.faults sink.old; source_faults = S.faults source.old; looks = steps.old }) (record { held = K.held sink.new; sink_faults = K.faults sink.new; source_faults = S.faults source.new; looks = steps.new }) result }
    ensures answer { IfSome (S.left source.old) (λ bytes. TellsBy (AnswersLiveBytes (limits_seen limits) command bytes) (K.held sink.old) (K.held sink.new) result) }
    ensures used { result ≡ Status.Usage → ⊥ }

    ensures untouched { OnRefusal result (sink.new ≡ sink.old) }
    ensures end { MatchBool (live_reads command) (OnDone result (IfSome (S.left source.new) (λ rest. rest ≡ []))) (source.new ≡ source.old) }
    ensures refusals { (name : Named) → live_named name ≡ Some command → CanEnd name result }

    ensures read_fault { OnReadFault result (Rose (S.faults source.old) (S.faults source.new)) }
    ensures write_fault { OnWriteFault result (Rose (K.faults sink.old) (K.faults sink.new)) }
    ensures counted { (S.faults source.old ≤ S.faults source.new) × (K.faults sink.old ≤ K.faults sink.new) }

    ensures uncounted { OnUncounted (Some command) None (steps.new ≡ steps.old) }
    ensures early { BeforeLinking result (steps.new ≡ steps.old) }
    ensures looks { IfSome (S.left source.old) (λ bytes. LiveLooks (limits_seen limits) command bytes steps.old steps.new) }
    ensures ceiling { steps.new ≤ steps.old + greatest_looks }
{
    stride_isa::one_verdict();
    let bytes = match read_bytes(alloc, command.reads_input(), source) {
        Ok(bytes) => bytes,
        Err(error) => return unread(error),
    };
    let report = match live_report_of(rt, alloc, command, limits, bytes, gate, steps) {
        Ok(report) => report,
        Err(refusal) => return refusal.into_status(),
    };
    match put_all(sink, report.as_slice()) {
        Ok(()) => Status::Done,
        Err(Failed) => Status::WriteFault,
    }
}

// Does the command of settings that are in range, as `stride` says.
fn stride_by<R: Threads + Wait + Sync, S: Source, K: Sink, G: Gate, L: Ledger>(
    rt: &R,
    alloc: Global,
    settings: Settings,
    source: &mut S,
    sink: &mut K,
    gate: &G,
    steps: &mut Steps<L>,
) -> Status
    requires { AreInRange (limits_of settings) }
    ensures promise { IsKeptBy settings (S.left source.old) (record { held = K.held sink.old; sink_faults = K.faults sink.old; source_faults = S.faults source.old; looks = steps.old }) (record { held = K.held sink.new; sink_faults = K.faults sink.new; source_faults = S.faults source.new; looks = steps.new }) result }
    ensures demo_promise { IsDemoKeptBy settings (record { held = K.held sink.old; sink_faults = K.faults sink.old; source_faults = S.faults source.old; looks = steps.old }) (record { held = K.held sink.new; sink_faults = K.faults sink.new; source_faults = S.faults source.new; looks = steps.new }) result }
    ensures answer { IfSome (S.left source.old) (λ bytes. TellsBy (AnswersLiveSettings bytes settings) (K.held sink.old) (K.held sink.new) result) }
    ensures used { result ≡ Status.Usage → ⊥ }

    ensures untouched { OnRefusal result (sink.new ≡ sink.old) }
    ensures end { MatchBool (named_reads (live_named settings.command) (offline_named settings.command)) (OnDone result (IfSome (S.left source.new) (λ rest. rest ≡ []))) (source.new ≡ source.old) }
    ensures refusals { CanEnd settings.command result }
    ensures demo_answer { OnDemo (offline_named settings.command) (λ number. TellsBy (AnswersDemo number) (K.held sink.old) (K.held sink.new) result) }
    ensures demo_within { OnDemo (offline_named settings.command) (λ number. steps.new ≤ steps.old + demo_looks number) }

    ensures read_fault { OnReadFault result (Rose (S.faults source.old) (S.faults source.new)) }
    ensures write_fault { OnWriteFault result (Rose (K.faults sink.old) (K.faults sink.new)) }
    ensures counted { (S.faults source.old ≤ S.faults source.new) × (K.faults sink.old ≤ K.faults sink.new) }

    ensures uncounted { OnUncounted (live_named settings.command) (offline_named settings.command) (steps.new ≡ steps.old) }
    ensures early { BeforeLinking result (steps.new ≡ steps.old) }
    ensures looks { IfSome (S.left source.old) (λ bytes. NamedLooks (limits_of settings) (live_named settings.command) (offline_named settings.command) bytes steps.old steps.new) }
    ensures ceiling { steps.new ≤ steps.old + greatest_looks }
{
    match live_of(settings.command) {
        Some(command) => {
            let limits = Limits::of(settings);
            live_command(rt, alloc, command, limits, source, sink, gate, steps)
        }
        None => offline_by(alloc, settings, source, sink, steps),
    }
}

/// Does the command that the words name (the program's name is none of them): reads the whole input, where the command reads one,
/// and puts the whole report only when it is made. `run`, `bundle` and a live demonstration run each thread of the program on a
/// thread of its own, and may wait for them; the other commands are those of `offline`, start no thread, and always return.
///
/// What is said of bytes holds where the source and the sink tell theirs.
pub fn stride<R: Threads + Wait + Sync, S: Source, K: Sink, G: Gate, L: Ledger>(
    rt: &R,
    alloc: Global,
    words: &[&str],
    source: &mut S,
    sink: &mut K,
    gate: &G,
    steps: &mut Steps<L>,
) -> Status
    // Whatever program is accepted and however its threads interleave, once the recording returns, `run` is done, want of memory and
    // faults of the devices aside. The schedule that is printed, found within a bounded number of looks, is a run of the sequentially
    // consistent machine in which every thread makes exactly its recorded reads, writes, updates and turns of monitors, and the
    // transcript gives each thread exactly its recorded output.
    ensures headline { Headline (map (λ word. word.now) words.entry.now) (S.left source.old) (record { held = K.held sink.old; sink_faults = K.faults sink.old; source_faults = S.faults source.old; looks = steps.old }) (record { held = K.held sink.new; sink_faults = K.faults sink.new; source_faults = S.faults source.new; looks = steps.new }) result }

    // The same of a demonstration whose threads run beside each other, with its own program, and its summary as the report.
    ensures demo_headline { DemoHeadline (map (λ word. word.now) words.entry.now) (record { held = K.held sink.old; sink_faults = K.faults sink.old; source_faults = S.faults source.old; looks = steps.old }) (record { held = K.held sink.new; sink_faults = K.faults sink.new; source_faults = S.faults source.new; looks = steps.new }) result }

    // An answer to the words and the bytes, but for a device's fault and want of memory: the status with its details, and the report,
    // whole where the command is done, or a prefix of it where it could not be put.
    ensures answer { IfSome (S.left source.old) (λ bytes. TellsBy (IsStrideAnswer (map (λ word. word.now) words.entry.now) bytes) (K.held sink.old) (K.held sink.new) result) }

    // Exactly where the words are no line of the grammar.
    ensures usage { OnMemory result ((result ≡ Status.Usage) ↔ IsNoLine (map (λ word. word.now) words.entry.now)) }
    ensures unread { result ≡ Status.Usage → source.new ≡ source.old }

    // Words that are no line of the grammar leave everything as it was, also where memory runs out.
    ensures refused { IsNoLine (map (λ word. word.now) words.entry.now) → (source.new ≡ source.old) × (sink.new ≡ sink.old) × (steps.new ≡ steps.old) }

    ensures untouched { OnRefusal result (sink.new ≡ sink.old) }
    // A command that reads an input reads it to its end.
    ensures end { OfLine (map (λ word. word.now) words.entry.now) (λ settings. MatchBool (named_reads (live_named settings.command) (offline_named settings.command)) (OnDone result (IfSome (S.left source.new) (λ rest. rest ≡ []))) (source.new ≡ source.old)) }

    // A command gives only refusals of what it reads, whatever the source tells.
    ensures refusals { OfLine (map (λ word. word.now) words.entry.now) (λ settings. CanEnd settings.command result) }

    // A demonstration reads no input, so its answer and its looks are told whatever the source tells.
    ensures demo_answer { OfLine (map (λ word. word.now) words.entry.now) (λ settings. OnDemo (offline_named settings.command) (λ number. TellsBy (AnswersDemo number) (K.held sink.old) (K.held sink.new) result)) }
    ensures demo_within { OfLine (map (λ word. word.now) words.entry.now) (λ settings. OnDemo (offline_named settings.command) (λ number. steps.new ≤ steps.old + demo_looks number)) }

    // A fault is answered only where the device's count rose in this call.
    ensures read_fault { OnReadFault result (Rose (S.faults source.old) (S.faults source.new)) }
    ensures write_fault { OnWriteFault result (Rose (K.faults sink.old) (K.faults sink.new)) }
    ensures counted { (S.faults source.old ≤ S.faults source.new) × (K.faults sink.old ≤ K.faults sink.new) }

    // The counter stands still but for the commands that link, and where these end before that. They take at most so many looks, by the
    // events of the input or of the recording, and by the limit of events where the source tells no bytes.
    ensures uncounted { OfLine (map (λ word. word.now) words.entry.now) (λ settings. OnUncounted (live_named settings.command) (offline_named settings.command) (steps.new ≡ steps.old)) }
    ensures early { BeforeLinking result (steps.new ≡ steps.old) }
    ensures looks { OfLine (map (λ word. word.now) words.entry.now) (λ settings. IfSome (S.left source.old) (λ bytes. NamedLooks (limits_of settings) (live_named settings.command) (offline_named settings.command) bytes steps.old steps.new)) }
    ensures ceiling { steps.new ≤ steps.old + greatest_looks }
{
    command_words::one_reading();
    match read_words(alloc, words) {
        Ok(settings) => stride_by(rt, alloc, settings, source, sink, gate, steps),
        Err(Refusal::Usage) => Status::Usage,
        Err(Refusal::NoMemory) => Status::NoMemory,
    }
}
