//! The program `stride`: the real devices, the exit status, and one line on standard error for a refusal.
#![tactic(auto)]

ghost use Rattle.std.specs.Prelude.{◌≡◌, ◌<◌};

use command_words::{Fault, what_is_wrong};
use recorder::OpenGate;
use std::alloc::{AllocError, Global};
use std::io::ErrorKind;
use std::marker::Brand;
use std::process::ExitCode;
use std::sync::Wait;
use std::sync::ledger::{Blank, Ledger};
use std::thread::Threads;
use std::{env, fmt, io};
use stride_base::{StdSink, StdSource, Steps};
use stride_cli::{Status, stride};

/// The words after the program's name. A command line with a word that is no UTF-8 is a faulty one, as one with an empty
/// word is: no command has such a name.
fn words_of(rt: &HostRuntime) -> Result<Vec<String>, Status> {
    match env::args(rt) {
        Ok(args) => args
            .skip(1)
            .collect(rt.alloc())
            .map_err(|_: AllocError| Status::NoMemory),
        Err(error) if error.kind() == ErrorKind::OutOfMemory => Err(Status::NoMemory),
        Err(_) => Err(Status::Usage),
    }
}

/// Does the command over the real devices, with a counter of steps made from the blank.
fn run<L: Ledger, R: Threads + Wait + Sync + Input + Print>(
    rt: &R,
    alloc: Global,
    words: &[&str],
    blank: Blank,
) -> Status
    requires name { blank.name ≡ L.name }
    requires parts { blank.parts ≡ L.parts }
    requires some_part { 0 < blank.parts }
{
    let mut source = StdSource::new(rt.reader());
    let mut sink = StdSink::new(io::writer(rt));
    let mut steps = Steps::<L>::new(rt, blank);
    stride(
        rt,
        alloc,
        words,
        &mut source,
        &mut sink,
        &OpenGate,
        &mut steps,
    )
}

/// Why a command is not done: what is wrong with words that are refused, and the status.
#[derive(Drop)]
struct Message<'a> {
    fault: Option<Fault<'a>>,
    status: &'a Status,
}

impl fmt::Display for Message<'_> {
    fn fmt<W: fmt::Write>(&self, f: &mut fmt::Formatter<W>) -> fmt::Result {
        if let Some(fault) = &self.fault {
            write!(f, "{fault}; ")?;
        }
        write!(f, "{status}", status = self.status)
    }
}

/// One line on standard error, where the command is not done.
fn tell<R: Eprint>(rt: &R, status: &Status, fault: Option<Fault>) {
    if !matches!(status, Status::Done) {
        let message = Message { fault, status };
        let _ = eprintln!(rt; "stride: {message}");
    }
}

fn status_of<R: Threads + Wait + Sync + Input + Print + Eprint>(
    rt: &R,
    alloc: Global,
    args: &[String],
) -> Status {
    let words: Result<Vec<&str>, AllocError> = args.iter().map(|word| word.as_str()).collect(alloc);
    match words {
        Ok(words) => {
            let status = run::<Brand, R>(rt, alloc, &words, Blank::new(1));
            let fault = match status {
                Status::Usage => what_is_wrong(&words),
                _ => None,
            };
            tell(rt, &status, fault);
            status
        }
        Err(_) => {
            tell(rt, &Status::NoMemory, None);
            Status::NoMemory
        }
    }
}

fn main(rt: HostRuntime) -> ExitCode {
    let status = match words_of(&rt) {
        Ok(args) => status_of(&rt, rt.alloc(), &args),
        Err(status) => {
            tell(&rt, &status, None);
            status
        }
    };
    ExitCode::from(status.code())
}
