//! `show`: what a bundle holds.
ghost use Rattle.std.specs.Prelude.{◌≡◌, ◌≤◌, ◌++◌, length, OnOk};
ghost use Rattle.log_format.specs.Bundles.{bundled};
ghost use Rattle.log_format.specs.Reading.{reading};
ghost use Rattle.stride_cli.specs.Answers.{shown};
ghost use Rattle.stride_cli.specs.Gives.{GivesBy};
ghost use Rattle.stride_cli.specs.Reports.{show_report};

use crate::refusal::Refusal;
use crate::reports::{put_counts, put_logs, put_text};
use log_format::{Bundle, decode};
use std::alloc::Global;
use stride_base::limits::INPUT_LIMIT;
use stride_base::{List, NoMemory};
use stride_isa::limits::THREAD_LIMIT;

/// The number of threads, the fuel, the logs and the text of the bundle that the bytes spell.
pub fn show_bundle(alloc: Global, bytes: &[u8]) -> Result<List<u8>, Refusal>
    requires { length bytes.now ≤ INPUT_LIMIT }
    ensures { GivesBy result (λ answer. answer ≡ shown (reading bytes.now)) }
{
    let bundle = decode(alloc, bytes)?;
    let mut report = List::new(alloc);
    put_bundle(&mut report, &bundle)?;
    Ok(report)
}

fn put_bundle(report: &mut List<u8>, bundle: &Bundle) -> Result<(), NoMemory>
    requires { length bundle.now.logs.items ≤ THREAD_LIMIT }
    ensures { OnOk result (report.new.items ≡ report.old.items ++ show_report (bundled bundle.now)) }
{
    put_counts(report, bundle.logs.len() as u32, bundle.fuel)?;
    put_logs(report, bundle.logs.as_slice())?;
    put_text(report, bundle.text.as_slice())?;
    Ok(())
}
