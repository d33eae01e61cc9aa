//! `decode`: a bundle from its bytes.
ghost use Rattle.std.specs.Prelude.{IfOk};
ghost use Rattle.log_format.specs.Answers.{Gives, IsAnswer};
ghost use Rattle.log_format.specs.Bundles.{bundled};
ghost use Rattle.log_format.specs.Laws.{IsSpelled};
ghost use Rattle.log_format.specs.Reading.{body_at, bundle_at, reading};

use crate::bundle::Bundle;
use crate::fault::ReadError;
use crate::format_error::{FormatError, FormatKind};
use crate::logs::logs_at;
use crate::numbers::{fuel_at, threads_at};
use crate::parts::{magic_at, text_at};
use crate::version::Version;
use std::alloc::Global;

#[tactic(auto, unfolding(crate::specs::Reading::body_at))]
fn body_at(alloc: Global, version: Version, bytes: &[u8]) -> Result<(Bundle, &[u8]), ReadError>
    ensures { Gives (λ x. (bundled x.0, x.1.now)) result (body_at version bytes.now) }
{
    let (fuel, rest) = fuel_at(version, bytes)?;
    let (text, rest) = text_at(alloc, version, rest)?;
    let (threads, rest) = threads_at(version, rest)?;
    let (logs, rest) = logs_at(alloc, version, fuel, threads, rest)?;
    Ok((Bundle { fuel, text, logs }, rest))
}

#[tactic(auto, unfolding(crate::specs::Reading::bundle_at))]
fn bundle_at(alloc: Global, bytes: &[u8]) -> Result<Bundle, ReadError>
    ensures { Gives (λ bundle. bundled bundle) result (bundle_at bytes.now) }
{
    let (version, rest) = magic_at(bytes)?;
    let (bundle, rest) = body_at(alloc, version, rest)?;
    if !rest.is_empty() {
        return Err(ReadError::at(FormatKind::Long, rest));
    }
    Ok(bundle)
}

fn answer(alloc: Global, bytes: &[u8]) -> Result<Bundle, FormatError>
    ensures { IsAnswer result (reading bytes.now) }
{
    match bundle_at(alloc, bytes) {
        Ok(bundle) => Ok(bundle),
        Err(error) => Err(error.told(bytes.len())),
    }
}

/// The bundle that the bytes spell in one of the versions, or the first refusal.
pub fn decode(alloc: Global, bytes: &[u8]) -> Result<Bundle, FormatError>
    ensures exact { IsAnswer result (reading bytes.now) }
    ensures spelled { IfOk result (λ bundle. IsSpelled bytes.now (bundled bundle)) }
{
    answer(alloc, bytes)
}
