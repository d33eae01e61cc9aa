//! `upgrade`: a bundle in version 2.
ghost use Rattle.std.specs.Prelude.{◌≡◌, ◌≤◌, length};
ghost use Rattle.log_format.specs.Reading.{reading};
ghost use Rattle.stride_cli.specs.Answers.{upgraded};
ghost use Rattle.stride_cli.specs.Gives.{GivesBy};

use crate::refusal::Refusal;
use log_format::{decode, encode};
use std::alloc::Global;
use stride_base::List;
use stride_base::limits::INPUT_LIMIT;

/// The spelling in version 2 of the bundle that the bytes spell. Its text is not assembled.
pub fn upgrade_bundle(alloc: Global, bytes: &[u8]) -> Result<List<u8>, Refusal>
    requires { length bytes.now ≤ INPUT_LIMIT }
    ensures { GivesBy result (λ answer. answer ≡ upgraded (reading bytes.now)) }
{
    let bundle = decode(alloc, bytes)?;
    Ok(encode(alloc, &bundle)?)
}
