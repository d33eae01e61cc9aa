//! Which calls of a device over memory fail.
ghost use Rattle.std.specs.Prelude.{◌≡◌};
ghost use Rattle.stride_base.specs.MemoryDevices.{is_listed};

/// Whether the call with this number is listed. Numbers above those of a `u32` never are.
pub(crate) fn is_failing(failing: &[u32], call: u64) -> bool
    ensures { result ≡ is_listed failing.now call }
{
    match u32::try_from(call) {
        Ok(call) => failing.contains(&call),
        Err(_) => false,
    }
}
