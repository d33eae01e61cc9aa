//! The counts and the text of a bundle.
ghost use Rattle.std.specs.Prelude.{◌≡◌, ◌++◌, OnOk};
ghost use Rattle.stride_cli.specs.Reports.{counts_section, text_section};

use itoa::Buffer;
use stride_base::{List, NoMemory};

/// Appends how many threads there are, and how many instructions each may make.
pub fn put_counts(report: &mut List<u8>, threads: u32, fuel: u32) -> Result<(), NoMemory>
    ensures { OnOk result (report.new.items ≡ report.old.items ++ counts_section threads fuel) }
{
    report.push_all(b"threads ")?;
    report.push_all(Buffer::new().format(threads).as_bytes())?;
    report.push_all(b"\nfuel ")?;
    report.push_all(Buffer::new().format(fuel).as_bytes())?;
    report.push(b'\n')
}

/// Appends the section of a text, as it is.
pub fn put_text(report: &mut List<u8>, text: &[u8]) -> Result<(), NoMemory>
    ensures { OnOk result (report.new.items ≡ report.old.items ++ text_section text.now) }
{
    report.push_all(b"text\n")?;
    report.push_all(text)
}
