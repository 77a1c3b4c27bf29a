// Writing a report. A write that fails is told on standard error.
ghost use Rattle.std.specs.Prelude.{◌≡◌, IsTrue, IsErr, OnOk};
ghost use Rattle.std.specs.Io.KnownBytes.{Appends, Keeps};

use page::Page;
use remarks::Told;
use std::io::Write;

// Writes all of these octets where all before them were written. A write that fails is told on standard error, behind the program's name;
// after it nothing more is written. An interrupted write is tried again; one that takes nothing, which no file should do, counts as an error of
// the device.
pub fn write<W: Write>(
    rt: &HostRuntime,
    output: &mut W,
    name: &[u8],
    before: Result<(), Told>,
    octets: &[u8],
) -> Result<(), Told>
    ensures stopped { IsErr before → IsErr result }
    ensures kept { IsErr before → Keeps (W.contents output.old) (W.contents output.new) }
    ensures written { OnOk result (Appends (W.contents output.old) (W.contents output.new) octets.now) }
{
    before?;
    let what = b": no whole report, since standard output could not be written: error ";
    remarks::tell(rt, name, what, output.write_all(octets))
}

// Says that a report is longer than its page.
fn overfull(rt: &HostRuntime, name: &[u8]) -> Told {
    let error = rt.stderr();
    let _ = error.write_all(name);
    let _ = error.write_all(b": no report, since it is longer than its page\n");
    Told
}

// Writes what is on a page. A write that fails is told as by `write`; so is an overfull page, of which nothing is written.
pub fn write_page<W: Write>(
    rt: &HostRuntime,
    output: &mut W,
    name: &[u8],
    page: &Page,
) -> Result<(), Told>
    ensures stopped { IsTrue page.now.is_overfull → IsErr result }
    ensures kept { IsTrue page.now.is_overfull → Keeps (W.contents output.old) (W.contents output.new) }
    ensures written { OnOk result (Appends (W.contents output.old) (W.contents output.new) page.now.octets) }
{
    match page.written() {
        Some(octets) => write(rt, output, name, Ok(()), octets),
        None => Err(overfull(rt, name)),
    }
}
