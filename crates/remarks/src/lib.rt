// What the programs say on standard error. Of a call that failed: what was tried, the system's number of the error (errno), and words for
// the commonest. Where standard error fails too, nothing more can be said.
#![tactic(auto)]

ghost use Rattle.std.specs.Prelude.{◌≡◌, ◌≢◌, ◌↔◌, IsTrue, IsOk, false, pos};
ghost use Rattle.remarks.specs.Errors.{system_number};

use page::Page;
use std::io;
use std::io::Error;

// The system's numbers of the errors that have words here.
pub const EINTR: i32 = 4;

pub const EIO: i32 = 5;

pub const EBADF: i32 = 9;

pub const EAGAIN: i32 = 11;

pub const EISDIR: i32 = 21;

pub const EINVAL: i32 = 22;

pub const EFBIG: i32 = 27;

pub const ENOSPC: i32 = 28;

pub const EPIPE: i32 = 32;

// What failed was told on standard error: its caller has nothing to say of it.
#[derive(Clone, Copy, Debug, PartialEq, Eq)]
pub struct Told;

// The system's number of an error of std's, never 0: an error that has none, or 0, counts as one of the device.
pub fn number_of(error: &Error) -> i32
    ensures number { result ≡ system_number error.now }
    ensures failed { result ≢ pos 0 }
{
    match error.raw_os_error() {
        None | Some(0) => EIO,
        Some(number) => number,
    }
}

// Writes what is on a page on standard error, and answers whether all of it was written. Of an overfull page nothing is.
pub fn remark(rt: &HostRuntime, page: &Page) -> bool
    ensures { IsTrue page.now.is_overfull → result ≡ false }
{
    match page.written() {
        Some(octets) => rt.stderr().write_all(octets).is_ok(),
        None => false,
    }
}

// The words for the commonest errors; none for any other.
fn meaning(number: i32) -> &'static [u8] {
    match number {
        EINTR => b", interrupted again and again",
        EIO => b", the device failed",
        EBADF => b", it is closed, or not open for this",
        EAGAIN => b", it is not ready for the moment",
        EISDIR => b", it is a directory",
        EINVAL => b", it is of a kind that this cannot be done with",
        EFBIG => b", the file would be too large",
        ENOSPC => b", no space is left",
        EPIPE => b", nobody reads it any more",
        _ => b"",
    }
}

// Says a line of a program's name, what was tried and the error's number; none is below 0.
fn say(rt: &HostRuntime, name: &[u8], what: &[u8], number: i32) -> Told {
    let mut line = Page::blank();
    line.put(name);
    line.put(what);
    line.number(u64::try_from(number).unwrap_or(0));
    line.put(meaning(number));
    line.put(b"\n");
    remark(rt, &line);
    Told
}

// Passes on that a call went well. An error is told, behind the program's name and what was tried.
pub fn tell(rt: &HostRuntime, name: &[u8], what: &[u8], outcome: io::Result<()>) -> Result<(), Told>
    ensures { IsOk result ↔ IsOk outcome }
{
    outcome.map_err(|error| say(rt, name, what, number_of(&error)))
}
