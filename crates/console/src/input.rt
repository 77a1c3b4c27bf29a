// Reading the whole of an input. A read that fails is not the end of the input: it is told on standard error.
ghost use Rattle.std.specs.Prelude.{◌≡◌, ◌<◌, length, take, IfOk};
ghost use Rattle.std.specs.Io.KnownBytes.{Consumes, IsAtEnd};
ghost use Rattle.console.specs.Counts.{IsPrefixLen, octets_read};

use remarks::EINTR;
use std::io::{Error, Read};

// An input that was cut by a read that failed, which was told: so many octets came before it.
#[derive(Clone, Copy, Debug, PartialEq, Eq)]
pub struct Cut {
    pub count: usize,
}

// Tells a read that failed after so many octets.
fn told(rt: &HostRuntime, name: &[u8], error: Error, count: usize) -> Cut
    ensures { result.count ≡ count }
{
    let what = b": no report, since standard input could not be read: error ";
    let _ = remarks::tell(rt, name, what, Err(error));
    Cut { count }
}

// Reads an input to its end, or until the buffer is full: how many octets came, at the start of the buffer. A read that fails is told on
// standard error, behind the program's name; an interrupted one is tried again.
// (A loop that is proved has to end: the turns are counted up to a number that no run reaches.)
#[tactic(auto, using(crate::proofs::Rest::more_came, crate::proofs::Rest::none_came))]
pub fn read_whole<R: Read>(
    rt: &HostRuntime,
    input: &mut R,
    name: &[u8],
    buffer: &mut [u8],
) -> Result<usize, Cut>
    ensures count { IsPrefixLen (octets_read result) buffer.new }
    ensures came { Consumes (R.remaining input.old) (R.remaining input.new) (take (octets_read result) buffer.new) }
    ensures whole { IfOk result (λ count. count < length buffer.new → IsAtEnd (R.remaining input.new)) }
{
    let mut at: usize = 0;
    for _ in 0..u64::MAX {
        match input.read(&mut buffer[at..]) {
            Ok(0) => return Ok(at),
            Ok(count) => at += count,
            Err(error) if remarks::number_of(&error) == EINTR => {}
            Err(error) => return Err(told(rt, name, error, at)),
        }
    }
    Err(told(rt, name, Error::from_raw_os_error(EINTR), at))
}
