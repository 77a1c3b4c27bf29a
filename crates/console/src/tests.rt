// One call in mid-stream that is interrupted or fails: no contract says what is told then, nor that a report in memory is written.
ghost use Rattle.std.specs.Prelude.{◌≤◌, length, IfOk};

use crate::input::Cut;
use crate::{input, output};
use page::Page;
use remarks::Told;
use std::io;
use std::io::{Error, Read, Write};

// An input whose calls are numbered: the first is interrupted, the second gives two octets, the third fails with a number of the system's.
#[derive(Drop)]
struct Input {
    calls: u8,
    number: i32,
}

// Puts two octets at the start of a buffer, if they fit.
fn two(buffer: &mut [u8]) -> io::Result<usize>
    ensures { IfOk result (λ n. n ≤ length buffer.new) }
{
    if buffer.len() < 2 {
        return Ok(0);
    }
    buffer[0] = 7;
    buffer[1] = 8;
    Ok(2)
}

impl Read for Input {
    fn read(&mut self, buffer: &mut [u8]) -> io::Result<usize> {
        self.calls = self.calls.saturating_add(1);
        match self.calls {
            1 => Err(Error::from_raw_os_error(remarks::EINTR)),
            2 => two(buffer),
            _ => Err(Error::from_raw_os_error(self.number)),
        }
    }
}

// An output of few octets, that fails once it is full.
#[derive(Drop)]
struct Output {
    room: usize,
}

impl Write for Output {
    fn write(&mut self, octets: &[u8]) -> io::Result<usize> {
        if self.room == 0 {
            return Err(Error::from_raw_os_error(remarks::ENOSPC));
        }
        let count = self.room.min(octets.len());
        self.room -= count;
        Ok(count)
    }

    fn flush(&mut self) -> io::Result<()> {
        Ok(())
    }
}

#[test]
fn a_failed_read_is_no_end(rt: HostRuntime) {
    for number in [remarks::EIO, remarks::EAGAIN, 0] {
        let mut buffer = [0u8; 8];
        let mut given = Input { calls: 0, number };
        let reading = input::read_whole(&rt, &mut given, b"a test", &mut buffer);
        assert_eq!(rt; reading, Err(Cut { count: 2 }), "error {number}");
        assert_eq!(rt; buffer, [7, 8, 0, 0, 0, 0, 0, 0]);
    }
}

#[test]
fn a_full_buffer_is_whole(rt: HostRuntime) {
    let mut buffer = [0u8; 2];
    let mut given: &[u8] = b"abc";
    let reading = input::read_whole(&rt, &mut given, b"a test", &mut buffer);
    assert_eq!(rt; reading, Ok(2));
    assert_eq!(rt; buffer, *b"ab");
}

#[test]
fn a_page_that_does_not_fit(rt: HostRuntime) {
    for (room, is_well) in [(9, false), (10, true)] {
        let mut page = Page::blank();
        page.number(1_234_567_890);
        let mut report = Output { room };
        let outcome = output::write_page(&rt, &mut report, b"a test", &page);
        assert_eq!(rt; outcome.is_ok(), is_well);
    }
}

#[test]
fn nothing_after_a_failure(rt: HostRuntime) {
    let mut report = Output { room: 5 };
    assert!(rt; output::write(&rt, &mut report, b"a test", Err(Told), b"ab").is_err());
    assert_eq!(rt; report.room, 5);
}
