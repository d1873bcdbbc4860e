// Standard input and output, with what can stand in their way.
//
// A call that a signal interrupts is made again. A stream that would make us wait and is set not to (EAGAIN) is opened anew by its name
// under /proc, which gives one that waits; where there is none, as for a socket, the call is made again a millisecond later.
ghost use Rattle.std.specs.Prelude.{◌+◌, ◌≤◌, length, IfOk};

use lines::LINE_END;
use std::fs::{File, OpenOptions};
use std::io;
use std::io::{Cursor, ErrorKind, Read, Stdin, Stdout, Write};
use std::os::fd::AsRawFd;
use std::rt::Files;
use std::time::{Clock, Duration};

// Standard error's descriptor, the last of a standard stream.
const LAST_STANDARD: i32 = 2;

// Standard input, or its file where that was opened anew.
#[derive(Drop)]
pub struct Source {
    stdin: Stdin,
    anew: Option<File>,
}

// Standard output, or its file where that was opened anew, and how many messages have their whole reply in it.
#[derive(Drop)]
pub struct Sink {
    stdout: Stdout,
    anew: Option<File>,
    answered: u64,
}

// What ended the program before its input did.
#[derive(Drop)]
pub enum Failure {
    Reading(io::Error),
    Writing(io::Error),
}

impl Source {
    pub fn new(stdin: Stdin) -> Source {
        Source { stdin, anew: None }
    }

    // Reads into a buffer from a position on, as many bytes as come at once. No bytes: the input has ended.
    pub fn read_block(
        &mut self,
        rt: &HostRuntime,
        buffer: &mut [u8],
        from: usize,
    ) -> io::Result<usize>
        requires { from ≤ length buffer.old }
        ensures { IfOk result (λ count. from + count ≤ length buffer.old) }
    {
        for _ in 0..u64::MAX {
            match self.read_once(&mut buffer[from..]) {
                Ok(count) => return Ok(count),
                Err(error) => stalled(
                    rt,
                    error,
                    &mut self.anew,
                    OpenOptions::new().read(true),
                    "/proc/self/fd/0",
                )?,
            }
        }
        Err(io::Error::from(ErrorKind::Interrupted))
    }

    fn read_once(&mut self, part: &mut [u8]) -> io::Result<usize>
        ensures { IfOk result (λ count. count ≤ length part.old) }
    {
        match &mut self.anew {
            Some(file) => file.read(part),
            None => self.stdin.read(part),
        }
    }
}

impl Sink {
    // Nothing is written yet.
    pub fn new(stdout: Stdout) -> Sink {
        Sink {
            stdout,
            anew: None,
            answered: 0,
        }
    }

    pub fn answered(&self) -> u64 {
        self.answered
    }

    // Writes a text, and counts the replies that were written whole: each ends in a line end.
    pub fn write_all(&mut self, rt: &HostRuntime, s: &[u8]) -> io::Result<()> {
        let mut done = 0;
        for _ in 0..u64::MAX {
            if s.len() <= done {
                return Ok(());
            }
            match self.write_once(&s[done..]) {
                Ok(count) => {
                    let end = done + count;
                    self.answered = self.answered.wrapping_add(line_ends(&s[done..end]));
                    done = end;
                }
                Err(error) => stalled(
                    rt,
                    error,
                    &mut self.anew,
                    OpenOptions::new().append(true),
                    "/proc/self/fd/1",
                )?,
            }
        }
        Err(io::Error::from(ErrorKind::Interrupted))
    }

    fn write_once(&mut self, part: &[u8]) -> io::Result<usize>
        ensures { IfOk result (λ count. count ≤ length part.now) }
    {
        match &mut self.anew {
            Some(file) => file.write(part),
            None => self.stdout.write(part),
        }
    }
}

fn line_ends(s: &[u8]) -> u64 {
    s.iter().filter(|b| **b == LINE_END).count() as u64
}

// After a call that failed: an error, unless it is to be made again.
fn stalled(
    rt: &HostRuntime,
    error: io::Error,
    anew: &mut Option<File>,
    how: &OpenOptions,
    path: &str,
) -> io::Result<()> {
    match error.kind() {
        ErrorKind::Interrupted => Ok(()),
        ErrorKind::WouldBlock => {
            wait(rt, anew, how, path);
            Ok(())
        }
        _ => Err(error),
    }
}

// Opens the file of a stream anew, which then waits, or lets a little time pass.
fn wait(rt: &HostRuntime, anew: &mut Option<File>, how: &OpenOptions, path: &str) {
    if anew.is_none() {
        if let Ok(file) = rt.open_file(how, path) {
            if file.as_raw_fd() > LAST_STANDARD {
                *anew = Some(file);
                return;
            }
        }
    }
    rt.sleep(Duration::from_millis(1));
}

// Says on standard error how many messages were answered, what failed and why.
pub fn fail(rt: &HostRuntime, failure: Failure, answered: u64) -> io::Result<()> {
    let (what, error) = match failure {
        Failure::Reading(error) => ("reading standard input", error),
        Failure::Writing(error) => ("writing standard output", error),
    };
    let mut said = Cursor::new([b' '; 128]);
    write!(said, "{error}")?;
    let bytes: &[u8] = said.get_ref();
    let text = std::str::from_utf8(bytes).unwrap_or("");
    // The system's words, without the error's number behind them.
    let why = match text.split_once(" (os error ") {
        Some((words, _)) => words,
        None => text.trim_end(),
    };
    eprintln!(rt; "booklines: messages answered: {answered}; {what} failed: {why}")
}
