//! Standard output and standard error, at the trusted edge.
ghost use Rattle.std.specs.Prelude.{◌≡◌, None};

use crate::sink::{Put, Sink};
use crate::writing::write_whole;
use std::io;
use std::io::{ErrorKind, Write};
use std::marker::Model;

/// An output of the runtime as a writer, which keeps the kind of its last fault.
#[derive(Drop)]
struct Printer<'a, R: Print> {
    rt: &'a R,
    reason: Option<ErrorKind>,
}

impl<'a, R: Print> Write for Printer<'a, R> {
    fn write(&mut self, bytes: &[u8]) -> io::Result<usize> {
        match self.rt.write_some(bytes) {
            Ok(count) => Ok(count),
            Err(error) => {
                self.reason = Some(error.kind());
                Err(error)
            }
        }
    }

    fn flush(&mut self) -> io::Result<()> {
        Ok(())
    }
}

/// An output of the runtime. It doesn't tell what was written. Contracts see its count of faults. It keeps the kind of its last fault.
#[derive(Drop)]
pub struct StdSink<'a, R: Print> {
    rt: &'a R,
    faults: u64,
    reason: Option<ErrorKind>,
}

impl<'a, R: Print> Model for StdSink<'a, R> {
    ghost use Rattle.std.specs.Prelude.{ℕ};

    ghost Value = { ℕ };

    ghost view = { λ sink. sink.faults };
}

impl<'a, R: Print> StdSink<'a, R> {
    /// The output of the runtime, with no fault counted.
    pub fn new(rt: &'a R) -> StdSink<'a, R>
        ensures { result ≡ 0 }
    {
        StdSink {
            rt,
            faults: 0,
            reason: None,
        }
    }
}

impl<'a, R: Print> Sink for StdSink<'a, R> {
    ghost use Rattle.bs_outside.specs.Opening.{put_faults};

    ghost written = { λ _. None };

    ghost faults = { λ sink. sink };

    ghost leads = { λ before call now. now ≡ put_faults before call.answer };

    fn put(&mut self, bytes: &[u8]) -> Put {
        let mut printer = Printer {
            rt: self.rt,
            reason: self.reason,
        };
        let answer = write_whole(&mut printer, &mut self.faults, bytes);
        self.reason = printer.reason;
        answer
    }

    fn reason(&self) -> Option<ErrorKind> {
        self.reason
    }
}
