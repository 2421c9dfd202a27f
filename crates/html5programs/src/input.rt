//! What a program reads from.
ghost use Rattle.std.specs.Prelude.{◌≡◌};

use crate::lines::{CHUNK, Lines};
use crate::progress::Meter;
use devices::{ReadSource, Source};
use std::io;
use std::io::Read;
use std::marker::Model;

/// A reader as a source, which knows why a read failed, and, if asked, the lines of the bytes that it gave.
/// It may show how much that is.
#[derive(Drop)]
pub struct Input<R, M> {
    source: ReadSource<R>,
    fault: Option<io::Error>,
    lines: Option<Lines>,
    meter: Option<M>,
}

impl<R, M> Model for Input<R, M> {
    ghost use Rattle.devices.specs.Device.{Metered};

    ghost Value = { Metered R };

    ghost view = { λ i. record { inner = i.source.inner; failures = i.source.failures } };
}

impl<R, M: Meter> Input<R, M> {
    pub fn new(inner: R) -> Input<R, M>
        ensures inner { result.inner ≡ inner }
        ensures failures { result.failures ≡ 0 }
    {
        Input {
            source: ReadSource::new(inner),
            fault: None,
            lines: None,
            meter: None,
        }
    }

    /// Begins with the lines of what it gives from here on.
    pub fn begin_lines(&mut self)
        ensures { self.new ≡ self.old }
    {
        self.lines = Some(Lines::new());
    }

    /// The line that a place is on, by what was given since the lines were begun.
    pub fn line_at(&self, place: u64) -> u64 {
        match &self.lines {
            Some(lines) => lines.line_at(place),
            None => 1,
        }
    }

    /// Shows how much it gives from here on, if there is a meter.
    pub fn begin_meter(&mut self, meter: Option<M>)
        ensures { self.new ≡ self.old }
    {
        self.meter = meter;
    }

    /// Shows no more how much it gives.
    pub fn end_meter(&mut self)
        ensures { self.new ≡ self.old }
    {
        if let Some(meter) = &mut self.meter {
            meter.clear();
        }
        self.meter = None;
    }

    /// Why the last read that failed did.
    pub fn fault(&self) -> Option<io::Error> {
        self.fault
    }
}

impl<R: Read, M: Meter> Source for Input<R, M> {
    ghost remaining = { λ i. R.remaining i.inner };

    ghost failures = { λ i. i.failures };

    fn read(&mut self, buf: &mut [u8]) -> io::Result<usize> {
        let room = buf.len().min(CHUNK);
        match self.source.read(&mut buf[..room]) {
            Ok(n) => {
                if let Some(lines) = &mut self.lines {
                    lines.add(&buf[..n]);
                }
                if let Some(meter) = &mut self.meter {
                    meter.add(n);
                }
                Ok(n)
            }
            Err(e) => {
                self.fault = Some(e);
                Err(e)
            }
        }
    }
}
