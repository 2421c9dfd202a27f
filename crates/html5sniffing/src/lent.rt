//! A source that is lent.
use devices::Source;
use std::io;

/// A source that is lent, so that it can be read as another.
#[derive(Drop)]
pub struct Lent<'s, S> {
    pub source: &'s mut S,
}

impl<S: Source> Source for Lent<'_, S> {
    ghost remaining = { λ l. S.remaining l.source.now };

    ghost failures = { λ l. S.failures l.source.now };

    fn read(&mut self, buf: &mut [u8]) -> io::Result<usize> {
        self.source.read(buf)
    }
}
