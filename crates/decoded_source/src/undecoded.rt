//! Bytes that were read, and wait to be decoded.
ghost use Rattle.std.specs.Prelude.{◌≡◌, ◌+◌, [], IfOk, OnErr, OnOk};
ghost use Rattle.std.specs.Io.KnownBytes.{Consumes, IsAtEnd, Keeps};

use devices::Source;
use std::io;
use std::marker::Model;

/// How many bytes are read at once.
const CHUNK: usize = 4096;

/// What one read gave.
#[derive(Drop)]
pub struct Undecoded {
    buffer: [u8; CHUNK],
    count: usize,
}

impl Model for Undecoded {
    ghost use Rattle.std.specs.Prelude.{ℕ, List, ◌≤◌, take};

    ghost Value = { List ℕ };

    ghost view = { λ u. take u.count u.buffer };

    ghost invariant = { λ u. u.count ≤ 4096 };
}

impl Undecoded {
    /// Nothing was read.
    pub fn new() -> Undecoded
        ensures { result ≡ [] }
    {
        Undecoded {
            buffer: [0; CHUNK],
            count: 0,
        }
    }

    /// The bytes that wait.
    pub fn bytes(&self) -> &[u8]
        ensures { result.now ≡ self.now }
    {
        &self.buffer[..self.count]
    }

    /// Lets the bytes go.
    pub fn clear(&mut self)
        ensures { self.new ≡ [] }
    {
        self.count = 0;
    }

    /// Reads when nothing waits, and answers how many bytes came: 0 only at the end.
    pub fn read<S: Source>(&mut self, source: &mut S) -> io::Result<usize>
        ensures ok { OnOk result (Consumes (S.remaining source.old) (S.remaining source.new) self.new) }
        ensures end { IfOk result (λ n. n ≡ 0 → (self.new ≡ []) × IsAtEnd (S.remaining source.new)) }
        ensures err { OnErr result (Keeps (S.remaining source.old) (S.remaining source.new)) }
        ensures nothing { OnErr result (self.new ≡ []) }
        ensures no_failure { OnOk result (S.failures source.new ≡ S.failures source.old) }
        ensures failure { OnErr result (S.failures source.new ≡ S.failures source.old + 1) }
    {
        self.count = 0;
        let count = source.read(&mut self.buffer)?;
        self.count = count;
        Ok(count)
    }
}
