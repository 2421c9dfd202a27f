//! Sources: what bytes are read from.
ghost use Rattle.std.specs.Prelude.{◌≡◌, ℕ, ◌+◌, ◌<◌, List, length, vec_len, Option, IfOk, IfErr, IfSome, OnOk, OnErr};
ghost use Rattle.std.specs.Io.{ReadsAtMost, StartsWith, appended_bytes};
ghost use Rattle.std.specs.Io.KnownBytes.{ReadConsumes, Consumes, IsAtEnd};
ghost use Rattle.devices.specs.Device.{Metered, IsReadFault, reported_failures, ConsumesBeginning};

use crate::fault::Fault;
use ghost_counts::Count;
use std::alloc::Allocator;
use std::io;
use std::io::Read;
use std::marker::Model;

/// How many bytes are read at once.
const CHUNK: usize = 8192;

/// What bytes are read from. It reads as `Read` does, and counts its failures for contracts.
pub trait Source {
    // The bytes that reads will give from here on, or `None`, which claims nothing.
    ghost remaining: { Self → Option (List ℕ) };

    // How many reads failed.
    ghost failures: { Self → ℕ };

    /// Reads some bytes into the front of `buf`, and answers how many.
    fn read(&mut self, buf: &mut [u8]) -> io::Result<usize>
        ensures bound { ReadsAtMost result buf.new }
        ensures bytes { ReadConsumes (remaining self.old) (remaining self.new) result buf.new }
        ensures ok { OnOk result (failures self.new ≡ failures self.old) }
        ensures err { OnErr result (failures self.new ≡ failures self.old + 1) };
}

/// Any reader as a source.
#[derive(Drop)]
pub struct ReadSource<R> {
    inner: R,
    failures: Count,
}

impl<R> Model for ReadSource<R> {
    ghost Value = { Metered R };

    ghost view = { λ s. record { inner = s.inner; failures = s.failures.total } };
}

impl<R> ReadSource<R> {
    pub fn new(inner: R) -> ReadSource<R>
        ensures inner { result.inner ≡ inner }
        ensures failures { result.failures ≡ 0 }
    {
        ReadSource {
            inner,
            failures: Count::new(),
        }
    }

    pub fn into_inner(self) -> R
        ensures { result ≡ self.inner }
    {
        self.inner
    }
}

impl<R: Read> Source for ReadSource<R> {
    ghost remaining = { λ s. R.remaining s.inner };

    ghost failures = { λ s. s.failures };

    fn read(&mut self, buf: &mut [u8]) -> io::Result<usize> {
        match self.inner.read(buf) {
            Ok(n) => Ok(n),
            Err(e) => {
                self.failures.add(1);
                Err(e)
            }
        }
    }
}

/// Reads `source` to its end. No read is tried again after it failed, and a source without an end
/// is read until memory runs out.
pub fn read_to_end<R: Source, A: Allocator>(alloc: A, source: &mut R) -> Result<Vec<u8, A>, Fault>
    ensures ok { IfOk result (λ bytes. IfSome (R.remaining source.old) (λ xs. bytes.items ≡ xs)) }
    ensures end { OnOk result (IsAtEnd (R.remaining source.new)) }
    ensures in_order { ConsumesBeginning (R.remaining source.old) (R.remaining source.new) }
    ensures failures { R.failures source.new ≡ R.failures source.old + reported_failures result }
    ensures any_bytes { IfErr result IsReadFault }
{
    let mut bytes = Vec::new(alloc);
    let mut buffer = [0; CHUNK];
    loop {
        if read_more(source, &mut buffer, &mut bytes)? == 0 {
            return Ok(bytes);
        }
    }
}

// One read through `buffer`, whose bytes go to the end of `bytes`.
fn read_more<R: Source, A: Allocator>(
    source: &mut R,
    buffer: &mut [u8],
    bytes: &mut Vec<u8, A>,
) -> Result<usize, Fault>
    requires { 0 < length buffer.old }
    ensures count { IfOk result (λ n. vec_len bytes.new ≡ vec_len bytes.old + n) }
    ensures appends { StartsWith bytes.new.items bytes.old.items }
    ensures ok { OnOk result (Consumes (R.remaining source.old) (R.remaining source.new)
        (appended_bytes bytes.old.items bytes.new.items)) }
    ensures end { IfOk result (λ n. n ≡ 0 → IsAtEnd (R.remaining source.new)) }
    ensures err { OnErr result (ConsumesBeginning (R.remaining source.old) (R.remaining source.new)) }
    ensures failures { R.failures source.new ≡ R.failures source.old + reported_failures result }
    ensures any_bytes { IfErr result IsReadFault }
{
    let Ok(n) = source.read(buffer) else {
        return Err(Fault::Device);
    };
    bytes.extend_from_slice(&buffer[..n])?;
    Ok(n)
}
