//! Targets: what bytes are written to.
ghost use Rattle.std.specs.Prelude.{◌≡◌, ℕ, ◌+◌, List, [], Option, IfErr, IsOk, OnOk, OnErr};
ghost use Rattle.std.specs.Io.{WritesAtMost};
ghost use Rattle.std.specs.Io.KnownBytes.{WriteAppends, Appends};
ghost use Rattle.devices.specs.Device.{Metered, failed_writes, reported_failures, AppendsBeginning};

use crate::fault::Fault;
use ghost_counts::Count;
use std::io;
use std::io::Write;
use std::marker::Model;

/// What bytes are written to. It writes as `Write` does, and counts its failures for contracts.
pub trait Target {
    // The bytes that it holds, or `None`, which claims nothing.
    ghost contents: { Self → Option (List ℕ) };

    // How many writes failed.
    ghost failures: { Self → ℕ };

    /// Writes some bytes of the front of `buf`, and answers how many.
    fn write(&mut self, buf: &[u8]) -> io::Result<usize>
        ensures bound { WritesAtMost result buf.now }
        ensures bytes { WriteAppends (contents self.old) (contents self.new) result buf.now }
        ensures failures { failures self.new ≡ failures self.old + failed_writes result buf.now };
}

/// Any writer as a target.
#[derive(Drop)]
pub struct WriteTarget<W> {
    inner: W,
    failures: Count,
}

impl<W> Model for WriteTarget<W> {
    ghost Value = { Metered W };

    ghost view = { λ t. record { inner = t.inner; failures = t.failures.total } };
}

impl<W> WriteTarget<W> {
    pub fn new(inner: W) -> WriteTarget<W>
        ensures inner { result.inner ≡ inner }
        ensures failures { result.failures ≡ 0 }
    {
        WriteTarget {
            inner,
            failures: Count::new(),
        }
    }

    pub fn into_inner(self) -> W
        ensures { result ≡ self.inner }
    {
        self.inner
    }
}

impl<W: Write> Target for WriteTarget<W> {
    ghost contents = { λ t. W.contents t.inner };

    ghost failures = { λ t. t.failures };

    fn write(&mut self, buf: &[u8]) -> io::Result<usize> {
        match self.inner.write(buf) {
            Ok(0) if !buf.is_empty() => {
                self.failures.add(1);
                Ok(0)
            }
            Ok(n) => Ok(n),
            Err(e) => {
                self.failures.add(1);
                Err(e)
            }
        }
    }
}

/// Writes all of `bytes`. No write is tried again after it failed, and one that takes none of the
/// bytes that are left has failed.
pub fn write_all<W: Target>(target: &mut W, bytes: &[u8]) -> Result<(), Fault>
    ensures ok { OnOk result (Appends (W.contents target.old) (W.contents target.new) bytes.now) }
    ensures err { OnErr result
        (AppendsBeginning (W.contents target.old) (W.contents target.new) bytes.now) }
    ensures only_device { IfErr result (λ fault. fault ≡ Fault.Device) }
    ensures failures { W.failures target.new ≡ W.failures target.old + reported_failures result }
    ensures empty { bytes.now ≡ [] → IsOk result × (target.new ≡ target.old) }
{
    let mut rest = bytes;
    while !rest.is_empty() {
        match target.write(rest) {
            Ok(0) => return Err(Fault::Device),
            Ok(n) => rest = &rest[n..],
            Err(_) => return Err(Fault::Device),
        }
    }
    Ok(())
}
