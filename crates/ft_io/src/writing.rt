//! Writing all of some bytes, however few of them a sink takes in a call.

ghost use Rattle.std.specs.Prelude.{◌≡◌, ◌≤◌, OnOk, OnErr};
ghost use Rattle.std.specs.Io.KnownBytes.{Appends};
ghost use Rattle.ft_io.specs.Faults.{Rose};
ghost use Rattle.ft_io.specs.Sink.{AppendsFront};

use crate::{Failed, Sink};

/// Writes all of `bytes`, in as many calls as the sink needs. It stops at the first call that fails. The sink then took a prefix of them. The count of faults
/// rises only at `Failed`.
pub fn write_all<O: Sink>(out: &mut O, bytes: &[u8]) -> Result<(), Failed>
    ensures whole { OnOk result (Appends (O.taken out.old) (O.taken out.new) bytes.now) }
    ensures front { OnErr result (AppendsFront (O.taken out.old) (O.taken out.new) bytes.now) }
    ensures cause { OnErr result (Rose (O.fault_count out.old) (O.fault_count out.new)) }
    ensures no_fault { OnOk result (O.fault_count out.new ≡ O.fault_count out.old) }
    ensures never_falls { O.fault_count out.old ≤ O.fault_count out.new }
{
    let mut rest = bytes;
    while !rest.is_empty() {
        let n = out.write(rest)?;
        rest = &rest[n..];
    }
    Ok(())
}
