ghost use Rattle.std.specs.Prelude.{◌≡◌, ◌≢◌, [], ◌<◌, ◌≤◌, length, take, IfOk, OnErr, OnOk};
ghost use Rattle.conc_outside.specs.Counts.{Rose};
ghost use Rattle.conc_outside.specs.Taken.{SinkState, Took, TookPrefix};

use crate::Failed;

/// A sink that takes bytes.
pub trait Sink {
    /// The bytes taken so far, if the sink exposes them, and how often a write failed, a count that never
    /// falls.
    ghost state: { Self → SinkState };

    /// Takes some of the bytes, from the first on, and says how many: at least one, unless there is
    /// none. A sink that can take nothing fails.
    fn write(&mut self, piece: &[u8]) -> Result<usize, Failed>
        ensures faults { (state self.old).faults ≤ (state self.new).faults }
        ensures within { IfOk result (λ n. n ≤ length piece.now) }
        ensures some { IfOk result (λ n. piece.now ≢ [] → 0 < n) }
        ensures taken { IfOk result (λ n. Took (state self.old).taken (state self.new).taken
            (take n piece.now)) }
        ensures unchanged { OnErr result ((state self.new).taken ≡ (state self.old).taken) }
        ensures failed { OnErr result (Rose (state self.old).faults (state self.new).faults) };
}

/// Writes all the bytes. After a failure the sink has taken a prefix of them.
pub fn write_all<O: Sink>(out: &mut O, bytes: &[u8]) -> Result<(), Failed>
    ensures faults { (O.state out.old).faults ≤ (O.state out.new).faults }
    ensures taken { OnOk result (Took (O.state out.old).taken (O.state out.new).taken bytes.now) }
    ensures part { OnErr result (TookPrefix (O.state out.old).taken (O.state out.new).taken
        bytes.now) }
    ensures failed { OnErr result (Rose (O.state out.old).faults (O.state out.new).faults) }
{
    let mut rest = bytes;
    while !rest.is_empty() {
        let n = out.write(rest)?;
        rest = &rest[n..];
    }
    Ok(())
}
