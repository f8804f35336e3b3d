ghost use Rattle.rv_base.specs.Outside.{Writes, IsSteady};

use crate::outside::{Failed, Sink};

/// Writes the whole text, in as many writes as it takes. After a write that fails the sink has a front of it, and nothing
/// more is written.
pub fn write_all<O: Sink>(out: &mut O, text: &[u8]) -> Result<(), Failed>
    ensures writes { Writes (O.state out.old) (O.state out.new) result text.now }
    ensures steady { O.fails_no_more out.old → IsSteady (O.fails_no_more out.new) (O.state out.old) (O.state out.new) result }
{
    let mut rest = text;
    while !rest.is_empty() {
        let taken = out.write(rest)?;
        rest = &rest[taken..];
    }
    Ok(())
}
