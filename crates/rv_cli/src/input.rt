// The input as a whole.
ghost use Rattle.rv_lines.specs.Found.{ReadsPiece};
ghost use Rattle.rv_lines.specs.Reading.{NextLineIsSteady};
ghost use Rattle.rv_cli.specs.Input.{ReadsInput, WholeIsSteady};

use crate::input_fault::InputFault;
use rv_base::{Bytes, Fault, Source};
use std::alloc::Global;

// The most bytes of one read.
const PIECE: usize = 4096;

// The most bytes of an import.
const IMPORT_LIMIT: usize = 16_777_216;

// Takes some bytes from the source, none only at its end. The space is made first, so that nothing that was read is lost.
fn read_more<S: Source>(bytes: &mut Vec<u8>, input: &mut S) -> Result<usize, Fault>
    ensures piece { ReadsPiece bytes.old.items (S.state input.old) bytes.new.items (S.state input.new) result }
    ensures steady { S.fails_no_more input.old → NextLineIsSteady (S.fails_no_more input.new) result }
{
    bytes.reserve(PIECE)?;
    let mut piece = [0; PIECE];
    let count = input.read(&mut piece)?;
    bytes.extend_from_slice(&piece[..count])?;
    Ok(count)
}

/// The bytes of the input, which is read to its end. Where it has more than an import may have, it is read no further than one read
/// beyond that.
pub(crate) fn read_input<S: Source>(alloc: Global, input: &mut S) -> Result<Bytes, InputFault>
    ensures reads { ReadsInput (S.state input.old) (S.state input.new) result }
    ensures steady { S.fails_no_more input.old → WholeIsSteady (S.fails_no_more input.new) result }
{
    let mut bytes = Vec::new(alloc);
    while bytes.len() <= IMPORT_LIMIT {
        let count = read_more(&mut bytes, input)?;
        if count == 0 {
            return Ok(Bytes::from_vec(bytes));
        }
    }
    Err(InputFault::TooLarge)
}
