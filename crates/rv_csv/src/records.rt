ghost use Rattle.std.specs.Prelude.{◌≡◌, ◌∷◌, [], IfOk, OnErr, true, false};
ghost use Rattle.csv.specs.Records.{fields_of};
ghost use Rattle.rv_csv.specs.Records.{records_of};
ghost use Rattle.rv_csv.specs.Left.{Takes};

use crate::errors::memory_of;
use csv::{ByteRecord, Reader, ReaderBuilder};
use rv_base::Memory;
use std::alloc::Global;
use std::marker::Model;

/// The records of bytes that are still to come. Records of any number of fields are read, and each is judged by who asked for it.
///
/// No clause of `csv` says that its reader can't fail over bytes in memory, which it can't. Such a failure is answered as want of
/// memory, which a caller has to expect at any record. After an `Err` there are no more records.
#[derive(Drop)]
pub struct Records<'a> {
    reader: Reader<&'a [u8]>,
    is_over: bool,
}

impl<'a> Model for Records<'a> {
    ghost use Rattle.std.specs.Prelude.{List, ◌≡◌, false};
    ghost use Rattle.rv_csv.specs.Records.{Record};
    ghost use Rattle.rv_csv.specs.Left.{left_in, StandsBetween};

    ghost Value = { List Record };

    ghost view = { λ s. left_in s.is_over s.reader };

    ghost invariant = { λ s. s.is_over ≡ false → StandsBetween s.reader };
}

impl<'a> Records<'a> {
    /// The records of these bytes.
    pub fn new(alloc: Global, bytes: &'a [u8]) -> Records<'a>
        ensures { result ≡ records_of bytes.now }
    {
        let reader = ReaderBuilder::new()
            .has_headers(false)
            .flexible(true)
            .from_reader(alloc, bytes);
        Records {
            reader,
            is_over: false,
        }
    }

    /// Makes the buffer the next record, and answers whether there was one. After want of memory there are no more records.
    pub fn read(&mut self, fields: &mut ByteRecord) -> Result<bool, Memory>
        ensures reads { IfOk result (λ found. Takes found (fields_of fields.new) self.old self.new) }
        ensures ends { IfOk result (λ found. found ≡ false → self.new ≡ []) }
        ensures fails { OnErr result (self.new ≡ []) }
    {
        if self.is_over {
            return Ok(false);
        }
        match self.reader.read_byte_record(fields) {
            Ok(found) => {
                self.is_over = !found;
                Ok(found)
            }
            Err(error) => {
                self.is_over = true;
                Err(memory_of(error))
            }
        }
    }
}
