// The mutations of an import, one after another.
ghost use Rattle.std.specs.Prelude.{◌≡◌, ◌<◌, ◌≤◌, ◌^◌, IfOk, IfSome, IfNone, length, option_map};
ghost use Rattle.csv.specs.Records.{fields_of};
ghost use Rattle.rv_import.specs.Imports.{asked_of, bad_at, call_of_record, client_id, todo_id, import_limit};
ghost use Rattle.rv_import.specs.Steps.{HasImportHeader, NextAsked};
ghost use Rattle.rv_import.specs.declared.import_records.Stop.TheVariants as stops;

use crate::import_calls::{call_of_record, is_import_header};
use crate::importing::{ImportName, import_client, import_todo};
use csv::ByteRecord;
use rv_base::{Memory, Num, User};
use rv_csv::Records;
use rv_turns::Mutation;
use std::alloc::Global;
use std::marker::Model;

// Why there is no next mutation.
#[derive(Clone, Copy)]
pub(crate) enum Stop {
    // No record is left.
    End,
    // The record of this number is not of the form.
    BadRecord(u32),
    // Memory was refused.
    Memory,
}

impl From<Memory> for Stop {
    ghost from_gives = { λ _ stop. stop ≡ stops.Memory };

    fn from(_error: Memory) -> Stop {
        Stop::Memory
    }
}

// The mutations that an import still asks for. Of its records one is held at a time.
#[derive(Drop)]
pub(crate) struct ImportRecords<'a> {
    user: &'a User,
    name: &'a ImportName,
    records: Records<'a>,
    fields: ByteRecord,
    number: u32,
}

impl<'a> Model for ImportRecords<'a> {
    ghost use Rattle.std.specs.Prelude.{ℕ, ◌+◌, ◌<◌, ◌^◌, length};
    ghost use Rattle.rv_import.specs.Imports.{Asked, asked_from};

    ghost Value = { Asked };

    ghost view = { λ s. asked_from s.user.now s.name.now s.number s.records };

    ghost invariant = { λ s. s.number + length s.records < 2 ^ 32 };
}

// Goes past the header, where it is the next record.
fn go_past_header(records: &mut Records<'_>, fields: &mut ByteRecord) -> Result<bool, Memory>
    ensures { IfOk result (λ found. HasImportHeader found records.old records.new) }
{
    if !records.read(fields)? {
        return Ok(false);
    }
    Ok(is_import_header(fields))
}

// The mutation of the record of this number, where it is of the form.
fn mutation_of(
    alloc: Global,
    user: &User,
    name: &ImportName,
    number: u32,
    fields: &ByteRecord,
) -> Result<Option<Mutation>, Memory>
    ensures { IfOk result (λ o. o ≡ option_map (λ call. record { client = client_id user.now name.now; id = number; call = call }) (call_of_record (todo_id user.now name.now number) (fields_of fields.now))) }
{
    let todo = import_todo(alloc, user, name, number)?;
    let Some(call) = call_of_record(alloc, todo, fields)? else {
        return Ok(None);
    };
    let client = import_client(alloc, user, name)?;
    Ok(Some(Mutation {
        client,
        id: Num::from_u64(u64::from(number)),
        call,
    }))
}

impl<'a> ImportRecords<'a> {
    // The mutations of these bytes, where their first record is the header.
    pub(crate) fn new(
        alloc: Global,
        user: &'a User,
        name: &'a ImportName,
        bytes: &'a [u8],
    ) -> Result<Option<ImportRecords<'a>>, Memory>
        requires { length bytes.now ≤ import_limit }
        ensures found { IfOk result (λ o. IfSome o (λ asked. asked ≡ asked_of user.now name.now bytes.now)) }
        ensures few { IfOk result (λ o. IfSome o (λ asked. length asked.mutations < 2 ^ 32)) }
        ensures none { IfOk result (λ o. IfNone o (asked_of user.now name.now bytes.now ≡ bad_at 0)) }
    {
        let mut records = Records::new(alloc, bytes);
        let mut fields = ByteRecord::new(alloc);
        if !go_past_header(&mut records, &mut fields)? {
            return Ok(None);
        }
        Ok(Some(ImportRecords {
            user,
            name,
            records,
            fields,
            number: 1,
        }))
    }

    // The next mutation. After an `Err` it is not asked again.
    pub(crate) fn next(&mut self, alloc: Global) -> Result<Mutation, Stop>
        ensures { NextAsked self.old self.new result }
    {
        if !self.records.read(&mut self.fields)? {
            return Err(Stop::End);
        }
        let number = self.number;
        match mutation_of(alloc, self.user, self.name, number, &self.fields)? {
            Some(mutation) => {
                self.number = number + 1;
                Ok(mutation)
            }
            None => Err(Stop::BadRecord(number)),
        }
    }
}
