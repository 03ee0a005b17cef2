//! The records of a register, one after another.

ghost use Rattle.std.specs.Prelude.{◌≡◌, ◌∷◌, [], true, false, None, Some, Ok, Err, length};
ghost use Rattle.csv.specs.Reading.{expected_len};
ghost use Rattle.csv.specs.Records.{fields_of};
ghost use Rattle.call_file.specs.declared.records.RowFault.TheVariants.{Memory as no_memory};
ghost use Rattle.call_file.specs.Records.{BeginsUneven, IsReading, fault_at, rows_left, rows_of};

use crate::OpenFault;
use csv::{ByteRecord, ErrorKind, Reader, ReaderBuilder};
use house_base::Memory;
use std::alloc::Global;

/// Why a record was not taken.
#[derive(Clone, Copy, Debug, PartialEq, Eq)]
pub(crate) enum RowFault {
    /// It is not of its form.
    Off,
    Memory,
}

impl RowFault {
    /// What the fault is at the record of a number.
    pub(crate) fn at(self, number: u64) -> OpenFault
        ensures { result ≡ fault_at number self }
    {
        match self {
            RowFault::Off => OpenFault::BadRegister(number),
            RowFault::Memory => OpenFault::Memory,
        }
    }
}

impl From<Memory> for RowFault {
    ghost from_gives = { λ _ fault. fault ≡ no_memory };

    fn from(_: Memory) -> Self {
        RowFault::Memory
    }
}

/// A reader at the first record of a register.
pub(crate) fn reader_of(alloc: Global, register: &[u8]) -> Reader<&[u8]>
    ensures reading { IsReading result }
    ensures first { expected_len result ≡ None }
    ensures all { rows_left result ≡ rows_of register.now }
{
    ReaderBuilder::new()
        .has_headers(false)
        .from_reader(alloc, register)
}

/// Reads the next record into the row. False where there is none.
pub(crate) fn next_row(reader: &mut Reader<&[u8]>, row: &mut ByteRecord) -> Result<bool, RowFault>
    requires { IsReading reader.old }
    ensures reading { result ≡ Ok true → IsReading reader.new }
    ensures found { result ≡ Ok true → rows_left reader.old ≡ fields_of row.new ∷ rows_left reader.new }
    ensures width { result ≡ Ok true → expected_len reader.new ≡ Some (length (fields_of row.new)) }
    ensures end { result ≡ Ok false → rows_left reader.old ≡ [] }
    ensures uneven { result ≡ Err RowFault.Off → BeginsUneven (expected_len reader.old) (rows_left reader.old) }
{
    match reader.read_byte_record(row) {
        Ok(found) => Ok(found),
        Err(error) => match error.kind() {
            ErrorKind::UnequalLengths { .. } => Err(RowFault::Off),
            _ => Err(RowFault::Memory),
        },
    }
}
