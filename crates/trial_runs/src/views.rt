// Views that are read back from CSV.
use rv_base::Memory;
use rv_csv::{ViewFault, read_view};
use std::alloc::Global;
use trial_stage::Part::{Number, Text};
use trial_stage::joined;

/// `view` reads the input as the CSV of a view, and prints how many rows it has, or the number of the first record that is not of the
/// form.
pub fn read(alloc: Global, input: &[u8]) -> Result<String, Memory> {
    match read_view(alloc, input) {
        Ok(view) => {
            let rows = view.len() as u64;
            joined(alloc, &[Number(rows), Text(" rows\n")])
        }
        Err(ViewFault::BadRecord(number)) => {
            joined(alloc, &[Text("bad record "), Number(number), Text("\n")])
        }
        Err(ViewFault::Memory) => Err(Memory),
    }
}
