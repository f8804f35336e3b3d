use csv::Error;
use rv_base::Memory;

// What an error of `csv` over bytes in memory is. A slice and a vector fail for want of memory alone, which no clause of `csv` says.
pub(crate) fn memory_of(_error: Error) -> Memory {
    Memory
}
