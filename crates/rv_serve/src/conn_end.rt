/// How serving a connection ended.
#[derive(Clone, Copy, Debug, PartialEq, Eq)]
pub enum ConnEnd {
    /// After so many answers: at one that closes, or where the connection ended itself.
    Done(u32),
    /// A read failed.
    ReadFault,
    /// A write failed.
    WriteFault,
    /// Memory was refused outside a turn and outside the reading of a body's JSON. A 503 that closes was tried.
    Memory,
}
