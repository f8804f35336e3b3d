/// Where an item stands in its chunks, or where one may go: a chunk, and an offset in it.
#[derive(Clone, Copy, Debug)]
pub struct At {
    /// The number of the chunk.
    pub chunk: usize,
    /// How many items of the chunk stand before it.
    pub offset: usize,
}
