use rv_base::Bytes;

/// How far a place has come with the store of its run.
#[derive(Drop)]
pub enum Opened<S, K> {
    /// No store was opened yet. This stands for what the file held.
    Not(S),
    /// The keeper of the store of this name is out.
    Out(Bytes),
    /// The keeper of the store of this name came back.
    Back(Bytes, K),
    /// It is not known: the opening failed, or a keeper came back that was not out.
    Lost,
}
