/// One of the two memories of a canister.
#[derive(Clone, Copy, Debug, PartialEq, Eq)]
pub enum Mem {
    /// The heap.
    Heap,
    /// The stable memory.
    Stable,
}
