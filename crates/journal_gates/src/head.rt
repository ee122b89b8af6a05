/// Where a record of a journal lies.
#[derive(Clone, Copy, Debug, PartialEq, Eq)]
pub struct Head {
    /// The place of its gate.
    pub gate: u64,
    /// The place of its body, 5 bytes behind the gate.
    pub body: u64,
    /// The length of its body, in bytes.
    pub bytes: u32,
}
