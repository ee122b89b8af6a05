//! Gates: the byte in front of each record that says whether it is there.
ghost use Rattle.std.specs.Prelude.{◌≡◌, ◌⊎◌, ◌+◌, ◌<◌, ◌≤◌, ℕ, List, length, take};
ghost use Rattle.std.specs.Int.{w32, to_be_bytes};
ghost use Rattle.journal_gates.specs.Records.{gate_bytes};
ghost use Rattle.journal_gates.specs.Scanning.{LiesAt};

/// The byte of a gate that is open. With every other byte it is closed.
pub(crate) const OPEN_GATE: u8 = 0xa5;

/// The byte with which a gate is written closed.
pub(crate) const CLOSED_GATE: u8 = 0;

/// What lies at a gate.
#[derive(Clone, Copy, Debug, PartialEq, Eq)]
pub(crate) enum Gate {
    Closed,
    /// A record whose body has so many bytes, with the place of a next gate behind it.
    Open(u32),
    /// An open gate whose length isn't whole, or whose next gate lies past the end.
    CutShort,
}

/// The bytes of a gate and of the length behind it.
pub const GATE_BYTES: u64 = 5;

// The length that stands behind a gate.
fn spelled_count(bytes: &[u8]) -> u32
    requires { length bytes.now ≡ 4 }
    ensures { to_be_bytes w32 result ≡ bytes.now }
{
    u32::from_be_bytes([bytes[0], bytes[1], bytes[2], bytes[3]])
}

// What lies at a gate, from the bytes from there on: the gate and its length, or all that are left.
pub(crate) fn gate_in(bytes: &[u8], left: u64) -> Gate
    requires some { 1 ≤ length bytes.now }
    requires within { length bytes.now ≤ left }
    requires enough { (gate_bytes ≤ length bytes.now) ⊎ (length bytes.now ≡ left) }
    ensures lies { (all : List ℕ) → length all ≡ left → bytes.now ≡ take (length bytes.now) all → LiesAt all result }
    ensures fits { (count : ℕ) → result ≡ Gate.Open count → gate_bytes + count < left }
{
    if bytes[0] != OPEN_GATE {
        return Gate::Closed;
    }
    if (bytes.len() as u64) < GATE_BYTES {
        return Gate::CutShort;
    }
    let count = spelled_count(&bytes[1..5]);
    if GATE_BYTES + u64::from(count) < left {
        Gate::Open(count)
    } else {
        Gate::CutShort
    }
}
