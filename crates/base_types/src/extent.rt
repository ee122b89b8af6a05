//! Runs of pages.
ghost use Rattle.std.specs.Prelude.{◌≡◌, ◌+◌, ◌/◌, ◌<◌, ◌≤◌, ◌^◌, ◌↔◌, IsSome, IfSome};

/// The bytes of a page.
pub const PAGE_BYTES: u64 = 4096;

/// The most pages of an archive.
pub const MOST_PAGES: u64 = 1 << 28;

/// Bytes that lie from the start of a page on, in as many neighbouring pages as they need.
#[derive(Clone, Copy, Debug, PartialEq, Eq, PartialOrd, Ord, Hash)]
pub struct Extent {
    /// The number of the first page.
    pub first: u32,
    /// How many bytes there are; with none the extent takes no page.
    pub bytes: u64,
    pub ghost in_pages: { first + (bytes + 4095) / 4096 ≤ 2 ^ 28 },
    pub ghost numbered: { first < 2 ^ 32 },
    pub ghost sized: { bytes < 2 ^ 64 },
}

impl Extent {
    /// So many bytes from page `first` on; None where they would reach behind the last page that
    /// an archive may have. Constant cost.
    pub fn new(first: u32, bytes: u64) -> Option<Extent>
        ensures valid { IsSome result ↔ (first + (bytes + 4095) / 4096 ≤ 2 ^ 28) }
        ensures value { IfSome result (λ e. (e.first ≡ first) × (e.bytes ≡ bytes)) }
    {
        if u64::from(first) + bytes.div_ceil(PAGE_BYTES) <= MOST_PAGES {
            Some(Extent { first, bytes })
        } else {
            None
        }
    }

    /// How many pages the bytes take, the last one in part. Constant cost.
    pub fn pages(self) -> u64
        ensures value { result ≡ (self.bytes + 4095) / 4096 }
        ensures in_pages { self.first + result ≤ 2 ^ 28 }
    {
        self.bytes.div_ceil(PAGE_BYTES)
    }
}
