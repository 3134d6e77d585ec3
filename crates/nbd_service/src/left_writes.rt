//! WRITEs that sessions left waiting.

ghost use Rattle.std.specs.Prelude.{◌≡◌, nat_le};
ghost use Rattle.nbd_service.specs.LeftWrites.{left_with};

/// The WRITEs of an export that sessions left waiting as they ended.
#[derive(Clone, Copy, Debug, PartialEq, Eq, Drop)]
pub struct LeftWrites {
    /// How many bytes they carry.
    pub bytes: u64,
    /// How many of the export's requests were chosen since its start, once none of them waits any more.
    pub until: u64,
}

impl LeftWrites {
    pub const NONE: LeftWrites = LeftWrites { bytes: 0, until: 0 };

    /// With so many bytes more, which were left when so many of the export's requests had been chosen and so many waited. An export's
    /// requests are chosen in the order in which they came.
    pub fn with(self, bytes: u64, chosen: u64, waiting: u64) -> LeftWrites
        ensures { result ≡ left_with bytes chosen waiting self }
    {
        LeftWrites {
            bytes: self.bytes.saturating_add(bytes),
            until: self.until.max(chosen.saturating_add(waiting)),
        }
    }

    /// Whether none of them waits any more, where so many were chosen.
    pub fn are_chosen(self, chosen: u64) -> bool
        ensures { result ≡ nat_le self.until chosen }
    {
        self.until <= chosen
    }
}
