//! What a request costs.
ghost use Rattle.std.specs.Prelude.{◌≡◌};
ghost use Rattle.turn_order.specs.Flows.{units_of};

/// The bytes of a unit.
const UNIT: u32 = 16_384;

/// Of a request that carries so many bytes of data: one unit for each 16 KiB begun, and one at least.
pub fn cost_of(length: u32) -> u32
    ensures { result ≡ units_of length }
{
    let whole = length / UNIT;
    let units = if length % UNIT == 0 { whole } else { whole + 1 };
    units.max(1)
}
