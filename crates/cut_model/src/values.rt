//! Values of nodes in sixteen bytes.

ghost use Rattle.std.specs.Prelude.{◌≡◌, ◌<◌, ◌^◌};
ghost use Rattle.cut_model.specs.Values.{listed_value};

/// What the lowest 64 bits of a value count up to.
const LOW: u128 = 1 << 64;

/// What the 32 bits above these count up to.
const MIDDLE: u128 = 1 << 32;

/// A node with its value: the lowest 64 bits of the value, the 32 above these, and the 16 above those.
#[derive(Clone, Copy)]
pub(crate) struct StatedValue {
    low: u64,
    middle: u32,
    high: u16,
    node: u8,
}

impl StatedValue {
    /// The node with this value.
    pub(crate) fn new(node: u32, value: u128) -> StatedValue
        requires node { node < 2 ^ 8 }
        requires value { value < 2 ^ 112 }
        ensures { listed_value result ≡ (node, value) }
    {
        let above = value / LOW;
        StatedValue {
            low: (value % LOW) as u64,
            middle: (above % MIDDLE) as u32,
            high: (above / MIDDLE) as u16,
            node: node as u8,
        }
    }

    /// The node.
    pub(crate) fn node(&self) -> u32
        ensures { result ≡ (listed_value self.now).0 }
    {
        u32::from(self.node)
    }

    /// The value.
    pub(crate) fn value(&self) -> u128
        ensures { result ≡ (listed_value self.now).1 }
    {
        let above = u128::from(self.middle) + MIDDLE * u128::from(self.high);
        u128::from(self.low) + LOW * above
    }
}
