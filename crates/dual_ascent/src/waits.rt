//! Back-off: passes leave out commodities whose last step gained little.

/// The greatest number of passes that a commodity is left out of.
const MOST_PASSES: u8 = 7;

/// How many further passes leave a commodity out, and how many did last time.
#[derive(Clone, Copy)]
pub struct Wait {
    left: u8,
    last: u8,
}

/// No back-off, and none before.
pub const NO_WAIT: Wait = Wait { left: 0, last: 0 };

/// A back-off that outlasts any trial.
pub const LONG_WAIT: Wait = Wait {
    left: u8::MAX,
    last: 0,
};

impl Wait {
    /// Returns whether the next pass leaves the commodity out.
    pub fn goes_on(self) -> bool {
        self.left > 0
    }

    /// Counts a pass, and returns whether it leaves the commodity out.
    pub fn leaves_out(&mut self) -> bool {
        let waits = self.left > 0;
        self.left = self.left.saturating_sub(1);
        waits
    }

    /// Records a step of the commodity. After one that gained little it is left out, about twice as long as last time.
    pub fn follow(&mut self, is_little: bool) {
        if !is_little {
            *self = NO_WAIT;
            return;
        }
        let longer = self.last.min(MOST_PASSES).wrapping_mul(2).wrapping_add(1);
        self.last = longer.min(MOST_PASSES);
        self.left = self.last;
    }

    /// Ends the back-off; the next one is about twice as long.
    pub fn break_off(&mut self) {
        self.left = 0;
    }
}

/// The price of a commodity, and its back-off.
#[derive(Clone, Copy)]
pub struct Quote {
    pub price: u32,
    pub wait: Wait,
}

/// A quote to fill vectors with.
pub const NO_QUOTE: Quote = Quote {
    price: 0,
    wait: NO_WAIT,
};

/// The result of steps of commodities: the gain of the prices, weighted by the flows; the gain that a whole step of
/// each promised, weighted too, in parts of full; and the number of steps.
#[derive(Clone, Copy)]
pub struct Gain {
    pub prices: i64,
    pub promised: i128,
    pub turns: u64,
}

/// No steps.
pub const NO_GAIN: Gain = Gain {
    prices: 0,
    promised: 0,
    turns: 0,
};

impl Gain {
    /// Adds the result of other steps.
    pub fn add(&mut self, other: Gain) {
        self.prices = self.prices.wrapping_add(other.prices);
        self.promised = self.promised.wrapping_add(other.promised);
        self.turns = self.turns.wrapping_add(other.turns);
    }
}
