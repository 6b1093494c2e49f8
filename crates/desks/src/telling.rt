//! What may be sent.

ghost use Rattle.std.specs.Prelude.{ℕ};

/// An item that may be sent where it holds under the key.
pub trait Told<K> {
    // What holds of it under a key.
    ghost holds: { K → Self → Type 0 };

    /// The number of the task whose result this is.
    fn turn(&self) -> u64;
}
