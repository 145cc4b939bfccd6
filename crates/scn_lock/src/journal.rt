//! Values that stand for a list of numbered events.
ghost use Rattle.std.specs.Prelude.{◌≡◌, ℕ, List, length};

/// A value that stands for a journal, so that a lock can go round it.
///
/// The lock knows the value by its journal alone, and an event by its number alone.
pub trait Journaled {
    type Event;

    /// The events that the value stands for, oldest first.
    ghost journal: { Self → List Self.Event };

    /// The number that an event bears. A turn adds events only with the number of its pass.
    ghost number: { Self.Event → ℕ };

    /// How many events the journal has. It takes no memory.
    fn entries(&self) -> u64
        ensures { result ≡ length (journal self.now) };
}
