ghost use Rattle.std.specs.Prelude.{◌≡◌, IfOk};

use std::alloc::AllocError;
use wh_base::shared::Shared;

/// What can stand in a list again without a copy of what it holds.
pub(crate) trait Again {
    /// The same value. An error says that it has too many owners.
    fn again(&self) -> Result<Self, AllocError>
        ensures { IfOk result (λ v. v ≡ self.now) };
}

impl Again for u32 {
    fn again(&self) -> Result<u32, AllocError> {
        Ok(*self)
    }
}

impl<T: Drop> Again for Shared<T> {
    fn again(&self) -> Result<Shared<T>, AllocError> {
        self.share()
    }
}
