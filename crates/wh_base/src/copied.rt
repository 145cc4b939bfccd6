ghost use Rattle.std.specs.Prelude.{◌≡◌, IfOk};

use crate::seq::Seq;
use crate::txt::Txt;
use crate::values::Value;
use std::alloc::{AllocError, Global};

/// What has copies that are the same value.
pub trait Copied {
    /// The same value again. An error says that memory ran out.
    fn copied(&self, alloc: Global) -> Result<Self, AllocError>
        ensures { IfOk result (λ v. v ≡ self.now) };
}

impl Copied for Txt {
    fn copied(&self, alloc: Global) -> Result<Txt, AllocError> {
        self.copy(alloc)
    }
}

impl Copied for Value {
    fn copied(&self, alloc: Global) -> Result<Value, AllocError> {
        self.copy(alloc)
    }
}

impl<T: Copied + Drop> Copied for Seq<T> {
    fn copied(&self, alloc: Global) -> Result<Seq<T>, AllocError> {
        let mut copy = Seq::new(alloc);
        for item in self.as_slice() {
            copy.push(item.copied(alloc)?)?;
        }
        Ok(copy)
    }
}
