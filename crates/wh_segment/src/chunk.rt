ghost use Rattle.std.specs.Prelude.{◌≡◌, ◌<◌, ◌^◌, [], ◌∷◌, ◌++◌, IfOk, OnErr, OnOk, length, slice_get, slice_set};
ghost use Rattle.std.specs.Option.{option_copied};

use std::alloc::{AllocError, Global};
use std::marker::Model;
use std::sync::Arc;
use wh_base::copied::Copied;

/// A part of a list that several lists may share. Contracts see it as the list of its items. A change of it is seen by its
/// owner alone: where there are other owners, the items are copied first.
#[derive(Drop)]
pub struct Chunk<T> {
    items: Arc<Vec<T>, Global>,
}

impl<T> Model for Chunk<T> {
    ghost use Rattle.std.specs.Prelude.{List};
    ghost use Rattle.std.specs.Coded.{coded_list};

    ghost Value = { List T };

    ghost coded = { coded_list T.code };

    ghost view = { λ c. c.items.value.items };
}

impl<T: Copied + Drop> Chunk<T> {
    /// A chunk of one item.
    pub fn one(alloc: Global, item: T) -> Result<Chunk<T>, AllocError>
        ensures { IfOk result (λ c. c ≡ item ∷ []) }
    {
        let mut items = Vec::new(alloc);
        items.push(item)?;
        Ok(Chunk {
            items: Arc::new(alloc, items)?,
        })
    }

    /// How many items there are.
    pub fn len(&self) -> usize
        ensures { result ≡ length self.now }
    {
        self.items.len()
    }

    /// The item at a place; `None` exactly where there is none.
    pub fn get(&self, at: usize) -> Option<&T>
        ensures { option_copied result ≡ slice_get self.now at }
    {
        self.items.get(at)
    }

    /// One more owner of the same items.
    pub fn share(&self) -> Result<Chunk<T>, AllocError>
        ensures { IfOk result (λ c. c ≡ self.now) }
    {
        Ok(Chunk {
            items: Arc::try_clone(&self.items)?,
        })
    }

    // One owner: where there are others, the items are copied, with memory for one more.
    fn unshare(&mut self, alloc: Global) -> Result<(), AllocError>
        ensures { self.new ≡ self.old }
    {
        match Arc::get_mut(&mut self.items) {
            Some(_) => Ok(()),
            None => {
                let items = copied_items(alloc, self.items.as_slice())?;
                self.items = Arc::new(alloc, items)?;
                Ok(())
            }
        }
    }

    /// One more item at the end. After an error, which says that memory ran out, the chunk is as it was.
    pub fn push(&mut self, alloc: Global, item: T) -> Result<(), AllocError>
        ensures ok { OnOk result (self.new ≡ self.old ++ item ∷ []) }
        ensures err { OnErr result (self.new ≡ self.old) }
    {
        self.unshare(alloc)?;
        match Arc::get_mut(&mut self.items) {
            Some(items) => items.push(item)?,
            // (it has one owner now)
            None => return Err(AllocError),
        }
        Ok(())
    }

    /// Puts an item at a place. After an error, which says that memory ran out, the chunk is as it was.
    pub fn set(&mut self, alloc: Global, at: usize, item: T) -> Result<(), AllocError>
        requires { at < length self.old }
        ensures ok { OnOk result (self.new ≡ slice_set self.old at item) }
        ensures err { OnErr result (self.new ≡ self.old) }
    {
        self.unshare(alloc)?;
        match Arc::get_mut(&mut self.items) {
            Some(items) => items[at] = item,
            None => return Err(AllocError),
        }
        Ok(())
    }

    /// Puts an item at a place and one more at the end. After an error, which says that memory ran out, the chunk is as it
    /// was.
    pub fn set_and_push(
        &mut self,
        alloc: Global,
        at: usize,
        item: T,
        more: T,
    ) -> Result<(), AllocError>
        requires { at < length self.old }
        ensures ok { OnOk result (self.new ≡ slice_set self.old at item ++ more ∷ []) }
        ensures err { OnErr result (self.new ≡ self.old) }
    {
        self.unshare(alloc)?;
        match Arc::get_mut(&mut self.items) {
            Some(items) => {
                items.reserve(1)?;
                items[at] = item;
                items.push_reserved(more);
            }
            None => return Err(AllocError),
        }
        Ok(())
    }

    /// Puts an item at a place, and one more at the end of another chunk. After an error, which says that memory ran out,
    /// both chunks are as they were.
    pub fn set_beside(
        &mut self,
        alloc: Global,
        at: usize,
        item: T,
        last: &mut Chunk<T>,
        more: T,
    ) -> Result<(), AllocError>
        requires { at < length self.old }
        ensures ok { OnOk result (self.new ≡ slice_set self.old at item) }
        ensures more { OnOk result (last.new ≡ last.old ++ more ∷ []) }
        ensures err { OnErr result (self.new ≡ self.old) }
        ensures same { OnErr result (last.new ≡ last.old) }
    {
        self.unshare(alloc)?;
        match Arc::get_mut(&mut self.items) {
            Some(items) => {
                last.push(alloc, more)?;
                items[at] = item;
            }
            None => return Err(AllocError),
        }
        Ok(())
    }
}

/// The same items, with memory for one more. An error says that memory ran out.
fn copied_items<T: Copied + Drop>(alloc: Global, items: &[T]) -> Result<Vec<T>, AllocError>
    requires { length items.now < 2 ^ 63 }
    ensures { IfOk result (λ copy. copy.items ≡ items.now) }
{
    let mut copy = Vec::with_capacity(alloc, items.len() + 1)?;
    for item in items {
        copy.push(item.copied(alloc)?)?;
    }
    Ok(copy)
}
