ghost use Rattle.std.specs.Prelude.{◌≡◌, ◌<◌, ◌^◌, [], ◌∷◌, ◌++◌, IfOk, OnErr, OnOk, length, slice_get, slice_set};
ghost use Rattle.std.specs.Option.{option_copied};

use crate::chunk_list::ChunkList;
use std::alloc::{AllocError, Global};
use std::marker::Model;
use std::sync::Arc;
use wh_base::copied::Copied;

/// A list in chunks that copies share as a whole. The first change of a list that has other owners makes it a list of its
/// own, which still shares the chunks. So a copy costs the same for every length. Contracts see it as the list of its items.
#[derive(Drop)]
pub struct SharedList<T> {
    list: Arc<ChunkList<T>, Global>,
}

impl<T> Model for SharedList<T> {
    ghost use Rattle.std.specs.Prelude.{List};
    ghost use Rattle.std.specs.Coded.{coded_list};

    ghost Value = { List T };

    ghost coded = { coded_list T.code };

    ghost view = { λ s. s.list.value };
}

impl<T: Copied + Drop> SharedList<T> {
    /// No items. An error says that memory ran out.
    pub fn new(alloc: Global) -> Result<SharedList<T>, AllocError>
        ensures { IfOk result (λ l. l ≡ []) }
    {
        Ok(SharedList {
            list: Arc::new(alloc, ChunkList::new(alloc))?,
        })
    }

    /// How many items there are.
    pub fn len(&self) -> usize
        ensures count { result ≡ length self.now }
        ensures few { result < 2 ^ 32 }
    {
        self.list.len()
    }

    /// The item at a place; `None` exactly where there is none.
    pub fn get(&self, place: usize) -> Option<&T>
        ensures { option_copied result ≡ slice_get self.now place }
    {
        self.list.get(place)
    }

    // One owner: where there are others, the list is copied, and still shares its chunks.
    fn unshare(&mut self, alloc: Global) -> Result<(), AllocError>
        ensures { self.new ≡ self.old }
    {
        match Arc::get_mut(&mut self.list) {
            Some(_) => Ok(()),
            None => {
                let list = self.list.copy(alloc)?;
                self.list = Arc::new(alloc, list)?;
                Ok(())
            }
        }
    }

    /// One more item at the end. After an error, which says that memory ran out or that there are 2^32 - 1 items, the list
    /// is as it was.
    pub fn push(&mut self, alloc: Global, item: T) -> Result<(), AllocError>
        ensures ok { OnOk result (self.new ≡ self.old ++ item ∷ []) }
        ensures err { OnErr result (self.new ≡ self.old) }
    {
        self.unshare(alloc)?;
        match Arc::get_mut(&mut self.list) {
            Some(list) => list.push(alloc, item)?,
            // (it has one owner now)
            None => return Err(AllocError),
        }
        Ok(())
    }

    /// Puts an item at a place. After an error, which says that memory ran out, the list is as it was.
    pub fn set(&mut self, alloc: Global, place: usize, item: T) -> Result<(), AllocError>
        requires { place < length self.old }
        ensures ok { OnOk result (self.new ≡ slice_set self.old place item) }
        ensures err { OnErr result (self.new ≡ self.old) }
    {
        self.unshare(alloc)?;
        match Arc::get_mut(&mut self.list) {
            Some(list) => list.set(alloc, place, item)?,
            // (it has one owner now)
            None => return Err(AllocError),
        }
        Ok(())
    }

    /// Puts an item at a place and one more at the end, as one step, which copies at most the two chunks that it changes.
    /// After an error, which says that memory ran out or that there are 2^32 - 1 items, the list is as it was.
    pub fn set_and_push(
        &mut self,
        alloc: Global,
        place: usize,
        item: T,
        more: T,
    ) -> Result<(), AllocError>
        requires { place < length self.old }
        ensures ok { OnOk result (self.new ≡ slice_set self.old place item ++ more ∷ []) }
        ensures err { OnErr result (self.new ≡ self.old) }
    {
        self.unshare(alloc)?;
        match Arc::get_mut(&mut self.list) {
            Some(list) => list.set_and_push(alloc, place, item, more)?,
            // (it has one owner now)
            None => return Err(AllocError),
        }
        Ok(())
    }

    /// One more owner of the same list. An error says that memory ran out.
    pub fn share(&self) -> Result<SharedList<T>, AllocError>
        ensures { IfOk result (λ l. l ≡ self.now) }
    {
        Ok(SharedList {
            list: Arc::try_clone(&self.list)?,
        })
    }
}
