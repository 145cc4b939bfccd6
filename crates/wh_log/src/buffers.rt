ghost use Rattle.std.specs.Prelude.{◌≡◌, ◌+◌, ◌-◌, ◌<◌, ◌≤◌, [], ◌∷◌, ◌++◌, drop, max, OnOk, OnErr, vec_len, vec_capacity};
ghost use Rattle.wh_base.specs.Lists.{where_true};

use std::alloc::{AllocError, Global};
use std::marker::Model;
use wh_base::values::Value;

/// One more item at the end of a list with room for it. Takes no memory.
pub fn push_within<T: Drop>(items: &mut Vec<T>, item: T)
    requires { vec_len items.old < vec_capacity items.old }
    ensures items { items.new.items ≡ items.old.items ++ item ∷ [] }
    ensures len { vec_len items.new ≡ vec_len items.old + 1 }
    ensures capacity { vec_capacity items.old ≤ vec_capacity items.new }
{
    let Ok(()) = items.push(item) else {
        unreachable!();
    };
}

/// Drops the first items, so many of them, and keeps the memory.
pub fn drop_first<T: Drop>(items: &mut Vec<T>, count: usize)
    requires { count ≤ vec_len items.old }
    ensures items { items.new.items ≡ drop count items.old.items }
    ensures len { vec_len items.new + count ≡ vec_len items.old }
    ensures capacity { vec_capacity items.new ≡ vec_capacity items.old }
{
    let kept = items.len() - count;
    items.as_mut_slice().rotate_left(count);
    items.truncate(kept);
}

/// The value, where the test holds.
pub fn where_true<T: Drop>(test: bool, value: T) -> Option<T>
    ensures { result ≡ where_true test value }
{
    if test { Some(value) } else { None }
}

/// Empty lists with memory for so many values each. They are made before the changes come, so that to note a change
/// takes no memory. Contracts see the width of a list and how many lists there are.
#[derive(Drop)]
pub struct Buffers {
    alloc: Global,
    width: usize,
    free: Vec<Vec<Value>>,
}

impl Model for Buffers {
    ghost use Rattle.std.specs.Prelude.{length};
    ghost use Rattle.wh_base.specs.declared.values.Value.{Value};
    ghost use Rattle.std.specs.List.{All};
    ghost use Rattle.wh_log.specs.Buffered.{Buffered, IsFree};

    ghost Value = { Buffered };

    ghost view = { λ b. record { width = b.width; count = length b.free.items } };

    ghost invariant = { λ b. All (IsFree b.width) b.free.items };
}

impl Buffers {
    /// No lists. Takes no memory.
    pub fn new(alloc: Global, width: usize) -> Buffers
        ensures { result ≡ record { width = width; count = 0 } }
    {
        Buffers {
            alloc,
            width,
            free: Vec::new(alloc),
        }
    }

    /// How many lists there are.
    pub fn count(&self) -> usize
        ensures { result ≡ self.now.count }
    {
        self.free.len()
    }

    /// At least so many lists. An error says that memory ran out; then there are as many as before.
    pub fn reserve(&mut self, count: usize) -> Result<(), AllocError>
        ensures ok { OnOk result (self.new ≡ record self.old { count = max self.old.count count }) }
        ensures err { OnErr result (self.new ≡ self.old) }
    {
        let had = self.count();
        for made in 0..count.saturating_sub(had) {
            let _ = made;
            if self.make().is_err() {
                self.keep(had);
                return Err(AllocError);
            }
        }
        Ok(())
    }

    /// One more list.
    fn make(&mut self) -> Result<(), AllocError>
        ensures ok { OnOk result (self.new ≡ record self.old { count = self.old.count + 1 }) }
        ensures err { OnErr result (self.new ≡ self.old) }
    {
        let list = Vec::with_capacity(self.alloc, self.width)?;
        self.free.push(list)?;
        Ok(())
    }

    /// The first lists, so many of them.
    fn keep(&mut self, count: usize)
        requires { count ≤ self.old.count }
        ensures { self.new ≡ record self.old { count = count } }
    {
        self.free.truncate(count);
    }

    /// A list, which is empty.
    pub fn take(&mut self) -> Vec<Value>
        requires { 0 < self.old.count }
        ensures empty { result.items ≡ [] }
        ensures room { self.old.width ≤ vec_capacity result }
        ensures rest { self.new ≡ record self.old { count = self.old.count - 1 } }
    {
        match self.free.pop() {
            Some(list) => list,
            None => unreachable!(),
        }
    }
}
