ghost use Rattle.std.specs.Prelude.{◌≡◌, ◌<◌, ◌^◌, [], ◌∷◌, ◌++◌, IfOk, OnErr, OnOk, false, length, slice_get, slice_set, true};
ghost use Rattle.std.specs.Option.{option_copied};
ghost use Rattle.wh_base.specs.Lists.{joined_lists};
ghost use Rattle.wh_segment.specs.Chunks.{AreChunks, last_has_room};

use crate::chunk::Chunk;
use std::alloc::{AllocError, Global};
use std::marker::Model;
use wh_base::copied::Copied;

/// How many items a chunk has at the most.
const CHUNK_SIZE: usize = 1024;

/// How many items a list has at the most: a place fits a `u32`.
const MOST: usize = 0xffff_ffff;

/// A list of fewer than 2^32 items in chunks that copies of it share. Contracts see it as the list of its items.
#[derive(Drop)]
pub struct ChunkList<T> {
    chunks: Vec<Chunk<T>>,
    count: usize,
}

impl<T> Model for ChunkList<T> {
    ghost use Rattle.std.specs.Prelude.{List};
    ghost use Rattle.std.specs.Coded.{coded_list};
    ghost use Rattle.wh_base.specs.Lists.{joined_lists};
    ghost use Rattle.wh_segment.specs.Chunks.{AreChunksOf};

    ghost Value = { List T };

    ghost coded = { coded_list T.code };

    ghost view = { λ l. joined_lists l.chunks.items };

    ghost invariant = { λ l. AreChunksOf l.count l.chunks.items };
}

impl<T: Copied + Drop> ChunkList<T> {
    /// No items. Takes no memory.
    pub fn new(alloc: Global) -> ChunkList<T>
        ensures { result ≡ [] }
    {
        ChunkList {
            chunks: Vec::new(alloc),
            count: 0,
        }
    }

    /// How many items there are.
    pub fn len(&self) -> usize
        ensures count { result ≡ length self.now }
        ensures few { result < 2 ^ 32 }
    {
        self.count
    }

    /// The item at a place; `None` exactly where there is none.
    pub fn get(&self, place: usize) -> Option<&T>
        ensures { option_copied result ≡ slice_get self.now place }
    {
        match self.chunks.get(place / CHUNK_SIZE) {
            Some(chunk) => chunk.get(place % CHUNK_SIZE),
            None => None,
        }
    }

    /// One more item at the end. After an error, which says that memory ran out or that there are 2^32 - 1 items, the list
    /// is as it was.
    pub fn push(&mut self, alloc: Global, item: T) -> Result<(), AllocError>
        ensures ok { OnOk result (self.new ≡ self.old ++ item ∷ []) }
        ensures err { OnErr result (self.new ≡ self.old) }
    {
        if self.count >= MOST {
            return Err(AllocError);
        }
        push_item(&mut self.chunks, alloc, item)?;
        self.count += 1;
        Ok(())
    }

    /// Puts an item at a place. After an error, which says that memory ran out, the list is as it was.
    pub fn set(&mut self, alloc: Global, place: usize, item: T) -> Result<(), AllocError>
        requires { place < length self.old }
        ensures ok { OnOk result (self.new ≡ slice_set self.old place item) }
        ensures err { OnErr result (self.new ≡ self.old) }
    {
        self.chunks[place / CHUNK_SIZE].set(alloc, place % CHUNK_SIZE, item)?;
        Ok(())
    }

    /// Puts an item at a place and one more at the end, as one step, which copies at most the two chunks that it changes.
    /// After an error, which says that memory ran out or that there are 2^32 - 1 items, the list is as it was.
    pub fn set_and_push(
        &mut self,
        alloc: Global,
        place: usize,
        item: T,
        more: T,
    ) -> Result<(), AllocError>
        requires { place < length self.old }
        ensures ok { OnOk result (self.new ≡ slice_set self.old place item ++ more ∷ []) }
        ensures err { OnErr result (self.new ≡ self.old) }
    {
        if self.count >= MOST {
            return Err(AllocError);
        }
        set_and_push_item(&mut self.chunks, alloc, place, item, more)?;
        self.count += 1;
        Ok(())
    }

    /// The same list, which shares its chunks. An error says that memory ran out.
    pub fn copy(&self, alloc: Global) -> Result<ChunkList<T>, AllocError>
        ensures { IfOk result (λ l. l ≡ self.now) }
    {
        let mut chunks = Vec::with_capacity(alloc, self.chunks.len())?;
        for chunk in self.chunks.as_slice() {
            chunks.push(chunk.share()?)?;
        }
        Ok(ChunkList {
            chunks,
            count: self.count,
        })
    }
}

/// One more item at the end of the list in these chunks. After an error, which says that memory ran out, they are as they
/// were.
fn push_item<T: Copied + Drop>(
    chunks: &mut Vec<Chunk<T>>,
    alloc: Global,
    item: T,
) -> Result<(), AllocError>
    requires { AreChunks chunks.old.items }
    ensures ok { OnOk result (joined_lists chunks.new.items ≡ joined_lists chunks.old.items ++ item ∷ []) }
    ensures full { OnOk result (AreChunks chunks.new.items) }
    ensures err { OnErr result (chunks.new.items ≡ chunks.old.items) }
{
    if last_has_room(chunks.as_slice()) {
        let last = chunks.len() - 1;
        chunks[last].push(alloc, item)?;
        return Ok(());
    }
    chunks.push(Chunk::one(alloc, item)?)?;
    Ok(())
}

/// An item at a place of the list in these chunks, and one more at its end. After an error, which says that memory ran out,
/// they are as they were.
fn set_and_push_item<T: Copied + Drop>(
    chunks: &mut Vec<Chunk<T>>,
    alloc: Global,
    place: usize,
    item: T,
    more: T,
) -> Result<(), AllocError>
    requires full { AreChunks chunks.old.items }
    requires there { place < length (joined_lists chunks.old.items) }
    ensures ok { OnOk result (joined_lists chunks.new.items ≡ slice_set (joined_lists chunks.old.items) place item ++ more ∷ []) }
    ensures full { OnOk result (AreChunks chunks.new.items) }
    ensures err { OnErr result (chunks.new.items ≡ chunks.old.items) }
{
    if last_has_room(chunks.as_slice()) {
        set_and_fill(chunks.as_mut_slice(), alloc, place, item, more)?;
        return Ok(());
    }
    set_and_add(chunks, alloc, place, item, more)?;
    Ok(())
}

/// `set_and_push_item` where the last chunk is full.
fn set_and_add<T: Copied + Drop>(
    chunks: &mut Vec<Chunk<T>>,
    alloc: Global,
    place: usize,
    item: T,
    more: T,
) -> Result<(), AllocError>
    requires full { AreChunks chunks.old.items }
    requires there { place < length (joined_lists chunks.old.items) }
    requires none { last_has_room chunks.old.items ≡ false }
    ensures ok { OnOk result (joined_lists chunks.new.items ≡ slice_set (joined_lists chunks.old.items) place item ++ more ∷ []) }
    ensures full { OnOk result (AreChunks chunks.new.items) }
    ensures err { OnErr result (chunks.new.items ≡ chunks.old.items) }
{
    let added = Chunk::one(alloc, more)?;
    chunks.reserve(1)?;
    chunks[place / CHUNK_SIZE].set(alloc, place % CHUNK_SIZE, item)?;
    chunks.push_reserved(added);
    Ok(())
}

/// `set_and_push_item` where the last chunk isn't full.
fn set_and_fill<T: Copied + Drop>(
    chunks: &mut [Chunk<T>],
    alloc: Global,
    place: usize,
    item: T,
    more: T,
) -> Result<(), AllocError>
    requires full { AreChunks chunks.old }
    requires there { place < length (joined_lists chunks.old) }
    requires room { last_has_room chunks.old ≡ true }
    ensures ok { OnOk result (joined_lists chunks.new ≡ slice_set (joined_lists chunks.old) place item ++ more ∷ []) }
    ensures full { OnOk result (AreChunks chunks.new) }
    ensures err { OnErr result (chunks.new ≡ chunks.old) }
{
    match chunks.split_last_mut() {
        Some((last, others)) => {
            set_and_fill_last(others, last, alloc, place, item, more)?;
            Ok(())
        }
        None => unreachable!(),
    }
}

/// An item at a place of the list in these chunks and the last one, which isn't full, and one more in the last one. After an
/// error, which says that memory ran out, they are as they were.
fn set_and_fill_last<T: Copied + Drop>(
    others: &mut [Chunk<T>],
    last: &mut Chunk<T>,
    alloc: Global,
    place: usize,
    item: T,
    more: T,
) -> Result<(), AllocError>
    requires full { AreChunks (others.old ++ last.old ∷ []) }
    requires there { place < length (joined_lists (others.old ++ last.old ∷ [])) }
    requires room { last_has_room (others.old ++ last.old ∷ []) ≡ true }
    ensures ok { OnOk result (joined_lists (others.new ++ last.new ∷ []) ≡ slice_set (joined_lists (others.old ++ last.old ∷ [])) place item ++ more ∷ []) }
    ensures full { OnOk result (AreChunks (others.new ++ last.new ∷ [])) }
    ensures err { OnErr result (others.new ≡ others.old) }
    ensures same { OnErr result (last.new ≡ last.old) }
{
    if place / CHUNK_SIZE < others.len() {
        others[place / CHUNK_SIZE].set_beside(alloc, place % CHUNK_SIZE, item, last, more)?;
        return Ok(());
    }
    last.set_and_push(alloc, place % CHUNK_SIZE, item, more)?;
    Ok(())
}

/// Whether there is a last chunk and it isn't full.
fn last_has_room<T: Copied + Drop>(chunks: &[Chunk<T>]) -> bool
    ensures { result ≡ last_has_room chunks.now }
{
    match chunks.last() {
        Some(chunk) => chunk.len() < CHUNK_SIZE,
        None => false,
    }
}
