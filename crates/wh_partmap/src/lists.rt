ghost use Rattle.std.specs.List.{AllPairs, find};
ghost use Rattle.std.specs.Option.{option_copied};
ghost use Rattle.std.specs.Prelude.{◌≡◌, ◌<◌, IfOk, nat_le, reverse};
ghost use Rattle.wh_partmap.specs.History.{number_at, without_part};

use crate::bounds::bound_copied;
use std::alloc::{AllocError, Global};
use wh_base::seq::Seq;
use wh_base::tables::Part;

/// The partitions of a table from an SCN on.
#[derive(Drop)]
pub struct PartList {
    pub since: u64,
    pub parts: Seq<Part>,
}

/// The last of the lists, each of which began after those before it, that began at or before an SCN.
pub fn list_at(lists: &[PartList], scn: u64) -> Option<&PartList>
    requires { AllPairs (λ l m. l.since < m.since) lists.now }
    ensures { option_copied result ≡ find (λ l. nat_le l.since scn) (reverse lists.now) }
{
    let count = lists.partition_point(|list: &PartList| list.since <= scn);
    let (begun, _) = lists.split_at(count);
    begun.last()
}

/// The number of the partition at a place, and 0 past the end.
pub fn number_at(parts: &Seq<Part>, place: usize) -> u64
    ensures { result ≡ number_at parts.now place }
{
    match parts.get(place) {
        Some(part) => part.number,
        None => 0,
    }
}

/// The same partition. An error says that memory ran out.
fn part_copied(alloc: Global, part: &Part) -> Result<Part, AllocError>
    ensures { IfOk result (λ p. p ≡ part.now) }
{
    Ok(Part {
        name: part.name.copy(alloc)?,
        number: part.number,
        below: bound_copied(alloc, &part.below)?,
    })
}

/// The same partitions. An error says that memory ran out.
pub fn parts_copied(alloc: Global, parts: &Seq<Part>) -> Result<Seq<Part>, AllocError>
    ensures { IfOk result (λ copy. copy ≡ parts.now) }
{
    let mut copy = Seq::new(alloc);
    for part in parts.as_slice() {
        copy.push(part_copied(alloc, part)?)?;
    }
    Ok(copy)
}

/// The partitions but for the one with this number. An error says that memory ran out.
pub fn parts_without(alloc: Global, parts: &Seq<Part>, number: u64) -> Result<Seq<Part>, AllocError>
    ensures { IfOk result (λ copy. copy ≡ without_part parts.now number) }
{
    let mut copy = Seq::new(alloc);
    for part in parts.as_slice() {
        if part.number != number {
            copy.push(part_copied(alloc, part)?)?;
        }
    }
    Ok(copy)
}
