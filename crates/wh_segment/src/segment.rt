ghost use Rattle.std.specs.Prelude.{◌≡◌, ◌+◌, ◌-◌, ◌<◌, ◌^◌, [], ◌∷◌, ◌++◌, IfOk, IfSome, IsSome, IsSomeAnd, IsTrue, OnErr, OnOk, Some, filter, length, slice_get};
ghost use Rattle.wh_segment.specs.Versions.{born_at, ended_at, is_live, is_past, purged, removed_at, replaced_at, visible_at};

use crate::shared_list::SharedList;
use crate::version::Version;
use std::alloc::{AllocError, Global};
use std::marker::{Model, PhantomData};
use wh_base::copied::Copied;
use wh_base::reads::Reads;
use wh_base::seq::Seq;
use wh_base::shared::Shared;
use wh_base::values::Value;

/// The versions of the rows of a table, each at its place for good. Contracts see it as the list of the versions by place.
/// The values of a version are had only through a counter, which each reading raises by one. There are fewer than 2^32
/// places. That rows are kept as versions by SCN, in chunks of 1,024 that copies share, is this project's own.
#[derive(Drop)]
pub struct Segment<L> {
    alloc: Global,
    versions: SharedList<Version>,
    mark: PhantomData<L>,
}

impl<L> Model for Segment<L> {
    ghost use Rattle.std.specs.Prelude.{List};
    ghost use Rattle.std.specs.Coded.{coded_list};
    ghost use Rattle.wh_segment.specs.contracts.version.Version.{the_row};
    ghost use Rattle.wh_segment.specs.declared.version.Version.{Version};

    ghost Value = { List Version };

    ghost coded = { coded_list the_row.coded };

    ghost view = { λ s. s.versions };
}

impl<L> Segment<L> {
    /// No versions. An error says that memory ran out.
    pub fn new(alloc: Global) -> Result<Segment<L>, AllocError>
        ensures { IfOk result (λ s. s ≡ []) }
    {
        Ok(Segment {
            alloc,
            versions: SharedList::new(alloc)?,
            mark: PhantomData,
        })
    }

    /// How many places there are.
    pub fn len(&self) -> u64
        ensures count { result ≡ length self.now }
        ensures few { result < 2 ^ 32 }
    {
        self.versions.len() as u64
    }

    /// A version of the row with this rowid, in the partition with this number, from an SCN on. Gives its place. After an
    /// error, which says that memory ran out or that there are 2^32 - 1 places, the segment is as it was.
    pub fn append(
        &mut self,
        rowid: u64,
        part: u64,
        values: Seq<Value>,
        scn: u64,
    ) -> Result<u64, AllocError>
        ensures place { IfOk result (λ place. place ≡ length self.old) }
        ensures ok { OnOk result (self.new ≡ self.old ++ born_at scn rowid part values ∷ []) }
        ensures err { OnErr result (self.new ≡ self.old) }
    {
        let place = self.len();
        let version = Version {
            rowid,
            part,
            born: scn,
            died: None,
            values: Some(Shared::new(self.alloc, values)?),
        };
        self.versions.push(self.alloc, version)?;
        Ok(place)
    }

    /// Ends the version at a place: from this SCN on its row isn't there. The version must be live, which is neither ended
    /// nor removed. After an error, which says that memory ran out, the segment is as it was.
    pub fn end(&mut self, place: u64, scn: u64) -> Result<(), AllocError>
        requires { IsSomeAnd (slice_get self.old place) (λ v. IsTrue (is_live v)) }
        ensures ok { OnOk result (self.new ≡ ended_at place scn self.old) }
        ensures err { OnErr result (self.new ≡ self.old) }
    {
        let place = place as usize;
        let Some(version) = self.versions.get(place) else {
            unreachable!();
        };
        let mut ended = version.copied(self.alloc)?;
        ended.died = Some(scn);
        self.versions.set(self.alloc, place, ended)?;
        Ok(())
    }

    /// Ends the version at a place and appends its successor with these values, as one step: from this SCN on its row has
    /// them. The successor has the same rowid and partition; its place is given. The version must be live. After an error,
    /// which says that memory ran out or that there are 2^32 - 1 places, the segment is as it was.
    pub fn replace(&mut self, place: u64, values: Seq<Value>, scn: u64) -> Result<u64, AllocError>
        requires { IsSomeAnd (slice_get self.old place) (λ v. IsTrue (is_live v)) }
        ensures place { IfOk result (λ place. place ≡ length self.old) }
        ensures ok { OnOk result (self.new ≡ replaced_at place scn values self.old) }
        ensures err { OnErr result (self.new ≡ self.old) }
    {
        let new_place = self.len();
        let place = place as usize;
        let Some(version) = self.versions.get(place) else {
            unreachable!();
        };
        let next = Version {
            rowid: version.rowid,
            part: version.part,
            born: scn,
            died: None,
            values: Some(Shared::new(self.alloc, values)?),
        };
        let mut ended = version.copied(self.alloc)?;
        ended.died = Some(scn);
        self.versions.set_and_push(self.alloc, place, ended, next)?;
        Ok(new_place)
    }

    /// Whether the row of the version at a place is there at an SCN with these values: where the version was born at that
    /// SCN or before it and didn't die at it or before it. Never past the end, nor for a removed version.
    pub fn visible(&self, place: u64, scn: u64) -> bool
        ensures { result ≡ visible_at self.now place scn }
    {
        match self.versions.get(place as usize) {
            Some(version) => version.is_visible(scn),
            None => false,
        }
    }

    /// The version at a place.
    fn version(&self, place: u64) -> &Version
        requires { place < length self.now }
        ensures { slice_get self.now place ≡ Some result.now }
    {
        match self.versions.get(place as usize) {
            Some(version) => version,
            None => unreachable!(),
        }
    }

    /// The rowid of the version at a place, also of a removed one. Raises no counter.
    pub fn rowid(&self, place: u64) -> u64
        requires { place < length self.now }
        ensures { IfSome (slice_get self.now place) (λ v. result ≡ v.rowid) }
    {
        self.version(place).rowid
    }

    /// The number of the partition of the version at a place, 0 without partitions, also of a removed one. Raises no
    /// counter.
    pub fn part(&self, place: u64) -> u64
        requires { place < length self.now }
        ensures { IfSome (slice_get self.now place) (λ v. result ≡ v.part) }
    {
        self.version(place).part
    }

    /// The values of the version at a place, which mustn't be removed. Raises the counter by one.
    pub fn row(&self, place: u64, reads: &mut Reads<L>) -> &Seq<Value>
        requires there { IsSomeAnd (slice_get self.now place) (λ v. IsSome v.values) }
        requires room { reads.old < 2 ^ 64 - 1 }
        ensures values { IfSome (slice_get self.now place) (λ v. v.values ≡ Some result.now) }
        ensures raised { reads.new ≡ reads.old + 1 }
    {
        reads.raise();
        match self.versions.get(place as usize) {
            Some(
                Version {
                    values: Some(values),
                    ..
                },
            ) => values.get(),
            _ => unreachable!(),
        }
    }

    /// Removes the versions that died at an SCN or before it, and gives how many. They keep their places, rowids and
    /// partitions, and lose their values; a version removed before isn't counted again. After an error, which says that
    /// memory ran out, the segment is as it was.
    pub fn purge(&mut self, to: u64) -> Result<u64, AllocError>
        ensures count { IfOk result (λ count. count ≡ length (filter (is_past to) self.old)) }
        ensures ok { OnOk result (self.new ≡ purged to self.old) }
        ensures err { OnErr result (self.new ≡ self.old) }
    {
        let mut kept = self.versions.share()?;
        let count = remove_past(&mut kept, self.alloc, to)?;
        self.versions = kept;
        Ok(count)
    }

    /// The same segment, which shares all that it has until one of the two changes: to copy it costs the same for every
    /// number of rows. An error says that memory ran out.
    pub fn copy(&self) -> Result<Segment<L>, AllocError>
        ensures { IfOk result (λ s. s ≡ self.now) }
    {
        Ok(Segment {
            alloc: self.alloc,
            versions: self.versions.share()?,
            mark: PhantomData,
        })
    }
}

/// Removes the versions that died at an SCN or before it, and gives how many. An error says that memory ran out.
#[tactic(auto, using(crate::proofs::Removing::removing))]
fn remove_past(
    versions: &mut SharedList<Version>,
    alloc: Global,
    to: u64,
) -> Result<u64, AllocError>
    ensures count { IfOk result (λ count. count ≡ length (filter (is_past to) versions.old)) }
    ensures ok { OnOk result (versions.new ≡ purged to versions.old) }
{
    let mut count = 0;
    for place in 0..versions.len() {
        if let Some(removed) = removed_at(versions, place, to) {
            versions.set(alloc, place, removed)?;
            count += 1;
        }
    }
    Ok(count)
}

/// What the version at a place becomes, where it died at an SCN or before it and isn't removed.
fn removed_at(versions: &SharedList<Version>, place: usize, to: u64) -> Option<Version>
    requires { place < length versions.now }
    ensures { result ≡ removed_at to versions.now place }
{
    match versions.get(place) {
        Some(version) if version.is_past(to) => Some(version.removed()),
        _ => None,
    }
}
