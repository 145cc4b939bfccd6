ghost use Rattle.std.specs.Prelude.{◌≡◌, ◌↔◌, ◌-◌, ◌<◌, ◌≤◌, [], ◌∷◌, ◌++◌, IfOk, IsErrOf, IsOk, None, OnErr, OnOk, false, length, option_and_then, remove, slice_get, suc, true};
ghost use Rattle.wh_base.specs.Tables.{with_intervals};
ghost use Rattle.wh_partmap.specs.History.{born_at, is_touched_since, last_touched, lists_of, number_at, part_with_key, parts_at, place_of_key, touches_after, touches_at, upper_bounds, with_added, with_parts, without_part};
ghost use Rattle.def_effect.specs.Define.{is_above_last};
ghost use Rattle.wh_partmap.specs.Laws.{AreParts, ChangesFrom, IsPartHistory};

use crate::bounds::{intervals_meet, is_above_last, place_of_key};
use crate::lists::{PartList, list_at, number_at, parts_copied, parts_without};
use crate::told::{touch_at, touches_behind};
use std::alloc::{AllocError, Global};
use std::marker::Model;
use std::mem;
use wh_base::seq::Seq;
use wh_base::tables::{Part, Touch};
use wh_base::txt::Txt;
use wh_base::values::{Interval, Value};

/// Why no partition was added or dropped. The two rules are those of SQL for range partitions.
#[derive(Clone, Copy, Debug, PartialEq, Eq)]
pub enum PartFault {
    /// The bound of the new partition isn't above the last one.
    Bound,
    /// The partition is the only one.
    Last,
    /// Memory ran out.
    Memory,
}

/// The partitions of a table, from the lowest on, with their earlier lists and the touches told of them.
///
/// Contracts see it as its history. A partition has the values from the bound of the one before it up to and without its
/// own bound, as SQL has it for range partitions; so only the last may be without a bound. A touch tells that rows of a
/// partition changed, or that the partition was added, truncated or dropped, and has its interval at that moment: by it
/// the Data Warehousing Guide's partition change tracking tells which part of a view is stale. An SCN is the count of
/// commits and statements that changed the database; that lists are kept by it is this project's own.
#[derive(Drop)]
pub struct PartMap {
    born: u64,
    parts: Seq<Part>,
    since: u64,
    earlier: Vec<PartList>,
    made: u64,
    touches: Vec<Touch>,
    alloc: Global,
}

impl Model for PartMap {
    ghost use Rattle.wh_partmap.specs.History.{PartHistory};
    ghost use Rattle.wh_partmap.specs.Laws.{IsPartHistory};

    ghost Value = { PartHistory };

    ghost use Rattle.wh_partmap.specs.Shown.{shown};

    ghost view = { shown };

    ghost invariant = { λ m. IsPartHistory (shown m) };
}

impl PartMap {
    /// The map of a table born at this SCN: no partitions, no touches, and no room for touches. Takes no memory.
    pub fn new(alloc: Global, scn: u64) -> PartMap
        ensures { result ≡ born_at scn }
    {
        PartMap {
            born: scn,
            parts: Seq::new(alloc),
            since: scn,
            earlier: Vec::new(alloc),
            made: 0,
            touches: Vec::new(alloc),
            alloc,
        }
    }

    /// The partitions now.
    pub fn parts(&self) -> &Seq<Part>
        ensures { result.now ≡ self.now.parts }
    {
        &self.parts
    }

    /// The place of the partition that has the key in its interval; `None` exactly where no interval has it. The bounds
    /// are searched by halves.
    pub fn find(&self, key: &Value) -> Option<u32>
        ensures place { result ≡ place_of_key self.now.parts key.now }
        ensures part { option_and_then (λ place. slice_get (with_intervals None self.now.parts) place) result ≡ part_with_key self.now.parts key.now }
    {
        place_of_key(&self.parts, key)
    }

    /// The touch of the partition at a place, counted from 0, at this SCN: its number, and its interval as it is now. An
    /// error says that memory ran out.
    pub fn made(&self, place: u32, scn: u64) -> Result<Touch, AllocError>
        requires { place < length self.now.parts }
        ensures touch { IfOk result (λ t. slice_get (touches_at self.now.parts scn) place ≡ Some t) }
        ensures scn { IfOk result (λ t. t.scn ≡ scn) }
    {
        touch_at(self.alloc, &self.parts, place as usize, scn)
    }

    /// Makes room for so many touches more. An error says that memory ran out: it never comes where there was room enough,
    /// and after it the map is as it was.
    pub fn reserve(&mut self, touches: u32) -> Result<(), AllocError>
        ensures ok { OnOk result (touches ≤ self.new.spare) }
        ensures enough { touches ≤ self.old.spare → IsOk result }
        ensures more { self.old.spare ≤ self.new.spare }
        ensures kept { self.new ≡ record self.old { spare = self.new.spare } }
        ensures err { OnErr result (self.new ≡ self.old) }
    {
        self.touches.reserve(touches as usize)
    }

    /// Tells of a touch that `made` gave. Takes no memory: there must be room for it. Its SCN must not be below that of the
    /// last touch. `made` may have given it before `drop_at`, so that a partition is dropped, which may want memory, before
    /// its touch is told.
    #[tactic(auto, using(crate::proofs::Touching::telling))]
    pub fn touch(&mut self, touch: Touch)
        requires room { 0 < self.old.spare }
        requires order { last_touched self.old.touches ≤ touch.scn }
        ensures told { self.new ≡ record self.old { touches = self.old.touches ++ touch ∷ []; spare = self.old.spare - 1 } }
        ensures last { last_touched self.new.touches ≡ touch.scn }
    {
        self.touches.push_reserved(touch);
    }

    /// All touches told, in order.
    pub fn touches(&self) -> &[Touch]
        ensures { result.now ≡ self.now.touches }
    {
        self.touches.as_slice()
    }

    /// The touches after an SCN, in order. Their place is searched by halves.
    pub fn touches_after(&self, scn: u64) -> &[Touch]
        ensures { result.now ≡ touches_after self.now.touches scn }
    {
        touches_behind(self.touches.as_slice(), scn)
    }

    /// Whether a partition that was touched after an SCN had an interval then that meets this one: each of the two begins
    /// before the other ends. Reads the touches after that SCN alone.
    pub fn touched_since(&self, scn: u64, interval: &Interval) -> bool
        ensures { result ≡ is_touched_since self.now.touches scn interval.now }
    {
        self.touches_after(scn)
            .iter()
            .any(|touch| intervals_meet(interval, &touch.interval))
    }

    /// The partitions at an SCN, which must not be below that of the table's birth. Takes no memory; the earlier lists are
    /// searched by halves.
    pub fn as_of(&self, scn: u64) -> &Seq<Part>
        requires { self.now.born ≤ scn }
        ensures { result.now ≡ parts_at self.now scn }
    {
        if self.since <= scn {
            return &self.parts;
        }
        match list_at(self.earlier.as_slice(), scn) {
            Some(list) => &list.parts,
            None => unreachable!(),
        }
    }

    /// One more partition above the others, from this SCN on, with its upper bound; `None` is no bound. It takes the next
    /// number, which counts the partitions ever made. Gives its place.
    ///
    /// The SCN must not be below that of the last call that added or dropped a partition, or of the birth. `Bound` comes
    /// exactly where the bound isn't above the last one (MV-11), and `Memory` where memory ran out or where so many
    /// partitions were made that the next number is no u64; after an error the map is as it was.
    pub fn add(&mut self, name: Txt, below: Option<Value>, scn: u64) -> Result<u32, PartFault>
        requires { self.old.since ≤ scn }
        ensures place { IfOk result (λ place. place ≡ length self.old.parts) }
        ensures ok { OnOk result (self.new ≡ with_added self.old name below scn) }
        ensures bound { IsErrOf result PartFault.Bound ↔ (is_above_last (upper_bounds self.old.parts) below ≡ false) }
        ensures last { IsErrOf result PartFault.Last → ⊥ }
        ensures err { OnErr result (self.new ≡ self.old) }
    {
        if !is_above_last(self.parts.as_slice(), &below) {
            return Err(PartFault::Bound);
        }
        let place = self.parts.len() as u32;
        let Ok(()) = self.push(name, below, scn) else {
            return Err(PartFault::Memory);
        };
        Ok(place)
    }

    /// Without the partition at a place from this SCN on; the next higher one takes over its interval.
    ///
    /// The SCN must not be below that of the last call that added or dropped a partition, or of the birth. `Last` comes
    /// exactly where the partition is the only one (MV-12), and `Memory` where memory ran out; after an error the map is as
    /// it was.
    pub fn drop_at(&mut self, place: u32, scn: u64) -> Result<(), PartFault>
        requires place { place < length self.old.parts }
        requires order { self.old.since ≤ scn }
        ensures ok { OnOk result (self.new ≡ with_parts self.old scn (without_part self.old.parts (number_at self.old.parts place))) }
        ensures one { OnOk result (self.new.parts ≡ remove self.old.parts place) }
        ensures last { IsErrOf result PartFault.Last ↔ (length self.old.parts ≡ 1) }
        ensures bound { IsErrOf result PartFault.Bound → ⊥ }
        ensures err { OnErr result (self.new ≡ self.old) }
    {
        if self.parts.len() == 1 {
            return Err(PartFault::Last);
        }
        let number = number_at(&self.parts, place as usize);
        let Ok(parts) = parts_without(self.alloc, &self.parts, number) else {
            return Err(PartFault::Memory);
        };
        let Ok(()) = self.change(parts, scn) else {
            return Err(PartFault::Memory);
        };
        Ok(())
    }

    /// `add` of a bound that is above the last one.
    fn push(&mut self, name: Txt, below: Option<Value>, scn: u64) -> Result<(), AllocError>
        requires order { self.old.since ≤ scn }
        requires bound { is_above_last (upper_bounds self.old.parts) below ≡ true }
        ensures ok { OnOk result (self.new ≡ with_added self.old name below scn) }
        ensures err { OnErr result (self.new ≡ self.old) }
    {
        let Some(number) = self.made.checked_add(1) else {
            return Err(AllocError);
        };
        let part = Part {
            name,
            number,
            below,
        };
        if self.since < scn {
            self.push_later(part, scn)
        } else {
            self.push_now(part)
        }
    }

    /// One more partition, from an SCN on that is later than the last change.
    fn push_later(&mut self, part: Part, scn: u64) -> Result<(), AllocError>
        requires order { self.old.since < scn }
        requires number { part.number ≡ suc self.old.made }
        requires bound { is_above_last (upper_bounds self.old.parts) part.below ≡ true }
        ensures ok { OnOk result (self.new ≡ record self.old { parts = self.old.parts ++ part ∷ []; since = scn; earlier = lists_of self.old; made = suc self.old.made }) }
        ensures err { OnErr result (self.new ≡ self.old) }
    {
        let made = part.number;
        let mut parts = parts_copied(self.alloc, &self.parts)?;
        parts.push(part)?;
        self.begin(parts, made, scn)
    }

    /// One more partition from the SCN of the last change on. The list is not copied.
    fn push_now(&mut self, part: Part) -> Result<(), AllocError>
        requires number { part.number ≡ suc self.old.made }
        requires bound { is_above_last (upper_bounds self.old.parts) part.below ≡ true }
        ensures ok { OnOk result (self.new ≡ record self.old { parts = self.old.parts ++ part ∷ []; made = suc self.old.made }) }
        ensures err { OnErr result (self.new ≡ self.old) }
    {
        let made = part.number;
        self.parts.push(part)?;
        self.made = made;
        Ok(())
    }

    /// Other partitions of those made so far from an SCN on.
    fn change(&mut self, parts: Seq<Part>, scn: u64) -> Result<(), AllocError>
        requires order { self.old.since ≤ scn }
        requires parts { AreParts self.old.made parts }
        ensures ok { OnOk result (self.new ≡ with_parts self.old scn parts) }
        ensures err { OnErr result (self.new ≡ self.old) }
    {
        if self.since < scn {
            self.begin(parts, self.made, scn)
        } else {
            self.parts = parts;
            Ok(())
        }
    }

    /// A list from an SCN on that is later than the last change; the one before it is kept.
    fn begin(&mut self, parts: Seq<Part>, made: u64, scn: u64) -> Result<(), AllocError>
        requires order { self.old.since < scn }
        requires made { self.old.made ≤ made }
        requires parts { AreParts made parts }
        ensures ok { OnOk result (self.new ≡ record self.old { parts = parts; since = scn; earlier = lists_of self.old; made = made }) }
        ensures err { OnErr result (self.new ≡ self.old) }
    {
        self.earlier.reserve(1)?;
        let before = mem::replace(&mut self.parts, parts);
        self.earlier.push_reserved(PartList {
            since: self.since,
            parts: before,
        });
        self.since = scn;
        self.made = made;
        Ok(())
    }

    /// What is true of every map of partitions, and of what changes it.
    pub fn laws(&self)
        ensures kept { IsPartHistory self.now }
        ensures changes { ChangesFrom self.now }
    {
        let _ = &self.born;
    }
}
