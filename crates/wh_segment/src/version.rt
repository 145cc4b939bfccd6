ghost use Rattle.std.specs.Prelude.{◌≡◌, IfOk};
ghost use Rattle.wh_segment.specs.Versions.{is_past, is_visible, removed};

use std::alloc::{AllocError, Global};
use wh_base::copied::Copied;
use wh_base::seq::Seq;
use wh_base::shared::Shared;
use wh_base::values::Value;

/// A version of a row: the number of its partition, 0 without partitions, the SCN at which it was born and the one at which
/// it died, and its values, which copies share. A removed version has none.
#[derive(Drop)]
pub struct Version {
    pub rowid: u64,
    pub part: u64,
    pub born: u64,
    pub died: Option<u64>,
    pub values: Option<Shared<Seq<Value>>>,
}

impl Copied for Version {
    fn copied(&self, _alloc: Global) -> Result<Version, AllocError> {
        let values = match &self.values {
            Some(values) => Some(values.share()?),
            None => None,
        };
        Ok(Version {
            rowid: self.rowid,
            part: self.part,
            born: self.born,
            died: self.died,
            values,
        })
    }
}

impl Version {
    /// Whether the row is there at an SCN, with these values.
    pub fn is_visible(&self, scn: u64) -> bool
        ensures { result ≡ is_visible scn self.now }
    {
        if self.values.is_none() || scn < self.born {
            return false;
        }
        match self.died {
            Some(died) => scn < died,
            None => true,
        }
    }

    /// Whether it died at or before an SCN and isn't removed.
    pub fn is_past(&self, scn: u64) -> bool
        ensures { result ≡ is_past scn self.now }
    {
        match (&self.values, self.died) {
            (Some(_), Some(died)) => died <= scn,
            _ => false,
        }
    }

    /// The version without its values.
    pub fn removed(&self) -> Version
        ensures { result ≡ removed self.now }
    {
        Version {
            rowid: self.rowid,
            part: self.part,
            born: self.born,
            died: self.died,
            values: None,
        }
    }
}
