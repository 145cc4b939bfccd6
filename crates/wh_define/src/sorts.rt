ghost use Rattle.std.specs.Prelude.{◌≡◌};
ghost use Rattle.def_effect.specs.Define.{new_kind};
ghost use Rattle.def_resolve.specs.Kinds.{agrees, part_sort, sort_of_kind};
ghost use Rattle.wh_base.specs.declared.columns.ColPart.TheVariants.{Col};
ghost use Rattle.wh_define.specs.Sorts.{meant};

use wh_base::statements::RawKind;
use wh_base::tables::{Kind, TableDef};

/// What may be compared: numbers with numbers, texts with texts, days with days, and what is of no known kind with all.
#[derive(Clone, Copy, Debug)]
pub enum Sort {
    Number,
    Text,
    Day,
    Any,
}

impl Sort {
    /// That of a column as its kind is written.
    pub fn of_written(kind: &RawKind) -> Sort
        ensures { meant result ≡ sort_of_kind (new_kind kind.now) }
    {
        match kind {
            RawKind::Digits(_) => Sort::Number,
            RawKind::Bytes(_) => Sort::Text,
            RawKind::Days => Sort::Day,
        }
    }

    /// That of the column at a place of a table.
    pub fn of_column(def: &TableDef, at: u32) -> Sort
        ensures { meant result ≡ part_sort def.now (Col at) }
    {
        match def.columns.get(at as usize) {
            Some(column) => match column.kind {
                Kind::Number(_) => Sort::Number,
                Kind::Text(_) => Sort::Text,
                Kind::Date => Sort::Day,
            },
            None => Sort::Any,
        }
    }

    /// Whether the two may be compared.
    pub fn agrees(self, other: Sort) -> bool
        ensures { result ≡ agrees (meant self) (meant other) }
    {
        match (self, other) {
            (Sort::Number, Sort::Text) | (Sort::Text, Sort::Number) => false,
            (Sort::Number, Sort::Day) | (Sort::Day, Sort::Number) => false,
            (Sort::Text, Sort::Day) | (Sort::Day, Sort::Text) => false,
            _ => true,
        }
    }
}
