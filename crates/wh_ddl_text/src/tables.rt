ghost use Rattle.def_grammar.specs.Forms.{all_words, column_mark, constraint_name, create_table, foreign_part, key_part, movement_behind, new_column_part, partitioning, range, reference};
ghost use Rattle.def_grammar.specs.Reading.{◌>>◌, ◌or◌, gives, mapped, name, word};
ghost use Rattle.std.specs.Prelude.{◌≡◌, [], ◌∷◌, None, Some, codes, false, true};
ghost use Rattle.wh_base.specs.declared.statements.ColumnMark.TheVariants as marks;

use crate::words::{maybe_one_of_both, take_words, takes_all};
use wh_base::statements::{
    ColumnMark, NewColumn, NewForeign, NewKey, NewRange, NewTable, Partitioning, Reference,
    Statement, TablePart, TableStatement,
};
use wh_base::txt::Txt;
use wh_base::values::Literal;
use wh_query_text::parser::{ParseFault, Parser};
use wh_query_text::rule::{Bracketed, Either, Listed, Many, Maybe, Rule, boxed};
use wh_query_text::rules::{GivenLiteral, Kind, PlainName};

/// REFERENCES with its table, its column, and whether it is only declared.
pub struct ReferenceRule;

impl Rule for ReferenceRule {
    type Output = Reference;

    ghost reads = { reference };

    fn read(parser: &mut Parser<'_>) -> Result<Reference, ParseFault> {
        parser.word(b"REFERENCES")?;
        let table = parser.name()?;
        let column = Maybe::<Bracketed<PlainName>>::read(parser)?;
        let rely = maybe_one_of_both(
            parser,
            ["RELY", "DISABLE", "NOVALIDATE"].as_slice(),
            ["ENABLE", "VALIDATE"].as_slice(),
        );
        Ok(Reference {
            table,
            column,
            rely,
        })
    }
}

/// CONSTRAINT and a name.
pub struct ConstraintName;

impl Rule for ConstraintName {
    type Output = Txt;

    ghost reads = { word (codes "CONSTRAINT") >> name };

    fn read(parser: &mut Parser<'_>) -> Result<Txt, ParseFault> {
        parser.word(b"CONSTRAINT")?;
        parser.name()
    }
}

/// NOT NULL.
pub struct NotNullMark;

impl Rule for NotNullMark {
    type Output = ColumnMark;

    ghost reads = { mapped (λ t. marks.NotNull) (all_words (codes "NOT" ∷ codes "NULL" ∷ [])) };

    fn read(parser: &mut Parser<'_>) -> Result<ColumnMark, ParseFault> {
        take_words(parser, ["NOT", "NULL"].as_slice())?;
        Ok(ColumnMark::NotNull)
    }
}

/// PRIMARY KEY behind a column.
pub struct PrimaryKeyMark;

impl Rule for PrimaryKeyMark {
    type Output = ColumnMark;

    ghost reads = { mapped (λ t. marks.PrimaryKey) (all_words (codes "PRIMARY" ∷ codes "KEY" ∷ [])) };

    fn read(parser: &mut Parser<'_>) -> Result<ColumnMark, ParseFault> {
        take_words(parser, ["PRIMARY", "KEY"].as_slice())?;
        Ok(ColumnMark::PrimaryKey)
    }
}

/// UNIQUE behind a column.
pub struct UniqueMark;

impl Rule for UniqueMark {
    type Output = ColumnMark;

    ghost reads = { mapped (λ t. marks.Unique) (word (codes "UNIQUE")) };

    fn read(parser: &mut Parser<'_>) -> Result<ColumnMark, ParseFault> {
        parser.word(b"UNIQUE")?;
        Ok(ColumnMark::Unique)
    }
}

/// REFERENCES behind a column.
pub struct ReferenceMark;

impl Rule for ReferenceMark {
    type Output = ColumnMark;

    ghost reads = { mapped marks.References reference };

    fn read(parser: &mut Parser<'_>) -> Result<ColumnMark, ParseFault> {
        let reference = ReferenceRule::read(parser)?;
        Ok(ColumnMark::References(reference))
    }
}

/// What may stand behind the kind of a column.
pub type AnyMark = Either<NotNullMark, Either<PrimaryKeyMark, Either<UniqueMark, ReferenceMark>>>;

/// What may stand behind the kind of a column, with a name that isn't kept.
pub struct NamedMark;

impl Rule for NamedMark {
    type Output = ColumnMark;

    ghost reads = { constraint_name >> column_mark };

    fn read(parser: &mut Parser<'_>) -> Result<ColumnMark, ParseFault> {
        let _name = Maybe::<ConstraintName>::read(parser)?;
        AnyMark::read(parser)
    }
}

/// A column of CREATE TABLE.
pub struct ColumnPart;

impl Rule for ColumnPart {
    type Output = TablePart;

    ghost reads = { new_column_part };

    fn read(parser: &mut Parser<'_>) -> Result<TablePart, ParseFault> {
        let name = parser.name()?;
        let kind = Kind::read(parser)?;
        let marks = Many::<NamedMark>::read(parser)?;
        Ok(TablePart::Column(NewColumn { name, kind, marks }))
    }
}

/// PRIMARY KEY, for which it gives true, or UNIQUE.
pub struct KeyWords;

impl Rule for KeyWords {
    type Output = bool;

    ghost reads = { (all_words (codes "PRIMARY" ∷ codes "KEY" ∷ []) >> gives true) or (word (codes "UNIQUE") >> gives false) };

    fn read(parser: &mut Parser<'_>) -> Result<bool, ParseFault> {
        if takes_all(parser, ["PRIMARY", "KEY"].as_slice()) {
            return Ok(true);
        }
        parser.word(b"UNIQUE")?;
        Ok(false)
    }
}

/// PRIMARY KEY or UNIQUE as a part by itself.
pub struct KeyPart;

impl Rule for KeyPart {
    type Output = TablePart;

    ghost reads = { key_part };

    fn read(parser: &mut Parser<'_>) -> Result<TablePart, ParseFault> {
        let _name = Maybe::<ConstraintName>::read(parser)?;
        let primary = KeyWords::read(parser)?;
        let column = Bracketed::<PlainName>::read(parser)?;
        Ok(TablePart::Key(NewKey { column, primary }))
    }
}

/// FOREIGN KEY as a part by itself.
pub struct ForeignPart;

impl Rule for ForeignPart {
    type Output = TablePart;

    ghost reads = { foreign_part };

    fn read(parser: &mut Parser<'_>) -> Result<TablePart, ParseFault> {
        let _name = Maybe::<ConstraintName>::read(parser)?;
        take_words(parser, ["FOREIGN", "KEY"].as_slice())?;
        let column = Bracketed::<PlainName>::read(parser)?;
        let reference = ReferenceRule::read(parser)?;
        Ok(TablePart::Foreign(NewForeign { column, reference }))
    }
}

/// A part of CREATE TABLE.
pub type AnyPart = Either<KeyPart, Either<ForeignPart, ColumnPart>>;

/// MAXVALUE as the bound of a partition, which is no bound.
pub struct NoBound;

impl Rule for NoBound {
    type Output = Option<Literal>;

    ghost reads = { mapped (λ t. None) (word (codes "MAXVALUE")) };

    fn read(parser: &mut Parser<'_>) -> Result<Option<Literal>, ParseFault> {
        parser.word(b"MAXVALUE")?;
        Ok(None)
    }
}

/// A partition with its bound.
pub struct Range;

impl Rule for Range {
    type Output = NewRange;

    ghost reads = { range };

    fn read(parser: &mut Parser<'_>) -> Result<NewRange, ParseFault> {
        parser.word(b"PARTITION")?;
        let name = parser.name()?;
        take_words(parser, ["VALUES", "LESS", "THAN"].as_slice())?;
        let below = Bracketed::<Either<NoBound, GivenLiteral>>::read(parser)?;
        Ok(NewRange { name, below })
    }
}

/// PARTITION BY RANGE with its partitions.
pub struct PartitioningRule;

impl Rule for PartitioningRule {
    type Output = Partitioning;

    ghost reads = { partitioning };

    fn read(parser: &mut Parser<'_>) -> Result<Partitioning, ParseFault> {
        take_words(parser, ["PARTITION", "BY", "RANGE"].as_slice())?;
        let column = Bracketed::<PlainName>::read(parser)?;
        let ranges = Bracketed::<Listed<Range>>::read(parser)?;
        Ok(Partitioning { column, ranges })
    }
}

// ENABLE ROW MOVEMENT, which may be left out, and which stands behind partitions alone.
fn movement_behind(parser: &mut Parser<'_>, partitioning: &Option<Partitioning>) -> bool
    ensures { movement_behind partitioning.now parser.old ≡ Some (result, parser.new) }
{
    match partitioning {
        None => false,
        Some(_) => {
            if takes_all(parser, ["ENABLE", "ROW", "MOVEMENT"].as_slice()) {
                return true;
            }
            false
        }
    }
}

/// CREATE TABLE.
pub struct CreateTableRule;

impl Rule for CreateTableRule {
    type Output = Statement;

    ghost reads = { create_table };

    fn read(parser: &mut Parser<'_>) -> Result<Statement, ParseFault> {
        take_words(parser, ["CREATE", "TABLE"].as_slice())?;
        let name = parser.name()?;
        let parts = Bracketed::<Listed<AnyPart>>::read(parser)?;
        let partitioning = Maybe::<PartitioningRule>::read(parser)?;
        let movement = movement_behind(parser, &partitioning);
        let table = NewTable {
            name,
            parts,
            partitioning,
            movement,
        };
        let boxed = boxed(parser.alloc(), table)?;
        Ok(Statement::Table(TableStatement::CreateTable(boxed)))
    }
}
