ghost use Rattle.def_grammar.specs.Forms.{all_words, alter_table, merge_parts, range, row_movement, split_part};
ghost use Rattle.def_grammar.specs.Reading.{◌>>◌, mapped, name, word};
ghost use Rattle.std.specs.Prelude.{[], ◌∷◌, codes};
ghost use Rattle.wh_base.specs.declared.statements.PartChange.TheVariants.{Add, DropPart, Merge, Movement, Split, Truncate};
ghost use Rattle.wh_ddl_text.specs.Pieces.{halves, split_from};
ghost use Rattle.wh_query_text.specs.Parse.{Gives};

use crate::tables::Range;
use crate::words::{one_of_both, take_words};
use wh_base::statements::{Altered, MergeParts, PartChange, SplitPart, Statement, TableStatement};
use wh_base::txt::Txt;
use wh_base::values::Literal;
use wh_query_text::parser::{ParseFault, Parser};
use wh_query_text::rule::{Bracketed, Either, Rule, boxed};
use wh_query_text::rules::AnyLiteral;

/// ADD PARTITION.
pub struct AddChange;

impl Rule for AddChange {
    type Output = PartChange;

    ghost reads = { mapped Add (word (codes "ADD") >> range) };

    fn read(parser: &mut Parser<'_>) -> Result<PartChange, ParseFault> {
        parser.word(b"ADD")?;
        let range = Range::read(parser)?;
        Ok(PartChange::Add(range))
    }
}

/// DROP PARTITION.
pub struct DropChange;

impl Rule for DropChange {
    type Output = PartChange;

    ghost reads = { mapped DropPart (all_words (codes "DROP" ∷ codes "PARTITION" ∷ []) >> name) };

    fn read(parser: &mut Parser<'_>) -> Result<PartChange, ParseFault> {
        take_words(parser, ["DROP", "PARTITION"].as_slice())?;
        let name = parser.name()?;
        Ok(PartChange::DropPart(name))
    }
}

/// TRUNCATE PARTITION.
pub struct TruncateChange;

impl Rule for TruncateChange {
    type Output = PartChange;

    ghost reads = { mapped Truncate (all_words (codes "TRUNCATE" ∷ codes "PARTITION" ∷ []) >> name) };

    fn read(parser: &mut Parser<'_>) -> Result<PartChange, ParseFault> {
        take_words(parser, ["TRUNCATE", "PARTITION"].as_slice())?;
        let name = parser.name()?;
        Ok(PartChange::Truncate(name))
    }
}

/// The names of the two parts of a partition, between parentheses.
pub struct Halves;

impl Rule for Halves {
    type Output = (Txt, Txt);

    ghost reads = { halves };

    fn read(parser: &mut Parser<'_>) -> Result<(Txt, Txt), ParseFault> {
        parser.mark(b"(")?;
        parser.word(b"PARTITION")?;
        let lower = parser.name()?;
        parser.mark(b",")?;
        parser.word(b"PARTITION")?;
        let upper = parser.name()?;
        parser.mark(b")")?;
        Ok((lower, upper))
    }
}

/// A partition, the bound at which it is cut, and the names of its two parts.
pub struct SplitRule;

impl Rule for SplitRule {
    type Output = SplitPart;

    ghost reads = { split_part };

    fn read(parser: &mut Parser<'_>) -> Result<SplitPart, ParseFault> {
        take_words(parser, ["SPLIT", "PARTITION"].as_slice())?;
        let name = parser.name()?;
        parser.word(b"AT")?;
        let at = Bracketed::<AnyLiteral>::read(parser)?;
        parser.word(b"INTO")?;
        split_from(parser, name, at)
    }
}

// The partition of this name that is split at this bound, with the parts that are read here.
fn split_from(parser: &mut Parser<'_>, name: Txt, at: Literal) -> Result<SplitPart, ParseFault>
    ensures { Gives result parser.new (split_from name at parser.old) }
{
    let (lower, upper) = Halves::read(parser)?;
    Ok(SplitPart {
        name,
        at,
        lower,
        upper,
    })
}

/// SPLIT PARTITION.
pub struct SplitChange;

impl Rule for SplitChange {
    type Output = PartChange;

    ghost reads = { mapped Split split_part };

    fn read(parser: &mut Parser<'_>) -> Result<PartChange, ParseFault> {
        let split = SplitRule::read(parser)?;
        Ok(PartChange::Split(split))
    }
}

/// Two partitions, and the name of the one that they become.
pub struct MergeRule;

impl Rule for MergeRule {
    type Output = MergeParts;

    ghost reads = { merge_parts };

    fn read(parser: &mut Parser<'_>) -> Result<MergeParts, ParseFault> {
        take_words(parser, ["MERGE", "PARTITIONS"].as_slice())?;
        let lower = parser.name()?;
        parser.mark(b",")?;
        let upper = parser.name()?;
        take_words(parser, ["INTO", "PARTITION"].as_slice())?;
        let name = parser.name()?;
        Ok(MergeParts { lower, upper, name })
    }
}

/// MERGE PARTITIONS.
pub struct MergeChange;

impl Rule for MergeChange {
    type Output = PartChange;

    ghost reads = { mapped Merge merge_parts };

    fn read(parser: &mut Parser<'_>) -> Result<PartChange, ParseFault> {
        let merge = MergeRule::read(parser)?;
        Ok(PartChange::Merge(merge))
    }
}

/// ENABLE ROW MOVEMENT, for which it gives true, or DISABLE.
pub struct RowMovement;

impl Rule for RowMovement {
    type Output = bool;

    ghost reads = { row_movement };

    fn read(parser: &mut Parser<'_>) -> Result<bool, ParseFault> {
        one_of_both(
            parser,
            ["ENABLE", "ROW", "MOVEMENT"].as_slice(),
            ["DISABLE", "ROW", "MOVEMENT"].as_slice(),
        )
    }
}

/// ENABLE or DISABLE ROW MOVEMENT.
pub struct MovementChange;

impl Rule for MovementChange {
    type Output = PartChange;

    ghost reads = { mapped Movement row_movement };

    fn read(parser: &mut Parser<'_>) -> Result<PartChange, ParseFault> {
        let movement = RowMovement::read(parser)?;
        Ok(PartChange::Movement(movement))
    }
}

/// A change that leaves other partitions than there were, or that lets rows move.
pub type Rearranging = Either<SplitChange, Either<MergeChange, MovementChange>>;

/// What ALTER TABLE does with partitions, or to let rows move.
pub type AnyChange = Either<AddChange, Either<DropChange, Either<TruncateChange, Rearranging>>>;

/// ALTER TABLE.
pub struct AlterTableRule;

impl Rule for AlterTableRule {
    type Output = Statement;

    ghost reads = { alter_table };

    fn read(parser: &mut Parser<'_>) -> Result<Statement, ParseFault> {
        take_words(parser, ["ALTER", "TABLE"].as_slice())?;
        let table = parser.name()?;
        let change = AnyChange::read(parser)?;
        let altered = boxed(parser.alloc(), Altered { table, change })?;
        Ok(Statement::Table(TableStatement::AlterTable(altered)))
    }
}
