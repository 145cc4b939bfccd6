ghost use Rattle.def_grammar.specs.Forms.{all_words, attribute, create_dimension, hierarchy, hierarchy_body, join_key_part, level, named_form, table_column};
ghost use Rattle.def_grammar.specs.Reading.{◌>>◌, name};
ghost use Rattle.std.specs.Prelude.{[], ◌∷◌, codes};
ghost use Rattle.wh_base.specs.declared.statements.DimensionStatement.TheVariants as dimensions;
ghost use Rattle.wh_base.specs.declared.statements.ShowStatement.TheVariants as shows;
ghost use Rattle.wh_base.specs.declared.statements.Statement.TheVariants as about;

use crate::words::take_words;
use wh_base::seq::Seq;
use wh_base::statements::{
    DimensionStatement, JoinKey, NewAttribute, NewDimension, NewHierarchy, NewLevel, ShowStatement,
    Statement, TableColumn,
};
use wh_base::txt::Txt;
use wh_query_text::parser::{ParseFault, Parser};
use wh_query_text::rule::{Bracketed, Either, Listed, Many, Rule, boxed, with_first};

/// A column with the name of its table.
pub struct TableColumnRule;

impl Rule for TableColumnRule {
    type Output = TableColumn;

    ghost reads = { table_column };

    fn read(parser: &mut Parser<'_>) -> Result<TableColumn, ParseFault> {
        let table = parser.name()?;
        parser.mark(b".")?;
        let column = parser.name()?;
        Ok(TableColumn { table, column })
    }
}

/// LEVEL.
pub struct LevelRule;

impl Rule for LevelRule {
    type Output = NewLevel;

    ghost reads = { level };

    fn read(parser: &mut Parser<'_>) -> Result<NewLevel, ParseFault> {
        parser.word(b"LEVEL")?;
        let name = parser.name()?;
        parser.word(b"IS")?;
        let TableColumn { table, column } = TableColumnRule::read(parser)?;
        Ok(NewLevel {
            name,
            table,
            column,
        })
    }
}

/// JOIN KEY.
pub struct JoinKeyRule;

impl Rule for JoinKeyRule {
    type Output = JoinKey;

    ghost reads = { join_key_part };

    fn read(parser: &mut Parser<'_>) -> Result<JoinKey, ParseFault> {
        take_words(parser, ["JOIN", "KEY"].as_slice())?;
        let TableColumn { table, column } = TableColumnRule::read(parser)?;
        parser.word(b"REFERENCES")?;
        let parent = parser.name()?;
        Ok(JoinKey {
            table,
            column,
            parent,
        })
    }
}

/// CHILD OF and a level.
pub struct ParentLevel;

impl Rule for ParentLevel {
    type Output = Txt;

    ghost reads = { all_words (codes "CHILD" ∷ codes "OF" ∷ []) >> name };

    fn read(parser: &mut Parser<'_>) -> Result<Txt, ParseFault> {
        take_words(parser, ["CHILD", "OF"].as_slice())?;
        parser.name()
    }
}

/// The levels of a hierarchy, the lowest first, and its join keys.
pub struct HierarchyBody;

impl Rule for HierarchyBody {
    type Output = (Seq<Txt>, Seq<JoinKey>);

    ghost reads = { hierarchy_body };

    fn read(parser: &mut Parser<'_>) -> Result<(Seq<Txt>, Seq<JoinKey>), ParseFault> {
        let lowest = parser.name()?;
        let parents = Many::<ParentLevel>::read(parser)?;
        let joins = Many::<JoinKeyRule>::read(parser)?;
        let levels = with_first(parser.alloc(), lowest, parents)?;
        Ok((levels, joins))
    }
}

/// HIERARCHY.
pub struct HierarchyRule;

impl Rule for HierarchyRule {
    type Output = NewHierarchy;

    ghost reads = { hierarchy };

    fn read(parser: &mut Parser<'_>) -> Result<NewHierarchy, ParseFault> {
        parser.word(b"HIERARCHY")?;
        let name = parser.name()?;
        let (levels, joins) = Bracketed::<HierarchyBody>::read(parser)?;
        Ok(NewHierarchy {
            name,
            levels,
            joins,
        })
    }
}

/// ATTRIBUTE.
pub struct AttributeRule;

impl Rule for AttributeRule {
    type Output = NewAttribute;

    ghost reads = { attribute };

    fn read(parser: &mut Parser<'_>) -> Result<NewAttribute, ParseFault> {
        parser.word(b"ATTRIBUTE")?;
        let level = parser.name()?;
        parser.word(b"DETERMINES")?;
        let columns = Bracketed::<Listed<TableColumnRule>>::read(parser)?;
        Ok(NewAttribute { level, columns })
    }
}

/// CREATE DIMENSION.
pub struct CreateDimensionRule;

impl Rule for CreateDimensionRule {
    type Output = Statement;

    ghost reads = { create_dimension };

    fn read(parser: &mut Parser<'_>) -> Result<Statement, ParseFault> {
        take_words(parser, ["CREATE", "DIMENSION"].as_slice())?;
        let name = parser.name()?;
        let levels = Many::<LevelRule>::read(parser)?;
        let hierarchies = Many::<HierarchyRule>::read(parser)?;
        let attributes = Many::<AttributeRule>::read(parser)?;
        let dimension = NewDimension {
            name,
            levels,
            hierarchies,
            attributes,
        };
        let boxed = boxed(parser.alloc(), dimension)?;
        Ok(Statement::Dimension(DimensionStatement::CreateDimension(boxed)))
    }
}

/// DROP DIMENSION.
pub struct DropDimensionRule;

impl Rule for DropDimensionRule {
    type Output = Statement;

    ghost reads = { named_form (codes "DROP" ∷ codes "DIMENSION" ∷ []) (λ n. about.Dimension (dimensions.DropDimension n)) };

    fn read(parser: &mut Parser<'_>) -> Result<Statement, ParseFault> {
        take_words(parser, ["DROP", "DIMENSION"].as_slice())?;
        let name = parser.name()?;
        Ok(Statement::Dimension(DimensionStatement::DropDimension(name)))
    }
}

/// VALIDATE DIMENSION.
pub struct ValidateDimensionRule;

impl Rule for ValidateDimensionRule {
    type Output = Statement;

    ghost reads = { named_form (codes "VALIDATE" ∷ codes "DIMENSION" ∷ []) (λ n. about.Show (shows.ValidateDimension n)) };

    fn read(parser: &mut Parser<'_>) -> Result<Statement, ParseFault> {
        take_words(parser, ["VALIDATE", "DIMENSION"].as_slice())?;
        let name = parser.name()?;
        Ok(Statement::Show(ShowStatement::ValidateDimension(name)))
    }
}

/// A statement on a dimension.
pub type Dimension = Either<CreateDimensionRule, Either<DropDimensionRule, ValidateDimensionRule>>;
