ghost use Rattle.std.specs.Prelude.{◌≡◌, ◌∷◌, IfOk, List, [], flat_map, false};
ghost use Rattle.def_resolve.specs.Names.{agg_names, called_by, condition_names, expr_names, item_at_position, item_called, join_names, name_refusal, names_refusal, order_refusal, query_names, what_names};
ghost use Rattle.wh_base.specs.Lists.{first_of, option_case, same_text};
ghost use Rattle.wh_base.specs.Values.{int_text};
ghost use Rattle.wh_base.specs.declared.queries.ColName.{ColName};

use crate::names::name_refusal;
use crate::sources::Source;
use itoa::Buffer;
use std::alloc::{AllocError, Global};
use wh_base::queries::{
    ColName, NamePart, RawAgg, RawCondition, RawExpr, RawItem, RawKey, RawOrder, RawQuery,
    RawTable, RawTest, RawWhat,
};
use wh_base::replies::Refusal;
use wh_base::txt::Txt;

/// A part of a query that names columns.
pub trait Naming {
    /// The names in the order of the text.
    ghost names: { Self → List ColName };

    /// That one of the names is unknown or in two tables: the first. An error says that memory ran out.
    fn unknown(&self, alloc: Global, sources: &[Source<'_>]) -> Result<Option<Refusal>, AllocError>
        ensures { IfOk result (λ r. r ≡ first_of (name_refusal sources.now) (names self.now)) };
}

impl Naming for ColName {
    ghost names = { λ c. c ∷ [] };

    fn unknown(
        &self,
        alloc: Global,
        sources: &[Source<'_>],
    ) -> Result<Option<Refusal>, AllocError> {
        name_refusal(alloc, sources, self)
    }
}

// The first refusal of two names.
fn first_of_two(
    alloc: Global,
    sources: &[Source<'_>],
    first: &ColName,
    second: &ColName,
) -> Result<Option<Refusal>, AllocError>
    ensures { IfOk result (λ r. r ≡ first_of (name_refusal sources.now) (first.now ∷ second.now ∷ [])) }
{
    match name_refusal(alloc, sources, first)? {
        Some(refusal) => Ok(Some(refusal)),
        None => name_refusal(alloc, sources, second),
    }
}

impl Naming for RawExpr {
    ghost names = { expr_names };

    fn unknown(
        &self,
        alloc: Global,
        sources: &[Source<'_>],
    ) -> Result<Option<Refusal>, AllocError> {
        match self {
            RawExpr::Column(name) => name_refusal(alloc, sources, name),
            RawExpr::Times(a, b) => first_of_two(alloc, sources, a, b),
            RawExpr::Constant(_) => Ok(None),
        }
    }
}

impl Naming for RawAgg {
    ghost names = { agg_names };

    fn unknown(
        &self,
        alloc: Global,
        sources: &[Source<'_>],
    ) -> Result<Option<Refusal>, AllocError> {
        match self {
            RawAgg::CountRows => Ok(None),
            RawAgg::CountOf(e)
            | RawAgg::SumOf(e)
            | RawAgg::AvgOf(e)
            | RawAgg::MinOf(e)
            | RawAgg::MaxOf(e) => e.unknown(alloc, sources),
        }
    }
}

impl Naming for RawItem {
    ghost names = { λ i. what_names i.what };

    fn unknown(
        &self,
        alloc: Global,
        sources: &[Source<'_>],
    ) -> Result<Option<Refusal>, AllocError> {
        match &self.what {
            RawWhat::Plain(name) => name_refusal(alloc, sources, name),
            RawWhat::Computed(agg) => agg.unknown(alloc, sources),
        }
    }
}

impl Naming for RawTable {
    ghost names = { join_names };

    fn unknown(
        &self,
        alloc: Global,
        sources: &[Source<'_>],
    ) -> Result<Option<Refusal>, AllocError> {
        match &self.on {
            Some(join) => first_of_two(alloc, sources, &join.left, &join.right),
            None => Ok(None),
        }
    }
}

impl Naming for RawCondition {
    ghost names = { condition_names };

    fn unknown(
        &self,
        alloc: Global,
        sources: &[Source<'_>],
    ) -> Result<Option<Refusal>, AllocError> {
        match self {
            RawCondition::Compare(name, _, _)
            | RawCondition::Between(name, _, _)
            | RawCondition::OneOf(name, _)
            | RawCondition::IsNull(name)
            | RawCondition::NotNull(name) => name_refusal(alloc, sources, name),
            RawCondition::Equal(a, b) => first_of_two(alloc, sources, a, b),
        }
    }
}

impl Naming for RawTest {
    ghost names = { λ t. agg_names t.agg };

    fn unknown(
        &self,
        alloc: Global,
        sources: &[Source<'_>],
    ) -> Result<Option<Refusal>, AllocError> {
        self.agg.unknown(alloc, sources)
    }
}

/// The first name of a list of parts that is unknown or in two tables. An error says that memory ran out.
#[tactic(auto, using(crate::proofs::Firsts::firsts))]
pub fn first_unknown<T: Naming>(
    alloc: Global,
    sources: &[Source<'_>],
    parts: &[T],
) -> Result<Option<Refusal>, AllocError>
    ensures { IfOk result (λ r. r ≡ first_of (name_refusal sources.now) (flat_map T.names parts.now)) }
{
    let found = unknown_in_parts(alloc, sources, parts)?;
    Ok(found)
}

// The same, part by part.
fn unknown_in_parts<T: Naming>(
    alloc: Global,
    sources: &[Source<'_>],
    parts: &[T],
) -> Result<Option<Refusal>, AllocError>
    ensures { IfOk result (λ r. r ≡ first_of (λ p. first_of (name_refusal sources.now) (T.names p)) parts.now) }
{
    for part in parts {
        if let Some(refusal) = part.unknown(alloc, sources)? {
            return Ok(Some(refusal));
        }
    }
    Ok(None)
}

/// The first name before ORDER BY that is unknown or in two tables.
#[tactic(auto, using(crate::proofs::Firsts::names))]
fn names_unknown(
    alloc: Global,
    sources: &[Source<'_>],
    query: &RawQuery,
) -> Result<Option<Refusal>, AllocError>
    ensures { IfOk result (λ r. r ≡ first_of (name_refusal sources.now) (query_names query.now)) }
{
    if let Some(refusal) = first_unknown(alloc, sources, query.items.as_slice())? {
        return Ok(Some(refusal));
    }
    if let Some(refusal) = first_unknown(alloc, sources, query.tables.as_slice())? {
        return Ok(Some(refusal));
    }
    if let Some(refusal) = first_unknown(alloc, sources, query.conditions.as_slice())? {
        return Ok(Some(refusal));
    }
    if let Some(refusal) = first_unknown(alloc, sources, query.groups.as_slice())? {
        return Ok(Some(refusal));
    }
    first_unknown(alloc, sources, query.having.as_slice())
}

// Whether an item has this alias.
fn is_called(item: &RawItem, name: &Txt) -> bool
    ensures { result ≡ option_case item.now.alias false (same_text name.now) }
{
    match &item.alias {
        Some(alias) => name.same_as(alias),
        None => false,
    }
}

/// The place of the first item with this alias.
#[tactic(auto, using(crate::proofs::Places::places))]
fn item_called(query: &RawQuery, name: &Txt) -> Option<u32>
    ensures { result ≡ item_called query.now name.now }
{
    for at in 0..query.items.len() {
        if is_called(&query.items.as_slice()[at], name) {
            return Some(at as u32);
        }
    }
    None
}

/// The item that a key of ORDER BY names by its alias: a name without a qualifier.
pub fn called_by(query: &RawQuery, name: &ColName) -> Option<u32>
    ensures { result ≡ called_by query.now name.now }
{
    match (&name.qualifier, &name.part) {
        (None, NamePart::Plain(text)) => item_called(query, text),
        _ => None,
    }
}

/// The item at a position of ORDER BY, which counts from 1.
pub fn item_at_position(query: &RawQuery, position: i128) -> Option<u32>
    ensures { result ≡ item_at_position query.now position }
{
    if position < 1 || position > query.items.len() as i128 {
        return None;
    }
    Some((position - 1) as u32)
}

// A number in decimal.
fn number_text(alloc: Global, number: i128) -> Result<Txt, AllocError>
    ensures { IfOk result (λ t. t ≡ int_text number) }
{
    let mut buffer = Buffer::new();
    Txt::from_slice(alloc, buffer.format(number).as_bytes())
}

/// That a key of ORDER BY has a position out of range, or a name that is no alias and no one column.
fn order_refusal(
    alloc: Global,
    sources: &[Source<'_>],
    query: &RawQuery,
    key: &RawOrder,
) -> Result<Option<Refusal>, AllocError>
    ensures { IfOk result (λ r. r ≡ order_refusal sources.now query.now key.now) }
{
    match key {
        RawOrder::Position(position) => match item_at_position(query, *position) {
            Some(_) => Ok(None),
            None => Ok(Some(Refusal::NoSuchColumn(number_text(alloc, *position)?))),
        },
        RawOrder::Column(name) => match called_by(query, name) {
            Some(_) => Ok(None),
            None => name_refusal(alloc, sources, name),
        },
        RawOrder::Computed(agg) => agg.unknown(alloc, sources),
    }
}

/// The first key of ORDER BY that names no item and no column.
fn order_unknown(
    alloc: Global,
    sources: &[Source<'_>],
    query: &RawQuery,
) -> Result<Option<Refusal>, AllocError>
    ensures { IfOk result (λ r. r ≡ first_of (λ k. order_refusal sources.now query.now k.what) query.now.order) }
{
    for key in query.order.as_slice() {
        if let Some(refusal) = order_refusal(alloc, sources, query, &key.what)? {
            return Ok(Some(refusal));
        }
    }
    Ok(None)
}

/// The first name in the text, or position of ORDER BY, that stands for nothing.
pub fn names_refusal(
    alloc: Global,
    sources: &[Source<'_>],
    query: &RawQuery,
) -> Result<Option<Refusal>, AllocError>
    ensures { IfOk result (λ r. r ≡ names_refusal sources.now query.now) }
{
    match names_unknown(alloc, sources, query)? {
        Some(refusal) => Ok(Some(refusal)),
        None => order_unknown(alloc, sources, query),
    }
}
