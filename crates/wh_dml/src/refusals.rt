//! What refuses an UPDATE or a DELETE before any row is looked at: names, columns set twice, and kinds.
ghost use Rattle.std.specs.Prelude.{◌≡◌, ◌∷◌, IfOk, Some, [], flat_map, map};
ghost use Rattle.def_effect.specs.Block.{are_one_kind, conditions_unknown, is_counted_column, new_value_names, new_value_refusal, own_column, own_kinds_refusal, place_of, repeated_column, set_names, set_refusal, sorts_refusal, unknown_column};
ghost use Rattle.def_resolve.specs.Kinds.{literal_sort, part_sort, printed_part};
ghost use Rattle.def_resolve.specs.Names.{column_named};
ghost use Rattle.wh_base.specs.Lists.{first_of, has_text};
ghost use Rattle.wh_base.specs.declared.replies.Refusal.{Refusal};
ghost use Rattle.wh_dml.specs.Changing.{delete_refusal, update_refusal};
ghost use Rattle.wh_dml.specs.Setting.{set_misfit};

use crate::asks::value_misfits;
use std::alloc::{AllocError, Global};
use wh_base::columns::{ColPart, ColRef};
use wh_base::queries::RawCondition;
use wh_base::replies::Refusal;
use wh_base::statements::{DeleteRows, NewValue, SetColumn, UpdateRows};
use wh_base::tables::TableDef;
use wh_base::txt::Txt;
use wh_base::values::Literal;
use wh_resolve::{
    Sort, Source, agrees, any_differs, column_named, column_number, first_unknown, literal_sort,
    part_sort, printed_part,
};

/// The table of an UPDATE or a DELETE, as a query would have it in FROM.
pub(crate) fn own_source(number: u32, def: &TableDef) -> Source<'_>
    ensures { result ≡ record { label = def.now.name; table = number; def = def.now } }
{
    Source::new(&def.name, number, def)
}

/// The place of a column that is known, counted from 0.
pub(crate) fn place_of(def: &TableDef, name: &Txt) -> u32
    ensures { result ≡ place_of def.now name.now }
{
    column_number(def, name).unwrap_or(0)
}

// That a name is no column.
fn name_unknown(alloc: Global, def: &TableDef, name: &Txt) -> Result<Option<Refusal>, AllocError>
    ensures { IfOk result (λ r. r ≡ unknown_column def.now (name.now ∷ [])) }
{
    if column_number(def, name).is_some() {
        return Ok(None);
    }
    Ok(Some(Refusal::NoSuchColumn(name.copy(alloc)?)))
}

// That the column whose old value a new value takes is unknown.
fn value_unknown(
    alloc: Global,
    def: &TableDef,
    value: &NewValue,
) -> Result<Option<Refusal>, AllocError>
    ensures { IfOk result (λ r. r ≡ unknown_column def.now (new_value_names value.now)) }
{
    match value {
        NewValue::Given(_) => Ok(None),
        NewValue::Moved(from, _) => name_unknown(alloc, def, from),
    }
}

// That one of the columns that an item of SET names is unknown.
#[tactic(auto, using(crate::proofs::Unknown::items))]
fn set_unknown(
    alloc: Global,
    def: &TableDef,
    set: &SetColumn,
) -> Result<Option<Refusal>, AllocError>
    ensures { IfOk result (λ r. r ≡ unknown_column def.now (set_names set.now)) }
{
    match name_unknown(alloc, def, &set.column)? {
        Some(refusal) => Ok(Some(refusal)),
        None => value_unknown(alloc, def, &set.value),
    }
}

/// The first column of a SET list that is unknown.
#[tactic(auto, using(crate::proofs::Unknown::lists))]
fn sets_unknown(
    alloc: Global,
    def: &TableDef,
    sets: &[SetColumn],
) -> Result<Option<Refusal>, AllocError>
    ensures { IfOk result (λ r. r ≡ unknown_column def.now (flat_map set_names sets.now)) }
{
    let found = unknown_by_item(alloc, def, sets)?;
    Ok(found)
}

// The same, item by item.
fn unknown_by_item(
    alloc: Global,
    def: &TableDef,
    sets: &[SetColumn],
) -> Result<Option<Refusal>, AllocError>
    ensures { IfOk result (λ r. r ≡ first_of (λ s. unknown_column def.now (set_names s)) sets.now) }
{
    for set in sets {
        if let Some(refusal) = set_unknown(alloc, def, set)? {
            return Ok(Some(refusal));
        }
    }
    Ok(None)
}

// Whether a column is among those that are set.
fn is_set(sets: &[SetColumn], name: &Txt) -> bool
    ensures { result ≡ has_text (map (λ s. s.column) sets.now) name.now }
{
    for set in sets {
        if name.same_as(&set.column) {
            return true;
        }
    }
    false
}

/// The first column that a SET list sets a second time. It is asked of names of columns, so it comes before there are more
/// items than columns, and the earlier ones are few.
#[tactic(auto, using(crate::proofs::Twice::repeats))]
fn set_twice(alloc: Global, sets: &[SetColumn]) -> Result<Option<Refusal>, AllocError>
    ensures { IfOk result (λ r. r ≡ repeated_column (map (λ s. s.column) sets.now)) }
{
    for at in 0..sets.len() {
        if is_set(&sets[..at], &sets[at].column) {
            return Ok(Some(Refusal::NameTaken(sets[at].column.copy(alloc)?)));
        }
    }
    Ok(None)
}

// That a value, or what a column is compared with, doesn't fit the column.
fn part_misfit(alloc: Global, def: &TableDef, part: ColPart) -> Result<Option<Refusal>, AllocError>
    ensures { IfOk result (λ r. r ≡ Some (Refusal.ValueDoesNotFit def.now.name (printed_part def.now part))) }
{
    Ok(Some(Refusal::ValueDoesNotFit(def.name.copy(alloc)?, printed_part(alloc, def, part)?)))
}

// Whether a column holds what a number may be added to: numbers, or days.
fn is_counted_column(def: &TableDef, place: u32) -> bool
    ensures { result ≡ is_counted_column def.now place }
{
    !agrees(part_sort(def, ColPart::Col(place)), Sort::Text)
}

// Whether two columns are of one kind.
fn are_one_kind(def: &TableDef, first: u32, second: u32) -> bool
    ensures { result ≡ are_one_kind def.now first second }
{
    agrees(
        part_sort(def, ColPart::Col(first)),
        part_sort(def, ColPart::Col(second)),
    )
}

// That the new value of the column at a place is of another kind.
fn new_value_refusal(
    alloc: Global,
    def: &TableDef,
    place: u32,
    value: &NewValue,
) -> Result<Option<Refusal>, AllocError>
    ensures { IfOk result (λ r. r ≡ new_value_refusal def.now place value.now) }
{
    match value {
        NewValue::Given(literal) => value_misfits(alloc, def, place, literal),
        NewValue::Moved(from, _) => {
            let source = place_of(def, from);
            if is_counted_column(def, source) && are_one_kind(def, source, place) {
                return Ok(None);
            }
            part_misfit(alloc, def, ColPart::Col(place))
        }
    }
}

// The same of an item of a SET list.
#[tactic(auto, unfolding(crate::specs::Setting::set_misfit))]
fn set_misfit(alloc: Global, def: &TableDef, set: &SetColumn) -> Result<Option<Refusal>, AllocError>
    ensures { IfOk result (λ r. r ≡ set_misfit def.now set.now) }
{
    new_value_refusal(alloc, def, place_of(def, &set.column), &set.value)
}

/// The first new value of a SET list that is of another kind than its column.
#[tactic(auto, using(crate::proofs::Misfits::sets))]
fn sets_refusal(
    alloc: Global,
    def: &TableDef,
    sets: &[SetColumn],
) -> Result<Option<Refusal>, AllocError>
    ensures { IfOk result (λ r. r ≡ first_of (set_refusal def.now) sets.now) }
{
    let found = misfit_by_item(alloc, def, sets)?;
    Ok(found)
}

// The same, item by item.
fn misfit_by_item(
    alloc: Global,
    def: &TableDef,
    sets: &[SetColumn],
) -> Result<Option<Refusal>, AllocError>
    ensures { IfOk result (λ r. r ≡ first_of (set_misfit def.now) sets.now) }
{
    for set in sets {
        if let Some(refusal) = set_misfit(alloc, def, set)? {
            return Ok(Some(refusal));
        }
    }
    Ok(None)
}

// That a column is compared with a literal of another kind. A literal may be as long as it likes: it is only compared.
#[tactic(auto, using(crate::proofs::Comparing::comparing))]
fn literals_refusal(
    alloc: Global,
    def: &TableDef,
    column: ColRef,
    literals: &[Literal],
) -> Result<Option<Refusal>, AllocError>
    ensures { IfOk result (λ r. r ≡ sorts_refusal def.now column (map literal_sort literals.now)) }
{
    if any_differs(part_sort(def, column.part), literals) {
        return part_misfit(alloc, def, column.part);
    }
    Ok(None)
}

// That a column is between two literals of which one is of another kind.
fn between_refusal(
    alloc: Global,
    def: &TableDef,
    column: ColRef,
    low: &Literal,
    high: &Literal,
) -> Result<Option<Refusal>, AllocError>
    ensures { IfOk result (λ r. r ≡ sorts_refusal def.now column (literal_sort low.now ∷ literal_sort high.now ∷ [])) }
{
    let sort = part_sort(def, column.part);
    if agrees(sort, literal_sort(low)) && agrees(sort, literal_sort(high)) {
        return Ok(None);
    }
    part_misfit(alloc, def, column.part)
}

// That two columns that are compared are of two kinds; the first prints.
fn equal_refusal(
    alloc: Global,
    def: &TableDef,
    left: ColRef,
    right: ColRef,
) -> Result<Option<Refusal>, AllocError>
    ensures { IfOk result (λ r. r ≡ sorts_refusal def.now left (part_sort def.now right.part ∷ [])) }
{
    if agrees(part_sort(def, left.part), part_sort(def, right.part)) {
        return Ok(None);
    }
    part_misfit(alloc, def, left.part)
}

// That a condition compares a column with something of another kind.
fn own_kinds_refusal(
    alloc: Global,
    def: &TableDef,
    sources: &[Source<'_>],
    condition: &RawCondition,
) -> Result<Option<Refusal>, AllocError>
    ensures { IfOk result (λ r. r ≡ own_kinds_refusal def.now (column_named sources.now) condition.now) }
{
    match condition {
        RawCondition::Compare(name, _, literal) => {
            let column = column_named(sources, name);
            literals_refusal(alloc, def, column, std::slice::from_ref(literal))
        }
        RawCondition::Between(name, low, high) => {
            let column = column_named(sources, name);
            between_refusal(alloc, def, column, low, high)
        }
        RawCondition::Equal(left, right) => {
            let column = column_named(sources, left);
            equal_refusal(alloc, def, column, column_named(sources, right))
        }
        RawCondition::OneOf(name, literals) => {
            let column = column_named(sources, name);
            literals_refusal(alloc, def, column, literals.as_slice())
        }
        RawCondition::IsNull(_) | RawCondition::NotNull(_) => Ok(None),
    }
}

/// The first condition that compares a column of the table with this number with something of another kind.
#[tactic(auto, using(crate::proofs::Misfits::conditions))]
fn conditions_refusal(
    alloc: Global,
    number: u32,
    def: &TableDef,
    conditions: &[RawCondition],
) -> Result<Option<Refusal>, AllocError>
    ensures { IfOk result (λ r. r ≡ first_of (own_kinds_refusal def.now (own_column number def.now)) conditions.now) }
{
    let source = own_source(number, def);
    let found = misfit_by_condition(alloc, def, std::slice::from_ref(&source), conditions)?;
    Ok(found)
}

// The same, condition by condition.
fn misfit_by_condition(
    alloc: Global,
    def: &TableDef,
    sources: &[Source<'_>],
    conditions: &[RawCondition],
) -> Result<Option<Refusal>, AllocError>
    ensures { IfOk result (λ r. r ≡ first_of (own_kinds_refusal def.now (column_named sources.now)) conditions.now) }
{
    for condition in conditions {
        if let Some(refusal) = own_kinds_refusal(alloc, def, sources, condition)? {
            return Ok(Some(refusal));
        }
    }
    Ok(None)
}

/// The first column of the conditions that is unknown in the table with this number.
fn conditions_unknown(
    alloc: Global,
    number: u32,
    def: &TableDef,
    conditions: &[RawCondition],
) -> Result<Option<Refusal>, AllocError>
    ensures { IfOk result (λ r. r ≡ conditions_unknown number def.now conditions.now) }
{
    let source = own_source(number, def);
    let found = first_unknown(alloc, std::slice::from_ref(&source), conditions)?;
    Ok(found)
}

/// The first refusal of an UPDATE of the table with this number and this definition: an unknown column of its SET list and
/// then of its conditions, a column that is set twice, a new value of another kind than its column, and a column that is
/// compared with something of another kind. An error says that memory ran out.
pub fn update_refusal(
    alloc: Global,
    number: u32,
    def: &TableDef,
    statement: &UpdateRows,
) -> Result<Option<Refusal>, AllocError>
    ensures { IfOk result (λ r. r ≡ update_refusal number def.now statement.now) }
{
    let sets = statement.sets.as_slice();
    let conditions = statement.conditions.as_slice();
    if let Some(refusal) = sets_unknown(alloc, def, sets)? {
        return Ok(Some(refusal));
    }
    if let Some(refusal) = conditions_unknown(alloc, number, def, conditions)? {
        return Ok(Some(refusal));
    }
    if let Some(refusal) = set_twice(alloc, sets)? {
        return Ok(Some(refusal));
    }
    if let Some(refusal) = sets_refusal(alloc, def, sets)? {
        return Ok(Some(refusal));
    }
    match conditions_refusal(alloc, number, def, conditions)? {
        Some(refusal) => Ok(Some(refusal)),
        None => Ok(None),
    }
}

/// The first refusal of a DELETE from the table with this number and this definition: an unknown column of its conditions,
/// and a column that is compared with something of another kind. An error says that memory ran out.
pub fn delete_refusal(
    alloc: Global,
    number: u32,
    def: &TableDef,
    statement: &DeleteRows,
) -> Result<Option<Refusal>, AllocError>
    ensures { IfOk result (λ r. r ≡ delete_refusal number def.now statement.now) }
{
    let conditions = statement.conditions.as_slice();
    if let Some(refusal) = conditions_unknown(alloc, number, def, conditions)? {
        return Ok(Some(refusal));
    }
    match conditions_refusal(alloc, number, def, conditions)? {
        Some(refusal) => Ok(Some(refusal)),
        None => Ok(None),
    }
}
