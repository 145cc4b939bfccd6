ghost use Rattle.std.specs.Option.{option_to_list};
ghost use Rattle.std.specs.Prelude.{◌≡◌, IfOk, OnOk};
ghost use Rattle.def_meaning.specs.Ranges.{equal_columns, other_end, spread};
ghost use Rattle.wh_base.specs.Columns.{has_column};

use std::alloc::{AllocError, Global};
use wh_base::columns::ColRef;
use wh_base::queries::Edge;

/// Whether the column is among these.
pub fn has_column(columns: &[ColRef], column: ColRef) -> bool
    ensures { result ≡ has_column columns.now column }
{
    columns.iter().any(|other| column.is(*other))
}

// The other column of a join of which just one column is among these.
fn other_end(columns: &[ColRef], edge: Edge) -> Option<ColRef>
    ensures { option_to_list result ≡ other_end columns.now edge }
{
    let near = has_column(columns, edge.from);
    let far = has_column(columns, edge.to);
    if near && !far {
        Some(edge.to)
    } else if far && !near {
        Some(edge.from)
    } else {
        None
    }
}

// One round: what is reached along the joins, each join taken once from the first on.
#[tactic(auto, using(crate::proofs::Rounds::spreading))]
fn spread(columns: &mut Vec<ColRef>, edges: &[Edge]) -> Result<(), AllocError>
    ensures { OnOk result (columns.new.items ≡ spread edges.now columns.old.items) }
{
    for edge in edges {
        if let Some(column) = other_end(columns.as_slice(), *edge) {
            columns.push(column)?;
        }
    }
    Ok(())
}

/// The column and those equal to it by joins: all that a chain of these joins links to it. An error says that memory ran out.
#[tactic(auto, using(crate::proofs::Rounds::rounds))]
pub fn equal_columns(
    alloc: Global,
    edges: &[Edge],
    column: ColRef,
) -> Result<Vec<ColRef>, AllocError>
    ensures { IfOk result (λ columns. columns.items ≡ equal_columns edges.now column) }
{
    let mut columns = Vec::new(alloc);
    columns.push(column)?;
    for round in 0..edges.len() {
        let _ = round;
        spread(&mut columns, edges)?;
    }
    Ok(columns)
}
