ghost use Rattle.def_built.specs.Forms.{is_built};
ghost use Rattle.std.specs.Prelude.{◌≡◌};

/// A form of a script: a part of it, or a kind of statement.
#[derive(Clone, Copy, Debug)]
pub enum Form {
    /// `@session`.
    Session,
    /// `@order`.
    Order,
    /// BEGIN, statements and COMMIT.
    Block,
    /// `@load` and its lines.
    Load,
    Select,
    Insert,
    Update,
    Delete,
    CreateTable,
    AlterTable,
    /// CREATE and DROP MATERIALIZED VIEW LOG.
    Log,
    /// CREATE, ALTER, DROP and UNREGISTER MATERIALIZED VIEW.
    View,
    /// CREATE and DROP DIMENSION.
    Dimension,
    /// DBMS_MVIEW.REFRESH.
    Refresh,
    /// PURGE LOG and PURGE UNDO.
    Purge,
    /// SHOW VIEW, SHOW LOG, EXPLAIN MVIEW and VALIDATE DIMENSION.
    Show,
    /// EXPLAIN REWRITE.
    ExplainQuery,
    /// SET TRANSACTION, the COMMIT that ends it, and ALTER SESSION.
    Setting,
    /// `@workers`.
    Workers,
    /// SUBMIT.
    Submit,
    /// CREATE MATERIALIZED VIEW over a view.
    Nested,
}

/// Whether the program runs this form so far. A form that it doesn't run is answered `NotBuilt` on its line, which is this
/// project's own rule.
pub fn is_built(form: Form) -> bool
    ensures { result ≡ is_built form }
{
    matches!(
        form,
        Form::Session
            | Form::Order
            | Form::Block
            | Form::Load
            | Form::Select
            | Form::Insert
            | Form::Update
            | Form::Delete
            | Form::CreateTable
            | Form::View
            | Form::Refresh
            | Form::Show
    )
}
