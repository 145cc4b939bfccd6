ghost use Rattle.def_built.specs.Form.{created_by, created_over};
ghost use Rattle.def_resolve.specs.Names.{lone_name};
ghost use Rattle.std.specs.List.{list_any};
ghost use Rattle.std.specs.Option.{option_copied};
ghost use Rattle.std.specs.Prelude.{◌≡◌, ◌||◌, ◌∷◌, [], IfOk, OnOk, false, option_to_list};
ghost use Rattle.wh_base.specs.Lists.{has_text};
ghost use Rattle.wh_script.specs.Known.{HasMore, IsMore, lone_of, nests_with};

use std::alloc::{AllocError, Global};
use std::collections::HashSet;
use std::marker::Model;
use wh_base::queries::{RawQuery, RawTable};
use wh_base::statements::{Command, Statement, ViewStatement};
use wh_base::txt::Txt;

/// Names, of which each is found by its hash. Contracts see them as a list in any order.
#[derive(Drop)]
pub(crate) struct NameSet {
    names: HashSet<Txt>,
}

impl Model for NameSet {
    ghost use Rattle.std.specs.Prelude.{List, ℕ};
    ghost use Rattle.std.specs.Coded.{coded_list, coded_ℕ};

    ghost Value = { List (List ℕ) };

    ghost coded = { coded_list (coded_list coded_ℕ) };

    ghost view = { λ s. s.names.keys };
}

impl NameSet {
    /// No names. Takes no memory.
    pub fn new(alloc: Global) -> NameSet
        ensures { result ≡ [] }
    {
        NameSet {
            names: HashSet::new(alloc),
        }
    }

    pub fn has(&self, name: &Txt) -> bool
        ensures { result ≡ has_text self.now name.now }
    {
        self.names.contains(name)
    }

    // Whether it has the name, where there is one.
    #[tactic(auto, using(crate::proofs::Nesting::ones))]
    fn has_some(&self, name: Option<&Txt>) -> bool
        ensures { result ≡ list_any (has_text self.now) (option_to_list (option_copied name.entry)) }
    {
        match name {
            Some(name) => self.has(name),
            None => false,
        }
    }

    // One name more, or the same where it has it.
    #[tactic(auto, using(crate::proofs::Nesting::sets))]
    fn add(&mut self, alloc: Global, name: &Txt) -> Result<(), AllocError>
        ensures { OnOk result (HasMore self.old (name.now ∷ []) self.new) }
    {
        let copy = name.copy(alloc)?;
        self.names.insert(copy)?;
        Ok(())
    }

    /// The name more, where there is one. An error says that memory ran out.
    #[tactic(auto, using(crate::proofs::Nesting::sets))]
    pub fn add_some(&mut self, alloc: Global, name: Option<&Txt>) -> Result<(), AllocError>
        ensures { OnOk result (HasMore self.old (option_to_list (option_copied name.entry)) self.new) }
    {
        match name {
            Some(name) => {
                self.add(alloc, name)?;
                Ok(())
            }
            None => Ok(()),
        }
    }
}

/// The names of the views that commands create, the names that these stand over, each alone in its FROM, and whether one
/// is both, so that a view may stand over a view.
#[derive(Drop)]
pub(crate) struct ViewNames {
    pub made: NameSet,
    pub over: NameSet,
    pub nest: bool,
}

impl ViewNames {
    /// Those of no commands. Takes no memory.
    pub fn new(alloc: Global) -> ViewNames
        ensures { result ≡ record { made = []; over = []; nest = false } }
    {
        ViewNames {
            made: NameSet::new(alloc),
            over: NameSet::new(alloc),
            nest: false,
        }
    }

    // Whether a name of this command's view is one of these in the other part, or both of its names are one.
    fn nest_with(&self, command: &Command) -> bool
        ensures { result ≡ nests_with self.now command.now }
    {
        let made = made_name(command);
        let over = over_name(command);
        self.over.has_some(made) || self.made.has_some(over) || are_one(made, over)
    }

    // Whether a view may stand over a view with this command's too.
    fn nest_more(&self, command: &Command) -> bool
        ensures { result ≡ (self.now.nest || nests_with self.now command.now) }
    {
        self.nest || self.nest_with(command)
    }

    /// The names with those of one command more, in the time of a few looks. An error says that memory ran out.
    #[tactic(auto, using(crate::proofs::Nesting::mores))]
    pub fn with(self, alloc: Global, command: &Command) -> Result<ViewNames, AllocError>
        ensures { IfOk result (λ v. IsMore self command.now v) }
    {
        let nest = self.nest_more(command);
        let ViewNames {
            mut made,
            mut over,
            nest: _,
        } = self;
        made.add_some(alloc, made_name(command))?;
        over.add_some(alloc, over_name(command))?;
        Ok(ViewNames { made, over, nest })
    }
}

// The name of the view that a command creates.
fn made_name(command: &Command) -> Option<&Txt>
    ensures { option_to_list (option_copied result) ≡ created_by command.now }
{
    match command {
        Command::Other(Statement::View(ViewStatement::CreateView(view))) => Some(&view.name),
        _ => None,
    }
}

// The name over which it creates a view, where that is all that stands in FROM.
fn over_name(command: &Command) -> Option<&Txt>
    ensures { option_to_list (option_copied result) ≡ created_over command.now }
{
    match command {
        Command::Other(Statement::View(ViewStatement::CreateView(view))) => {
            lone_name(&view.asked.get().query)
        }
        _ => None,
    }
}

// The name in FROM of a query over one table or view, where it has no alias.
fn lone_name(query: &RawQuery) -> Option<&Txt>
    ensures { option_copied result ≡ lone_name query.now }
{
    match query.tables.as_slice() {
        [table] => lone_of(table),
        _ => None,
    }
}

fn lone_of(table: &RawTable) -> Option<&Txt>
    ensures { option_copied result ≡ lone_of table.now }
{
    if table.alias.is_none() && table.on.is_none() {
        Some(&table.table)
    } else {
        None
    }
}

// Whether both names are there and are one.
#[tactic(auto, using(crate::proofs::Nesting::ones))]
fn are_one(made: Option<&Txt>, over: Option<&Txt>) -> bool
    ensures { result ≡ list_any (has_text (option_to_list (option_copied made.entry))) (option_to_list (option_copied over.entry)) }
{
    match (made, over) {
        (Some(made), Some(over)) => over.same_as(made),
        (_, None) => false,
        (None, Some(_)) => false,
    }
}
