ghost use Rattle.std.specs.Prelude.{◌≡◌, IfOk, is_some, false};
ghost use Rattle.wh_view.specs.Kept.{new_kept, refreshed, suspended, switched, unregistered};

use std::alloc::{AllocError, Global};
use std::marker::Model;
use wh_base::queries::StarQuery;
use wh_base::seq::Seq;
use wh_base::shared::Shared;
use wh_base::statements::Method;
use wh_base::tables::TableDef;
use wh_base::tokens::Token;
use wh_base::txt::Txt;
use wh_base::views::{ViewDef, ViewRows};

/// A materialized view: its definition, its point, which is the SCN of its last refresh, its marks, and the entries that it
/// stores. Copies share the definition and the entries. Contracts see it as a view of the catalog with its entries.
#[derive(Drop)]
pub struct KeptView {
    def: Shared<ViewDef>,
    // ENABLE QUERY REWRITE, which ALTER changes; that of the definition is the one of CREATE
    rewrite: bool,
    point: Option<u64>,
    registered: bool,
    suspended: bool,
    entries: Shared<ViewRows>,
}

impl Model for KeptView {
    ghost use Rattle.wh_view.specs.Kept.{Kept};

    ghost Value = { Kept };

    ghost view = { λ k. record { view = record { def = record k.def { rewrite = k.rewrite }; point = k.point; registered = k.registered; suspended = k.suspended }; entries = k.entries } };
}

impl KeptView {
    /// A new view. With a point, an SCN, it is built and registered; without one it isn't built, and `entries` has to be
    /// empty for it to store nothing. An error says that memory ran out.
    pub fn new(
        alloc: Global,
        def: ViewDef,
        point: Option<u64>,
        entries: ViewRows,
    ) -> Result<KeptView, AllocError>
        ensures { IfOk result (λ k. k ≡ new_kept def point entries) }
    {
        let rewrite = def.rewrite;
        Ok(KeptView {
            def: Shared::new(alloc, def)?,
            rewrite,
            point,
            registered: point.is_some(),
            suspended: false,
            entries: Shared::new(alloc, entries)?,
        })
    }

    /// The number that no other view ever had.
    pub fn number(&self) -> u64
        ensures { result ≡ self.now.view.def.view }
    {
        self.def.get().view
    }

    /// The name.
    pub fn name(&self) -> &Txt
        ensures { result.now ≡ self.now.view.def.name }
    {
        &self.def.get().name
    }

    /// The query in star form.
    pub fn query(&self) -> &StarQuery
        ensures { result.now ≡ self.now.view.def.query }
    {
        &self.def.get().query
    }

    /// The definitions of the tables, in tree order.
    pub fn tables(&self) -> &Seq<TableDef>
        ensures { result.now ≡ self.now.view.def.tables }
    {
        &self.def.get().tables
    }

    /// The tokens of the query, as it was written.
    pub fn tokens(&self) -> &Seq<Token>
        ensures { result.now ≡ self.now.view.def.tokens }
    {
        &self.def.get().tokens
    }

    /// The method by which it is refreshed where no other one is asked.
    pub fn method(&self) -> Method
        ensures { result ≡ self.now.view.def.method }
    {
        self.def.get().method
    }

    /// Whether it is refreshed at each commit that changes one of its tables.
    pub fn on_commit(&self) -> bool
        ensures { result ≡ self.now.view.def.on_commit }
    {
        self.def.get().on_commit
    }

    /// Whether it is enabled for query rewrite.
    pub fn rewrite(&self) -> bool
        ensures { result ≡ self.now.view.def.rewrite }
    {
        self.rewrite
    }

    /// The SCN of the last refresh; none where it isn't built.
    pub fn point(&self) -> Option<u64>
        ensures { result ≡ self.now.view.point }
    {
        self.point
    }

    /// Whether PURGE LOG waits for it.
    pub fn registered(&self) -> bool
        ensures { result ≡ self.now.view.registered }
    {
        self.registered
    }

    /// Whether its refresh at commit is suspended.
    pub fn suspended(&self) -> bool
        ensures { result ≡ self.now.view.suspended }
    {
        self.suspended
    }

    /// The entries that it stores.
    pub fn entries(&self) -> &ViewRows
        ensures { result.now ≡ self.now.entries }
    {
        self.entries.get()
    }

    /// The same view, which shares definition and entries. An error says that memory ran out.
    pub fn copy(&self) -> Result<KeptView, AllocError>
        ensures { IfOk result (λ k. k ≡ self.now) }
    {
        Ok(KeptView {
            def: self.def.share()?,
            rewrite: self.rewrite,
            point: self.point,
            registered: self.registered,
            suspended: self.suspended,
            entries: self.entries.share()?,
        })
    }

    /// ENABLE or DISABLE QUERY REWRITE.
    pub fn switch(&mut self, on: bool)
        ensures { self.new ≡ switched on self.old }
    {
        self.rewrite = on;
    }

    /// An accepted refresh to an SCN: the entries are those given, and it is registered and not suspended. Takes no memory.
    pub fn refresh(&mut self, scn: u64, entries: Shared<ViewRows>)
        ensures { self.new ≡ refreshed scn entries self.old }
    {
        self.entries = entries;
        self.point = Some(scn);
        self.registered = true;
        self.suspended = false;
    }

    /// UNREGISTER: PURGE LOG doesn't wait for it any more.
    pub fn unregister(&mut self)
        ensures { self.new ≡ unregistered self.old }
    {
        self.registered = false;
    }

    /// Its refresh at commit is suspended until an accepted refresh.
    pub fn suspend(&mut self)
        ensures { self.new ≡ suspended self.old }
    {
        self.suspended = true;
    }
}
