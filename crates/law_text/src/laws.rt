ghost use Rattle.def_grammar.specs.Query.{select};
ghost use Rattle.def_grammar.specs.Reading.{whole};
ghost use Rattle.def_meaning.specs.Meaning.{in_order, meaning, stored};
ghost use Rattle.def_resolve.specs.Resolve.{resolve};
ghost use Rattle.def_rewriting.specs.Matching.{match_text};
ghost use Rattle.def_rewriting.specs.Matching.{FullText, PartialText};
ghost use Rattle.std.specs.Prelude.{◌++◌, ◌≡◌, List, Ok, Some, map, true, ℕ};
ghost use Rattle.wh_base.specs.Lists.{has_number};
ghost use Rattle.wh_base.specs.Tables.{Base, table_at};
ghost use Rattle.wh_base.specs.declared.queries.RawQuery.{RawQuery};
ghost use Rattle.wh_base.specs.declared.queries.StarQuery.{StarQuery};
ghost use Rattle.wh_base.specs.declared.tables.TableDef.{TableDef};
ghost use Rattle.wh_base.specs.declared.tokens.Token.{Token};
ghost use Rattle.law_text.specs.Unordered.{from_formed, unordered, without_order};

/// Two texts that are equal up to ORDER BY, token by token, are queries that are equal in all but ORDER BY: in their items with
/// their aliases, in tables, AS OF, conditions, groups and HAVING. So it is for what the grammar reads at the front of the
/// tokens, whatever they leave, and for what it reads of all of them.
pub fn same_parts()
    ensures front { (s t rest more : List Token) (a b : RawQuery)
        → match_text s t ≡ FullText → select s ≡ Some (a, rest) → select t ≡ Some (b, more)
        → without_order a ≡ without_order b }
    ensures all { (s t : List Token) (a b : RawQuery)
        → match_text s t ≡ FullText → whole select s ≡ Some a → whole select t ≡ Some b
        → without_order a ≡ without_order b }
{}

/// The star forms of two such queries are equal in all but the order of their answers.
pub fn same_stars()
    ensures { (defs : List TableDef) (a b : RawQuery) (q r : StarQuery)
        → without_order a ≡ without_order b → resolve defs a ≡ Ok q → resolve defs b ≡ Ok r
        → unordered q ≡ unordered r }
{}

/// Over each base state the entries that a view of the one stores, in the order of the other, are what the other means.
pub fn same_rows()
    ensures { (q r : StarQuery) (base : Base)
        → unordered q ≡ unordered r
        → meaning q base ≡ in_order q.order (map (λ e. e.row) (stored r base)) }
{}

/// Tables that are created later don't change the star form of a query.
pub fn later_tables()
    ensures { (defs more : List TableDef) (a : RawQuery) (q : StarQuery)
        → resolve defs a ≡ Ok q → resolve (defs ++ more) a ≡ Ok q }
{}

/// What a view stores and what a query means depend on the query's own tables alone.
pub fn other_rows()
    ensures stores { (q : StarQuery) (base other : Base)
        → ((n : ℕ) → has_number q.tables n ≡ true → table_at base n ≡ table_at other n)
        → stored q base ≡ stored q other }
    ensures means { (q : StarQuery) (base other : Base)
        → ((n : ℕ) → has_number q.tables n ≡ true → table_at base n ≡ table_at other n)
        → meaning q base ≡ meaning q other }
{}

/// A query whose text is that of a view up to ORDER BY means what the view stores, in the query's order. The view may have been
/// resolved and its entries stored earlier: when there were fewer tables, over a base state in which its tables were as they are now.
pub fn same_answer()
    ensures { (s t : List Token) (a b : RawQuery) (defs more : List TableDef) (q r : StarQuery) (base now : Base)
        → match_text s t ≡ FullText → whole select s ≡ Some a → whole select t ≡ Some b
        → resolve (defs ++ more) a ≡ Ok q → resolve defs b ≡ Ok r
        → ((n : ℕ) → has_number r.tables n ≡ true → table_at base n ≡ table_at now n)
        → meaning q now ≡ in_order q.order (map (λ e. e.row) (stored r base)) }
{}

/// Two texts that are equal from FROM on up to ORDER BY, token by token, are star forms that are equal in all but items, ORDER BY
/// and whether they are grouped. The one of the view may have been resolved when there were fewer tables.
pub fn same_from()
    ensures { (s t : List Token) (a b : RawQuery) (defs more : List TableDef) (q r : StarQuery)
        → match_text s t ≡ PartialText → whole select s ≡ Some a → whole select t ≡ Some b
        → resolve (defs ++ more) a ≡ Ok q → resolve defs b ≡ Ok r
        → from_formed q ≡ from_formed r }
{}
