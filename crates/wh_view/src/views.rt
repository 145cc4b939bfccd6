ghost use Rattle.std.specs.Prelude.{◌≡◌, ◌+◌, ◌-◌, ◌<◌, ◌^◌, IfOk, OnErr, OnOk, ◌++◌, drop, find, length, option_copied, position, take};
ghost use Rattle.wh_view.specs.Kept.{AreNumbered, added, changed, is_named, is_numbered, none_kept, refreshed, removed, suspended, switched, unregistered, with_change};

use crate::kept::KeptView;
use std::alloc::{AllocError, Global};
use std::marker::Model;
use wh_base::shared::Shared;
use wh_base::txt::Txt;
use wh_base::views::ViewRows;

/// The materialized views of a catalog, in order of creation. Their numbers ascend, and none is ever given twice.
#[derive(Drop)]
pub struct Views {
    items: Vec<KeptView>,
    made: u64,
}

impl Model for Views {
    ghost use Rattle.wh_view.specs.Kept.{AllKept, AreNumbered};

    ghost Value = { AllKept };

    ghost view = { λ v. record { views = v.items.items; made = v.made } };

    ghost invariant = { λ v. AreNumbered (record { views = v.items.items; made = v.made }) };
}

impl Views {
    /// No views. Takes no memory.
    pub fn new(alloc: Global) -> Views
        ensures { result ≡ none_kept }
    {
        Views {
            items: Vec::new(alloc),
            made: 0,
        }
    }

    /// How many views were ever made. The next one has the next number.
    pub fn made(&self) -> u64
        ensures { result ≡ self.now.made }
    {
        self.made
    }

    /// The views, in order of creation.
    pub fn as_slice(&self) -> &[KeptView]
        ensures items { result.now ≡ self.now.views }
        ensures numbered { AreNumbered self.now }
    {
        self.items.as_slice()
    }

    /// The view with this name.
    pub fn named(&self, name: &Txt) -> Option<&KeptView>
        ensures { option_copied result ≡ find (is_named name.now) self.now.views }
    {
        self.items.iter().find(|view| view.name() == name)
    }

    /// The view with this number.
    pub fn numbered(&self, number: u64) -> Option<&KeptView>
        ensures { option_copied result ≡ find (is_numbered number) self.now.views }
    {
        self.items.iter().find(|view| view.number() == number)
    }

    /// The same views, which share what they store. An error says that memory ran out.
    pub fn copy(&self, alloc: Global) -> Result<Views, AllocError>
        ensures { IfOk result (λ v. v ≡ self.now) }
    {
        Ok(Views {
            items: copied_views(alloc, self.items.as_slice())?,
            made: self.made,
        })
    }

    /// One view more, which has the next number. After an error, which says that memory ran out, they are as they were.
    #[tactic(auto, using(crate::proofs::Changing::changing))]
    pub fn add(&mut self, view: KeptView) -> Result<(), AllocError>
        requires next { view.view.def.view ≡ self.old.made + 1 }
        requires room { self.old.made < 2 ^ 64 - 1 }
        ensures ok { OnOk result (self.new ≡ added view self.old) }
        ensures err { OnErr result (self.new ≡ self.old) }
    {
        self.items.push(view)?;
        self.made += 1;
        Ok(())
    }

    /// The views without the one of this number, if it is there. Takes no memory.
    #[tactic(auto, using(crate::proofs::Changing::changing))]
    pub fn remove(&mut self, number: u64)
        ensures { self.new ≡ removed number self.old }
    {
        if let Some(place) = place_of(self.items.as_slice(), number) {
            remove_at(&mut self.items, place);
        }
    }

    /// ENABLE or DISABLE QUERY REWRITE of the view with this number, if it is there.
    #[tactic(auto, using(crate::proofs::Changing::changing))]
    pub fn switch(&mut self, number: u64, on: bool)
        ensures { self.new ≡ changed number (switched on) self.old }
    {
        if let Some(place) = place_of(self.items.as_slice(), number) {
            switch_at(&mut self.items, place, on);
        }
    }

    /// UNREGISTER of the view with this number, if it is there.
    #[tactic(auto, using(crate::proofs::Changing::changing))]
    pub fn unregister(&mut self, number: u64)
        ensures { self.new ≡ changed number unregistered self.old }
    {
        if let Some(place) = place_of(self.items.as_slice(), number) {
            unregister_at(&mut self.items, place);
        }
    }

    /// Suspends the refresh at commit of the view with this number, if it is there.
    #[tactic(auto, using(crate::proofs::Changing::changing))]
    pub fn suspend(&mut self, number: u64)
        ensures { self.new ≡ changed number suspended self.old }
    {
        if let Some(place) = place_of(self.items.as_slice(), number) {
            suspend_at(&mut self.items, place);
        }
    }

    /// An accepted refresh of the view with this number, if it is there, to an SCN with these entries. Takes no memory.
    #[tactic(auto, using(crate::proofs::Changing::changing))]
    pub fn refresh(&mut self, number: u64, scn: u64, entries: Shared<ViewRows>)
        ensures { self.new ≡ changed number (refreshed scn entries) self.old }
    {
        if let Some(place) = place_of(self.items.as_slice(), number) {
            refresh_at(&mut self.items, place, scn, entries);
        }
    }
}

/// The place of the view with this number.
fn place_of(views: &[KeptView], number: u64) -> Option<usize>
    ensures { result ≡ position (is_numbered number) views.now }
{
    views.iter().position(|view| view.number() == number)
}

/// The views without the one at this place.
fn remove_at(views: &mut Vec<KeptView>, place: usize)
    requires { place < length views.old.items }
    ensures { views.new.items ≡ take place views.old.items ++ drop (place + 1) views.old.items }
{
    views.remove(place);
}

#[tactic(auto, using(crate::proofs::Changing::changing))]
fn switch_at(views: &mut Vec<KeptView>, place: usize, on: bool)
    requires { place < length views.old.items }
    ensures { views.new.items ≡ with_change place (switched on) views.old.items }
{
    views[place].switch(on);
}

#[tactic(auto, using(crate::proofs::Changing::changing))]
fn unregister_at(views: &mut Vec<KeptView>, place: usize)
    requires { place < length views.old.items }
    ensures { views.new.items ≡ with_change place unregistered views.old.items }
{
    views[place].unregister();
}

#[tactic(auto, using(crate::proofs::Changing::changing))]
fn suspend_at(views: &mut Vec<KeptView>, place: usize)
    requires { place < length views.old.items }
    ensures { views.new.items ≡ with_change place suspended views.old.items }
{
    views[place].suspend();
}

#[tactic(auto, using(crate::proofs::Changing::changing))]
fn refresh_at(views: &mut Vec<KeptView>, place: usize, scn: u64, entries: Shared<ViewRows>)
    requires { place < length views.old.items }
    ensures { views.new.items ≡ with_change place (refreshed scn entries) views.old.items }
{
    views[place].refresh(scn, entries);
}

/// The same views. An error says that memory ran out.
fn copied_views(alloc: Global, views: &[KeptView]) -> Result<Vec<KeptView>, AllocError>
    ensures { IfOk result (λ copies. copies.items ≡ views.now) }
{
    let mut copies = Vec::with_capacity(alloc, views.len())?;
    for view in views {
        copies.push(view.copy()?)?;
    }
    Ok(copies)
}
