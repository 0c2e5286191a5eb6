ghost use Rattle.std.specs.Prelude.{◌≡◌, [], ◌∷◌, ◌++◌, ◌<◌, ◌==◌, length, slice_index_or, find, OnOk, OnErr};
ghost use Rattle.guest_base.specs.Levels.{level_at, level_or_huge};
ghost use Rattle.guest_base.specs.Ranges.{in_range};

use crate::memory::{HostRun, Level, Page};
use std::alloc::{AllocError, Global};
use std::marker::Model;

/// A list of plain values, which contracts see as a list.
#[derive(Debug, Drop)]
pub struct Items<T> {
    items: Vec<T>,
}

/// Bytes.
pub type Bytes = Items<u8>;

impl<T> Model for Items<T> {
    ghost use Rattle.std.specs.Prelude.{List};
    ghost use Rattle.std.specs.Coded.{coded_list};

    ghost Value = { List T };

    ghost coded = { coded_list T.code };

    ghost view = { λ a. a.items.items };
}

impl<T> Items<T> {
    /// The list of no items.
    pub fn new(alloc: Global) -> Items<T>
        ensures { result ≡ [] }
    {
        Items {
            items: Vec::new(alloc),
        }
    }

    /// The list of these items, in their order.
    pub fn from_vec(items: Vec<T>) -> Items<T>
        ensures { result ≡ items.items }
    {
        Items { items }
    }

    /// The number of items.
    pub fn len(&self) -> u64
        ensures { result ≡ length self.now }
    {
        self.items.len() as u64
    }

    /// Whether there is no item.
    pub fn is_empty(&self) -> bool
        ensures { result ≡ (length self.now == 0) }
    {
        self.items.is_empty()
    }

    /// The items, in order.
    pub fn as_slice(&self) -> &[T]
        ensures { result.now ≡ self.now }
    {
        self.items.as_slice()
    }

    /// The item at a place, counted from 0.
    pub fn get(&self, at: u64) -> &T
        requires { at < length self.now }
        ensures { result.now ≡ slice_index_or self.now at result.now }
    {
        &self.items[at as usize]
    }

    /// Adds an item at the end. After a refusal the list is as before.
    pub fn try_push(&mut self, item: T) -> Result<(), AllocError>
    where
        T: Drop,
        ensures ok { OnOk result (self.new ≡ self.old ++ item ∷ []) }
        ensures err { OnErr result (self.new ≡ self.old) }
    {
        self.items.push(item)?;
        Ok(())
    }

    /// The items as a vector.
    pub fn into_vec(self) -> Vec<T>
        ensures { result.items ≡ self }
    {
        let Items { items } = self;
        items
    }
}

impl Items<HostRun> {
    /// The level at which the host maps a page: that of the first record that holds it, else Huge.
    pub fn level(&self, page: Page) -> Level
        ensures { result ≡ level_at self.now page.0 }
    {
        level_or_huge_of(first_holding(self.items.as_slice(), page))
    }
}

fn first_holding(runs: &[HostRun], page: Page) -> Option<HostRun>
    ensures { result ≡ find (λ run. in_range run.pages.first run.pages.count page.0) runs.now }
{
    runs.iter().copied().find(|run| run.pages.holds(page))
}

fn level_or_huge_of(run: Option<HostRun>) -> Level
    ensures { result ≡ level_or_huge run }
{
    match run {
        Some(run) => run.level,
        None => Level::Huge,
    }
}
