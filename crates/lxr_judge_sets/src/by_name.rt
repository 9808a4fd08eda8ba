//! A value for each name: a table of pages, which has pages for the names alone that were given a value.
ghost use Rattle.std.specs.Prelude.{◌≡◌, ℕ, ◌^◌, ◌<◌, [], IfOk, OnErr, OnOk, length, nat_eq, slice_index_or, if◌then◌else◌};
ghost use Rattle.lxr_layout.specs.declared.Name.{Name as NameOf};
ghost use Rattle.lxr_graph.specs.Names.{same_name};
ghost use Rattle.lxr_judge_sets.specs.ByName.{ReadsWritten, cell_at, value_at};

use lxr_layout::Name;
use std::alloc::{AllocError, Global};
use std::marker::Model;

/// How many serials have their values on one page.
pub(crate) const PAGE: u32 = 1024;

/// The values of serials that stand in a row; none where none was given one.
#[derive(Drop)]
struct Page<T> {
    cells: Vec<T>,
}

impl<T> Model for Page<T> {
    ghost use Rattle.std.specs.Prelude.{List};

    ghost Value = { List T };

    ghost view = { λ page. page.cells.items };
}

/// The pages of one thread's names, from serial 0 on.
#[derive(Drop)]
struct Row<T> {
    pages: Vec<Page<T>>,
}

impl<T> Model for Row<T> {
    ghost use Rattle.std.specs.Prelude.{List};

    ghost Value = { List (List T) };

    ghost view = { λ row. row.pages.items };
}

/// A value for each name; all but those that were given one have the same.
#[derive(Drop)]
pub(crate) struct ByName<T> {
    rows: Vec<Row<T>>,
    rest: T,
}

impl<T> Model for ByName<T> {
    ghost use Rattle.std.specs.Prelude.{◌≡◌, length};
    ghost use Rattle.lxr_judge_sets.specs.ByName.{Cells};

    ghost Value = { Cells T };

    ghost view = { λ t. record { rows = t.rows.items; rest = t.rest } };

    ghost invariant = { λ t. length t.rows.items ≡ 256 };
}

impl<T: Copy + Drop> Page<T> {
    fn at(&self, index: usize, rest: T) -> T
        ensures { result ≡ slice_index_or self.now index rest }
    {
        self.cells.get(index).copied().unwrap_or(rest)
    }

    /// Writes a value; a page that has none yet is filled with the rest's.
    fn set(&mut self, index: usize, value: T, rest: T) -> Result<(), AllocError>
        requires { index < PAGE }
        ensures ok { OnOk result (ReadsWritten self.old self.new index value rest) }
        ensures err { OnErr result (self.new ≡ self.old) }
    {
        if self.cells.len() <= index {
            self.cells.resize(PAGE as usize, rest)?;
        }
        self.cells[index] = value;
        Ok(())
    }
}

impl<T: Copy + Drop> Row<T> {
    fn new(alloc: Global) -> Row<T>
        ensures { result ≡ [] }
    {
        Row {
            pages: Vec::new(alloc),
        }
    }

    fn at(&self, serial: u32, rest: T) -> T
        ensures { result ≡ cell_at self.now serial rest }
    {
        match self.pages.get((serial / PAGE) as usize) {
            None => rest,
            Some(page) => page.at((serial % PAGE) as usize, rest),
        }
    }

    /// Makes room for the pages up to one.
    fn reach(&mut self, page: usize) -> Result<(), AllocError>
        requires { page < 2 ^ 32 }
        ensures reached { OnOk result (page < length self.new) }
        ensures same { (k : ℕ) → slice_index_or self.new k [] ≡ slice_index_or self.old k [] }
    {
        while self.pages.len() <= page {
            let alloc = *self.pages.allocator();
            let cells = Vec::new(alloc);
            self.pages.push(Page { cells })?;
        }
        Ok(())
    }

    fn set(&mut self, serial: u32, value: T, rest: T) -> Result<(), AllocError>
        ensures ok { OnOk result ((k : ℕ) → cell_at self.new k rest ≡ (if nat_eq k serial then value else cell_at self.old k rest)) }
        ensures err { OnErr result ((k : ℕ) → cell_at self.new k rest ≡ cell_at self.old k rest) }
    {
        let page = (serial / PAGE) as usize;
        self.reach(page)?;
        self.pages[page].set((serial % PAGE) as usize, value, rest)
    }
}

impl<T: Copy + Drop> ByName<T> {
    /// All names have one value.
    pub(crate) fn new(alloc: Global, rest: T) -> Result<ByName<T>, AllocError>
        ensures { IfOk result (λ t. (n : NameOf) → value_at t n ≡ rest) }
    {
        let mut rows = Vec::with_capacity(alloc, 256)?;
        for _ in 0u16..256 {
            rows.push(Row::new(alloc))?;
        }
        Ok(ByName { rows, rest })
    }

    /// The value of a name.
    pub(crate) fn at(&self, name: Name) -> T
        ensures { result ≡ value_at self.now name }
    {
        self.rows[usize::from(name.thread)].at(name.serial, self.rest)
    }

    /// Gives a name another value. Where memory runs out, none has another.
    pub(crate) fn set(&mut self, name: Name, value: T) -> Result<(), AllocError>
        ensures ok { OnOk result ((n : NameOf) → value_at self.new n ≡ (if same_name n name then value else value_at self.old n)) }
        ensures err { OnErr result ((n : NameOf) → value_at self.new n ≡ value_at self.old n) }
    {
        let rest = self.rest;
        self.rows[usize::from(name.thread)].set(name.serial, value, rest)
    }
}
