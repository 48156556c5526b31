//! Numbers by place, all of them one number at first, in pages that are made where one is set.

ghost use Rattle.std.specs.Prelude.{◌≡◌, ◌<◌, [], IfOk, OnErr, OnOk, length, get_or, replicate, set};
ghost use Rattle.item_list.specs.Pages.{Opens, numbers_of, page_at};

use std::alloc::{AllocError, Global};
use std::marker::Model;

/// How many numbers a page has: few enough that a short walk fills little, and so many that the
/// list of pages stays small.
const PAGE: usize = 1024;

/// So many numbers, of which those that were set take memory, a page at a time.
pub struct Paged<T: Copy + Drop> {
    pages: Vec<Vec<T>>,
    /// What stands where nothing was set.
    rest: T,
    count: usize,
    alloc: Global,
}

impl<T: Copy + Drop> Drop for Paged<T> {
    fn drop(self) {
        let Paged {
            pages: _,
            rest: _,
            count: _,
            alloc: _,
        } = self;
    }
}

impl<T: Copy + Drop> Model for Paged<T> {
    ghost use Rattle.std.specs.Prelude.{List};
    ghost use Rattle.item_list.specs.Pages.{HasPages, listed, numbers_of};

    ghost Value = { List T };

    ghost view = { λ p. listed (numbers_of p.pages.items) p.rest p.count };

    ghost invariant = { λ p. HasPages (numbers_of p.pages.items) p.count };
}

impl<T: Copy + Drop> Paged<T> {
    /// So many numbers, each of them this one. It takes memory for each 1024th alone.
    pub fn new(alloc: Global, rest: T, count: usize) -> Result<Paged<T>, AllocError>
        ensures value { IfOk result (λ p. p ≡ replicate count rest) }
    {
        let mut pages: Vec<Vec<T>> = Vec::new(alloc);
        'pages: for made in 0..count / PAGE + 1 {
            let _ = made;
            pages.push(Vec::new(alloc))?;
        }
        Ok(Paged {
            pages,
            rest,
            count,
            alloc,
        })
    }

    /// No numbers. It takes no memory.
    pub fn none(alloc: Global, rest: T) -> Paged<T>
        ensures value { result ≡ [] }
    {
        Paged {
            pages: Vec::new(alloc),
            rest,
            count: 0,
            alloc,
        }
    }

    /// So many numbers in their place, each of them this one. Nothing changes where memory runs out.
    pub fn renew(&mut self, rest: T, count: usize) -> Result<(), AllocError>
        ensures value { OnOk result (self.new ≡ replicate count rest) }
        ensures kept { OnErr result (self.new ≡ self.old) }
    {
        *self = Paged::new(self.alloc, rest, count)?;
        Ok(())
    }

    /// The number at a place.
    pub fn get(&self, place: usize) -> T
        requires in_range { place < length self.now }
        ensures value { result ≡ get_or self.now place result }
    {
        let page = &self.pages[place / PAGE];
        let at = place % PAGE;
        if at < page.len() { page[at] } else { self.rest }
    }

    /// Sets the number at a place. Nothing changes where memory runs out. What a search sets for each
    /// label is put in place there.
    #[inline(always)]
    pub fn set(&mut self, place: usize, number: T) -> Result<(), AllocError>
        requires in_range { place < length self.old }
        ensures value { OnOk result (self.new ≡ set self.old place number) }
        ensures kept { OnErr result (self.new ≡ self.old) }
    {
        let page = place / PAGE;
        open_page(self.alloc, &mut self.pages, page, self.rest)?;
        self.pages[page][place % PAGE] = number;
        Ok(())
    }
}

/// Makes a page where it isn't.
#[inline(always)]
fn open_page<T: Copy + Drop>(
    alloc: Global,
    pages: &mut Vec<Vec<T>>,
    page: usize,
    rest: T,
) -> Result<(), AllocError>
    requires in_range { page < length pages.old.items }
    ensures value { OnOk result
        (Opens rest page (numbers_of pages.old.items) (numbers_of pages.new.items)) }
    ensures kept { OnErr result (pages.new.items ≡ pages.old.items) }
{
    if pages[page].is_empty() {
        make_page(alloc, pages, page, rest)?;
    }
    Ok(())
}

/// Makes a page that isn't there. That comes to pass seldom, so it stands apart.
#[cold]
#[inline(never)]
fn make_page<T: Copy + Drop>(
    alloc: Global,
    pages: &mut Vec<Vec<T>>,
    page: usize,
    rest: T,
) -> Result<(), AllocError>
    requires in_range { page < length pages.old.items }
    requires none { page_at (numbers_of pages.old.items) page ≡ [] }
    ensures value { OnOk result
        (Opens rest page (numbers_of pages.old.items) (numbers_of pages.new.items)) }
    ensures kept { OnErr result (pages.new.items ≡ pages.old.items) }
{
    pages[page] = fresh_page(alloc, rest)?;
    Ok(())
}

/// A page.
fn fresh_page<T: Copy + Drop>(alloc: Global, rest: T) -> Result<Vec<T>, AllocError>
    ensures value { IfOk result (λ page. page.items ≡ replicate 1024 rest) }
{
    let mut page: Vec<T> = Vec::with_capacity(alloc, PAGE)?;
    'places: for made in 0..PAGE {
        let _ = made;
        page.push(rest)?;
    }
    Ok(page)
}
