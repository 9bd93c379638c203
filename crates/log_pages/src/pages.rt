//! A client's bytes in pages of 4,096.

ghost use Rattle.limits.specs.Limits.{longest_stream};
ghost use Rattle.std.specs.Prelude.{[], ◌≡◌, ◌≤◌, ◌<◌, ◌+◌, ◌-◌, ◌*◌, ◌/◌, ◌%◌, ◌^◌, ◌++◌, All, option_map, unwrap_or, IfSome, IfNone, IfOk, IsOk};
ghost use Rattle.std.specs.Prelude.{OnOk, OnErr, length, max};
ghost use Rattle.std.specs.Prelude.{take, drop, slice_index};
ghost use Rattle.log_pages.specs.Pages.{IsFull, IsLast, kept, page_of, room_after, zeroed};

use crate::page::{PAGE, Page};
use arrayvec::ArrayVec;
use ft_io::NoMemory;
use std::alloc::Global;
use std::collections::VecDeque;
use std::marker::Model;
use std::mem;

/// The most bytes in one answer.
pub const PART: usize = 1_024;

/// What a discarded page reads as.
static ZEROS: [u8; PAGE] = [0; PAGE];

/// The bytes of an entry: full pages, and then the page of the last bytes, once there is one. The first pages may be discarded: their bytes then read as zeros.
#[derive(Drop)]
pub struct Pages {
    /// How many pages are discarded.
    given_up: usize,
    /// The full pages, of 4,096 bytes each, that are still stored, in order.
    full: VecDeque<Page>,
    /// The page after them: 1 to 4,096 bytes.
    last: Option<Page>,
}

impl Model for Pages {
    ghost use Rattle.std.specs.Prelude.{◌++◌, ◌*◌, All, IfSome, replicate};
    ghost use Rattle.log_pages.specs.Pages.{IsFull, IsLast, Paged, kept};

    ghost Value = { Paged };

    ghost view = { λ p. record {
      bytes = replicate (4096 * p.given_up) 0 ++ kept p.full.items p.last;
      dropped = p.given_up;
    } };

    ghost invariant = { λ p. All IsFull p.full.items × IfSome p.last IsLast };
}

/// How many more bytes fit into a page; 0 without a page.
fn room_in(page: &Option<Page>) -> usize
    ensures some { IfSome page.now (λ p. length p + result ≡ 4096) }
    ensures none { IfNone page.now (result ≡ 0) }
{
    match page {
        Some(page) => PAGE - page.len(),
        None => 0,
    }
}

/// Appends bytes to the page, if there is one. It must have room for them.
fn add_to(page: &mut Option<Page>, bytes: &[u8])
    requires { IfSome page.old (λ p. length p + length bytes.now ≤ 4096) }
    ensures { page.new ≡ option_map (λ p. p ++ bytes.now) page.old }
{
    if let Some(page) = page {
        page.add(bytes);
    }
}

fn bytes_in(page: &Option<Page>) -> &[u8]
    ensures value { result.now ≡ unwrap_or page.now [] }
    ensures within { length result.now ≤ 4096 }
{
    match page {
        Some(page) => page.as_slice(),
        None => &[],
    }
}

/// A new page with these bytes.
fn page_with(alloc: Global, bytes: &[u8]) -> Result<Page, NoMemory>
    requires { length bytes.now ≤ 4096 }
    ensures { IfOk result (λ page. page ≡ bytes.now) }
{
    let mut page = Page::new(alloc)?;
    page.add(bytes);
    Ok(page)
}

/// Discards the first page, which is full.
#[tactic(auto, using(crate::proofs::GivenUp::first_dropped, crate::proofs::GivenUp::last_dropped))]
fn drop_page(full: &mut VecDeque<Page>, last: &mut Option<Page>)
    requires full { All IsFull full.old.items }
    requires last { IfSome last.old IsLast }
    requires there { 4096 ≤ length (kept full.old.items last.old) }
    ensures value { kept full.new.items last.new ≡ drop 4096 (kept full.old.items last.old) }
    ensures full { All IsFull full.new.items }
    ensures last { IfSome last.new IsLast }
{
    if full.pop_front().is_none() {
        *last = None;
    }
}

/// Discards the first `count` pages, which are full.
#[tactic(auto, using(crate::proofs::GivenUp::drops_on, crate::proofs::GivenUp::one_more_dropped))]
fn drop_pages(full: &mut VecDeque<Page>, last: &mut Option<Page>, count: usize)
    requires full { All IsFull full.old.items }
    requires last { IfSome last.old IsLast }
    requires there { 4096 * count ≤ length (kept full.old.items last.old) }
    ensures value { kept full.new.items last.new ≡ drop (4096 * count) (kept full.old.items last.old) }
    ensures full { All IsFull full.new.items }
    ensures last { IfSome last.new IsLast }
{
    for _dropped in 0..count {
        drop_page(full, last);
    }
}

impl Pages {
    /// No bytes. Nothing is allocated yet.
    pub fn new(alloc: Global) -> Pages
        ensures bytes { result.bytes ≡ [] }
        ensures dropped { result.dropped ≡ 0 }
    {
        Pages {
            given_up: 0,
            full: VecDeque::new(alloc),
            last: None,
        }
    }

    /// How many bytes there are.
    #[tactic(auto, using(crate::proofs::GivenUp::all_length))]
    pub fn len(&self) -> usize
        requires { length self.now.bytes ≤ longest_stream }
        ensures { result ≡ length self.now.bytes }
    {
        let full = (self.given_up + self.full.len()) * PAGE;
        match &self.last {
            Some(page) => full + page.len(),
            None => full,
        }
    }

    /// Appends bytes, at most 4,096. What fits the page of the last byte needs no allocation.
    #[tactic(auto, using(crate::proofs::Cited::add_lemmas))]
    pub fn add(&mut self, alloc: Global, bytes: &[u8]) -> Result<(), NoMemory>
        requires { length bytes.now ≤ 4096 }
        ensures ok { OnOk result (self.new.bytes ≡ self.old.bytes ++ bytes.now) }
        ensures dropped { self.new.dropped ≡ self.old.dropped }
        ensures err { OnErr result (self.new ≡ self.old) }
        ensures in_page { length bytes.now ≤ room_after (length self.old.bytes) → IsOk result }
    {
        let room = room_in(&self.last);
        if bytes.len() <= room {
            add_to(&mut self.last, bytes);
            return Ok(());
        }
        let page = page_with(alloc, &bytes[room..])?;
        self.full.reserve(1)?;
        add_to(&mut self.last, &bytes[..room]);
        if let Some(full) = mem::replace(&mut self.last, Some(page)) {
            self.full.push_back(full).unwrap();
        }
        Ok(())
    }

    /// The bytes of page `i`, counted from 0; none after the last page.
    #[tactic(auto, using(crate::proofs::GivenUp::zero_page, crate::proofs::GivenUp::last_kept, crate::proofs::GivenUp::none_kept))]
    fn page(&self, i: usize) -> &[u8]
        ensures value { result.now ≡ page_of self.now.bytes i }
        ensures within { length result.now ≤ 4096 }
    {
        if i < self.given_up {
            return &ZEROS;
        }
        let place = i - self.given_up;
        if place < self.full.len() {
            return self.full[place].as_slice();
        }
        if place == self.full.len() {
            return bytes_in(&self.last);
        }
        &[]
    }

    /// Discards the first `pages` pages, counting those discarded before: they aren't stored any more. Nothing is allocated.
    #[tactic(auto, using(crate::proofs::GivenUp::zeroed_is))]
    pub fn discard(&mut self, pages: usize)
        requires { 4096 * pages ≤ length self.old.bytes }
        ensures bytes { self.new.bytes ≡ zeroed (4096 * pages) self.old.bytes }
        ensures dropped { self.new.dropped ≡ max self.old.dropped pages }
    {
        let more = pages.saturating_sub(self.given_up);
        drop_pages(&mut self.full, &mut self.last, more);
        self.given_up += more;
    }

    /// The byte at this place, counted from 0.
    #[tactic(auto, using(crate::proofs::Paging::byte_there, crate::proofs::Paging::byte_in_page))]
    pub fn at(&self, at: usize) -> u8
        requires { at < length self.now.bytes }
        ensures { result ≡ slice_index self.now.bytes at }
    {
        self.page(at / PAGE)[at % PAGE]
    }

    /// The bytes from the place `from` to the end of its page.
    #[tactic(auto, using(crate::proofs::Paging::byte_there, std::proofs::lemmas::List::take_rest))]
    fn rest(&self, from: usize) -> &[u8]
        requires { from < length self.now.bytes }
        ensures value { result.now ≡ drop (from % 4096) (page_of self.now.bytes (from / 4096)) }
        ensures within { length result.now ≤ 4096 }
    {
        let page = self.page(from / PAGE);
        &page[from % PAGE..]
    }

    /// Copies the bytes from the place `from` on, at most 1,024, into the empty `part`. They are in one page or in two.
    #[tactic(auto, using(crate::proofs::Paging::part_copied))]
    pub fn copy(&self, from: usize, part: &mut ArrayVec<u8, PART>)
        requires empty { part.old.items ≡ [] }
        requires there { from < length self.now.bytes }
        ensures { part.new.items ≡ take 1024 (drop from self.now.bytes) }
    {
        let rest = self.rest(from);
        let count = rest.len().min(PART);
        let next = self.page(from / PAGE + 1);
        let more = next.len().min(PART - count);
        part.try_extend_from_slice(&rest[..count]).unwrap();
        part.try_extend_from_slice(&next[..more]).unwrap();
    }
}
