// The copies of packets, in pages.
ghost use Rattle.std.specs.Prelude.{◌≡◌, ◌<◌, ◌≤◌, ◌+◌, ◌*◌, ◌∷◌, ◌++◌, [], IfOk, drop, length, slice_index, take};
ghost use Rattle.std.specs.List.{remove};
ghost use Rattle.std.specs.Vec.{vec_capacity};
ghost use Rattle.out_ring.specs.Pages.{IsOrder, Writes, copy_at, filled, place_of};

use sfu_base::NoMemory;
use std::alloc::Global;

/// The size of a page in bytes: that of 32 packets of 1,536 bytes each.
pub const PAGE_BYTES: usize = 49_152;

/// The greatest length of a packet, in bytes.
const LONGEST: usize = 1536;

/// The number of pages. A page that becomes full has at least 32 packets. So, when a page becomes full, the newest 1,535 packets are in at most 48
/// pages.
pub const PAGES: usize = 49;

/// Where a copy is: its page, the index `at` of its first byte among the bytes of all pages, and its size in bytes. For a shared packet, `size` is 0.
#[derive(Clone, Copy, Debug)]
pub struct Location {
    pub at: u32,
    pub size: u16,
    pub page: u8,
}

/// Copies of packets, one after another in pages. The memory of a page isn't touched before a copy needs it.
#[derive(Debug, Drop)]
pub struct Copies {
    // the bytes of all pages, as far as there were copies
    pub bytes: Vec<u8>,
    // the indices of all pages: the current one last, before it the one that was left last, and so on
    pub order: Vec<u8>,
    // where the next copy begins, in the current page or at its end
    pub at: usize,
    // up to where copies may be written
    pub limit: usize,
    ghost few: { length bytes.items ≤ 2408448 },
    ghost reserved: { 2408448 ≤ vec_capacity bytes },
    ghost ordered: { IsOrder order.items },
    ghost reserved_order: { 49 ≤ vec_capacity order },
    ghost above: { 49152 * slice_index order.items 48 ≤ at },
    ghost below: { at ≤ 49152 * slice_index order.items 48 + 49152 },
    ghost there: { limit ≤ length bytes.items },
    ghost page: { limit ≤ 49152 * slice_index order.items 48 + 49152 },
}

impl Copies {
    /// Makes the pages. They have no copies, and the current page has no capacity. All memory is allocated here. Returns `NoMemory` if memory runs
    /// out.
    pub fn new(alloc: Global) -> Result<Copies, NoMemory> {
        let Ok(bytes) = Vec::with_capacity(alloc, PAGES * PAGE_BYTES) else {
            return Err(NoMemory);
        };
        let order = all_pages(alloc)?;
        let at = PAGE_BYTES * usize::from(order[PAGES - 1]) + PAGE_BYTES;
        Ok(Copies {
            bytes,
            order,
            at,
            limit: 0,
        })
    }

    /// The location for a packet without a copy: size 0, where the next copy begins.
    #[inline(always)]
    pub fn nowhere(&self) -> Location
        ensures { result ≡ record { at = self.now.at; size = 0; page = slice_index self.now.order.items 48 } }
    {
        Location {
            at: self.at as u32,
            size: 0,
            page: self.order[PAGES - 1],
        }
    }

    /// How many bytes of the current page are filled with copies.
    pub fn filled(&self) -> usize
        ensures { result ≡ filled self.now.order.items self.now.at }
    {
        self.at - PAGE_BYTES * usize::from(self.order[PAGES - 1])
    }

    /// The index of this page in `order`, or 49 if `order` doesn't have it.
    pub fn place(&self, page: u8) -> usize
        ensures { result ≡ place_of self.now.order.items page }
    {
        place_in(&self.order, page)
    }

    /// Makes the page at this index of `order` the current page. The page is then empty.
    pub fn turn(&mut self, place: usize)
        requires { place < 49 }
        ensures order { self.new.order.items ≡ remove self.old.order.items place ++ slice_index self.old.order.items place ∷ [] }
        ensures filled { self.new.at ≡ 49152 * slice_index self.new.order.items 48 }
        ensures bytes { self.new.bytes ≡ self.old.bytes }
    {
        let page = self.order.remove(place);
        self.order.push_reserved(page);
        self.at = PAGE_BYTES * usize::from(page);
        self.limit = 0;
    }

    /// Makes capacity for a copy of `size` bytes in the current page. The copy must fit into the page.
    pub fn extend(&mut self, size: usize)
        requires { self.old.at + size ≤ 49152 * slice_index self.old.order.items 48 + 49152 }
        ensures order { self.new.order ≡ self.old.order }
        ensures at { self.new.at ≡ self.old.at }
        ensures limit { self.new.at + size ≤ self.new.limit }
        ensures same { take (length self.old.bytes.items) self.new.bytes.items ≡ self.old.bytes.items }
        ensures more { length self.old.bytes.items ≤ length self.new.bytes.items }
    {
        let end = PAGE_BYTES * usize::from(self.order[PAGES - 1]) + PAGE_BYTES;
        reach(&mut self.bytes, self.at + size);
        self.limit = self.bytes.len().min(end);
    }

    /// Copies the packet into the current page, right after the copies there. Returns the location of the new copy.
    #[inline(always)]
    pub fn write(&mut self, packet: &[u8]) -> Location
        requires capacity { self.old.at + length packet.now ≤ self.old.limit }
        requires fits { length packet.now ≤ 1536 }
        ensures location { result ≡ record { at = self.old.at; size = length packet.now; page = slice_index self.old.order.items 48 } }
        ensures order { self.new.order ≡ self.old.order }
        ensures at { self.new.at ≡ self.old.at + length packet.now }
        ensures bytes { Writes self.old.bytes.items self.old.at packet.now self.new.bytes.items }
    {
        let at = self.at;
        overwrite(&mut self.bytes, at, packet);
        self.at = at + packet.len();
        Location {
            at: at as u32,
            size: packet.len() as u16,
            page: self.order[PAGES - 1],
        }
    }

    /// The copy at this location.
    #[inline(always)]
    pub fn get(&self, location: Location) -> &[u8]
        requires { location.at + location.size ≤ length self.now.bytes.items }
        ensures { result.now ≡ copy_at self.now.bytes.items location }
    {
        let at = location.at as usize;
        &self.bytes[at..at + usize::from(location.size)]
    }
}

// Overwrites the bytes from `at` on with the packet. Other bytes stay.
#[inline(always)]
fn overwrite(bytes: &mut Vec<u8>, at: usize, packet: &[u8])
    requires { at + length packet.now ≤ length bytes.old.items }
    ensures writes { Writes bytes.old.items at packet.now bytes.new.items }
    ensures capacity { vec_capacity bytes.new ≡ vec_capacity bytes.old }
{
    put(bytes, at, packet);
}

// Replaces the bytes from `at` on by the packet.
#[inline(always)]
fn put(bytes: &mut Vec<u8>, at: usize, packet: &[u8])
    requires { at + length packet.now ≤ length bytes.old.items }
    ensures items { bytes.new.items ≡ take at bytes.old.items ++ (packet.now ++ drop (at + length packet.now) bytes.old.items) }
    ensures capacity { vec_capacity bytes.new ≡ vec_capacity bytes.old }
{
    bytes[at..at + packet.len()].copy_from_slice(packet);
}

// Appends zeros until there are so many bytes.
#[inline(always)]
fn reach(bytes: &mut Vec<u8>, end: usize)
    requires end { end ≤ 2408448 }
    requires few { length bytes.old.items ≤ 2408448 }
    requires reserved { 2408448 ≤ vec_capacity bytes.old }
    ensures same { take (length bytes.old.items) bytes.new.items ≡ bytes.old.items }
    ensures more { length bytes.old.items ≤ length bytes.new.items }
    ensures end { end ≤ length bytes.new.items }
    ensures few { length bytes.new.items ≤ 2408448 }
    ensures reserved { 2408448 ≤ vec_capacity bytes.new }
{
    if end > bytes.len() {
        grow(bytes, end);
    }
}

// Appends zeros, at least to this end: to a multiple of 1,536, so that few calls do so.
#[inline(never)]
fn grow(bytes: &mut Vec<u8>, end: usize)
    requires end { end ≤ 2408448 }
    requires few { length bytes.old.items < end }
    requires reserved { 2408448 ≤ vec_capacity bytes.old }
    ensures same { take (length bytes.old.items) bytes.new.items ≡ bytes.old.items }
    ensures more { length bytes.old.items ≤ length bytes.new.items }
    ensures end { end ≤ length bytes.new.items }
    ensures few { length bytes.new.items ≤ 2408448 }
    ensures reserved { 2408448 ≤ vec_capacity bytes.new }
{
    let all = (end + (LONGEST - 1)) / LONGEST * LONGEST;
    let _ = bytes.resize(all, 0);
}

// The indices of all pages. The first one to be used is 0, then 1, and so on.
fn all_pages(alloc: Global) -> Result<Vec<u8>, NoMemory>
    ensures ordered { IfOk result (λ order. IsOrder order.items) }
    ensures reserved { IfOk result (λ order. 49 ≤ vec_capacity order) }
{
    let Ok(mut order) = Vec::with_capacity(alloc, PAGES) else {
        return Err(NoMemory);
    };
    for left in 0..PAGES as u8 {
        order.push_reserved(PAGES as u8 - 1 - left);
    }
    Ok(order)
}

// The place of the page in the order, or the order's length.
fn place_in(order: &[u8], page: u8) -> usize
    ensures { result ≡ place_of order.now page }
{
    let mut place = 0;
    while place < order.len() {
        if order[place] == page {
            return place;
        }
        place += 1;
    }
    place
}
