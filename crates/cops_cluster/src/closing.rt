//! Closing a cluster: comparing the nodes' logs with what the callers were answered.
ghost use Rattle.std.specs.Prelude.{◌≡◌, ◌≤◌, ◌<◌, ◌+◌, ◌↔◌, ◌||◌, ℕ, true, length, vec_len, vec_capacity, IfOk, IsTrue, slice_index_or};
ghost use Rattle.cops_types.specs.declared.limits.TheConstants.{NODES, PLACES};
ghost use Rattle.cops_cluster.specs.declared.share.Share.{Share};
ghost use Rattle.cops_cluster.specs.Close.{AllReplay, AreAll, IsReplay, entries_at, is_seat, made_by, made_in, number_of};

use crate::cluster::Cluster;
use crate::differing::difference_where;
use crate::share::{Holder, Share};
use cops_node::{Book, Entry};
use cops_record::IntoTraceFault;
use cops_trace::Trace;
use cops_types::{Memory, PLACES};
use std::alloc::{AllocError, Global};
use std::sync::Mutex;

/// What is left of a closed cluster: for each node, in order of node numbers, the list of its log entries; and the
/// trace of what the clients saw.
#[derive(Drop)]
pub struct Closed {
    pub books: Vec<Vec<Entry>>,
    pub trace: Trace,
}

/// What is left of a closed cluster whose logs have not been compared with the shares.
#[derive(Drop)]
pub struct Uncompared {
    pub closed: Closed,
    pub shares: Vec<Share>,
}

/// Why a cluster was not closed.
#[derive(Drop)]
pub enum CloseFault {
    /// Out of memory. Returns the cluster and the shares.
    Memory(Cluster, Vec<Share>),
    /// There is not exactly one share of each client and of each receiver. Returns the cluster and the shares.
    SharesMissing(Cluster, Vec<Share>),
    /// The nodes' logs, which replay, and the shares have different entries. `ticket` is the least ticket at which the
    /// entries of the logs and of the shares differ as multisets.
    NotKept { ticket: u64 },
}

impl Cluster {
    ghost use Rattle.std.specs.Prelude.{◌≡◌, ◌+◌, ◌*◌, ℕ, length, vec_len, Err, IfOk, IfErr, IfSome, IfNone, IsTrue};
    ghost use Rattle.std.specs.List.Sorted.{IsPermutation};
    ghost use Rattle.cops_cluster.specs.Close.{AllReplay, AreAll, made_in, reported};
    ghost use Rattle.cops_cluster.specs.HandedBack.{HandsBack, HasRooms};

    /// Closes the cluster. Each returned list replays its node's steps from an empty node, and the lists together have
    /// the entries of the shares, as a multiset.
    ///
    /// Errors: `SharesMissing` unless there is exactly one share of each client and of each receiver; then `NotKept`
    /// where the entries differ, with the least ticket at which they do; `Memory` when memory runs out.
    pub fn close(self, shares: Vec<Share>) -> Result<Closed, CloseFault>
        ensures len { IfOk result (λ closed. length closed.books.items ≡ self.place.dcs * (length self.place.splits + 1)) }
        ensures replays { IfOk result (λ closed. AllReplay (length self.place.splits + 1) closed.books.items) }
        ensures reported { IfOk result (λ closed. IsPermutation (made_in (length self.place.splits + 1) 0 closed.books.items) (reported shares.items)) }
        ensures all { IfOk result (λ _. AreAll self.clients self.place.dcs shares.items) }
        ensures back { IfErr result (HandsBack self shares) }
    {
        match self.ended(shares, true) {
            Ok(Uncompared { closed, shares }) => {
                drop(shares);
                Ok(closed)
            }
            Err(fault) => Err(fault),
        }
    }

    /// Closes the cluster like `close`, but does not compare the logs with the shares: the caller does so with
    /// `difference_of_lists`. Each returned list replays its node's steps.
    ///
    /// Errors: `SharesMissing` unless there is exactly one share of each client and of each receiver; `Memory` when
    /// memory runs out. It never returns `NotKept`.
    pub fn close_uncompared(self, shares: Vec<Share>) -> Result<Uncompared, CloseFault>
        ensures len { IfOk result (λ u. length u.closed.books.items ≡ self.place.dcs * (length self.place.splits + 1)) }
        ensures replays { IfOk result (λ u. AllReplay (length self.place.splits + 1) u.closed.books.items) }
        ensures shares { IfOk result (λ u. u.shares ≡ shares) }
        ensures all { IfOk result (λ _. AreAll self.clients self.place.dcs shares.items) }
        ensures back { IfErr result (HandsBack self shares) }
        ensures uncompared { (ticket : ℕ) → result ≡ Err (CloseFault.NotKept ticket) → ⊥ }
    {
        self.ended(shares, false)
    }

    /// Closes the cluster, and compares the logs with the shares if `compares` is set.
    fn ended(self, shares: Vec<Share>, compares: bool) -> Result<Uncompared, CloseFault>
        ensures len { IfOk result (λ u. length u.closed.books.items ≡ self.place.dcs * (length self.place.splits + 1)) }
        ensures replays { IfOk result (λ u. AllReplay (length self.place.splits + 1) u.closed.books.items) }
        ensures reported { IfOk result (λ u. IsTrue compares → IsPermutation (made_in (length self.place.splits + 1) 0 u.closed.books.items) (reported shares.items)) }
        ensures shares { IfOk result (λ u. u.shares ≡ shares) }
        ensures all { IfOk result (λ _. AreAll self.clients self.place.dcs shares.items) }
        ensures back { IfErr result (HandsBack self shares) }
        ensures compared { (ticket : ℕ) → result ≡ Err (CloseFault.NotKept ticket) → IsTrue compares }
    {
        let rooms = match self.rooms_for(&shares) {
            Ok(Some(rooms)) => rooms,
            Ok(None) => return Err(CloseFault::SharesMissing(self, shares)),
            Err(_) => return Err(CloseFault::Memory(self, shares)),
        };
        self.ended_in(rooms, shares, compares)
    }

    /// Empty lists with room for what each node returns; `None` unless there is exactly one share of each client and of
    /// each receiver.
    fn rooms_for(&self, shares: &[Share]) -> Result<Option<Rooms>, AllocError>
        ensures some { IfOk result (λ o. IfSome o (λ rooms. HasRooms (vec_len self.now.nodes) rooms × AreAll self.now.clients self.now.place.dcs shares.now)) }
        ensures none { IfOk result (λ o. IfNone o (AreAll self.now.clients self.now.place.dcs shares.now → ⊥)) }
    {
        if has_all(self.alloc, self.clients, self.place.dcs(), shares)? {
            Ok(Some(Rooms::of(self.alloc, self.nodes.len())?))
        } else {
            Ok(None)
        }
    }
}

impl Cluster {
    ghost use Rattle.std.specs.Prelude.{◌≡◌, ◌≤◌, ◌+◌, ◌*◌, ℕ, length, vec_len, vec_capacity, Err, IfOk, IfErr, IsTrue};
    ghost use Rattle.std.specs.List.Sorted.{IsPermutation};
    ghost use Rattle.cops_cluster.specs.Close.{AllReplay, AreAll, made_in, reported};
    ghost use Rattle.cops_cluster.specs.HandedBack.{HandsBack, HasRooms};

    /// Like `ended`, for shares that are complete and with the lists already allocated.
    fn ended_in(
        self,
        rooms: Rooms,
        shares: Vec<Share>,
        compares: bool,
    ) -> Result<Uncompared, CloseFault>
        requires rooms { HasRooms (vec_len self.nodes) rooms }
        requires all { AreAll self.clients self.place.dcs shares.items }
        ensures len { IfOk result (λ u. length u.closed.books.items ≡ vec_len self.nodes) }
        ensures replays { IfOk result (λ u. AllReplay (length self.place.splits + 1) u.closed.books.items) }
        ensures reported { IfOk result (λ u. IsTrue compares → IsPermutation (made_in (length self.place.splits + 1) 0 u.closed.books.items) (reported shares.items)) }
        ensures shares { IfOk result (λ u. u.shares ≡ shares) }
        ensures back { IfErr result (HandsBack self shares) }
        ensures compared { (ticket : ℕ) → result ≡ Err (CloseFault.NotKept ticket) → IsTrue compares }
    {
        let Cluster {
            format,
            place,
            clients,
            nodes,
            tickets,
            recorder,
            alloc,
        } = self;
        let Rooms {
            books,
            locks,
            lists,
        } = rooms;
        let places = usize::from(place.nodes());
        let books = taken_out(books, nodes);
        let recorder = match difference_where(compares, alloc, places, &books, &shares) {
            Ok(Some(ticket)) => return Err(not_kept(listed(alloc, places, lists, books), ticket)),
            Ok(None) => match recorder.into_trace() {
                Ok(trace) => {
                    let books = listed(alloc, places, lists, books);
                    let closed = Closed { books, trace };
                    return Ok(Uncompared { closed, shares });
                }
                Err(IntoTraceFault::Memory(recorder)) => recorder,
            },
            Err(_) => recorder,
        };
        let cluster = Cluster {
            format,
            place,
            clients,
            nodes: locked(locks, books),
            tickets,
            recorder,
            alloc,
        };
        Err(CloseFault::Memory(cluster, shares))
    }
}

/// Drops the lists and returns the fault that the entries differ at `ticket`.
fn not_kept(lists: Vec<Vec<Entry>>, ticket: u64) -> CloseFault
    ensures { result ≡ CloseFault.NotKept ticket }
{
    drop(lists);
    CloseFault::NotKept { ticket }
}

/// Empty lists with room for what each node returns.
#[derive(Drop)]
pub(crate) struct Rooms {
    pub(crate) books: Vec<Book>,
    pub(crate) locks: Vec<Mutex<Book>>,
    pub(crate) lists: Vec<Vec<Entry>>,
}

impl Rooms {
    ghost use Rattle.std.specs.Prelude.{IfOk};
    ghost use Rattle.cops_cluster.specs.HandedBack.{HasRooms};

    fn of(alloc: Global, nodes: usize) -> Result<Rooms, AllocError>
        ensures { IfOk result (HasRooms nodes) }
    {
        Ok(Rooms {
            books: Vec::with_capacity(alloc, nodes)?,
            locks: Vec::with_capacity(alloc, nodes)?,
            lists: Vec::with_capacity(alloc, nodes)?,
        })
    }
}

/// Whether there is a share for each client and each receiver, and no other.
fn has_all(alloc: Global, clients: u16, dcs: u8, shares: &[Share]) -> Result<bool, AllocError>
    ensures { IfOk result (λ is. IsTrue is ↔ AreAll clients dcs shares.now) }
{
    let seats = usize::from(clients) + usize::from(dcs);
    if shares.len() != seats {
        return Ok(false);
    }
    let mut taken = vec![in alloc; false; seats]?;
    for share in shares {
        take_seat(&mut taken, clients, share.holder);
    }
    Ok(are_taken(&taken))
}

/// Whether each seat is taken.
fn are_taken(taken: &[bool]) -> bool
    ensures { IsTrue result ↔ ((seat : ℕ) → seat < length taken.now → slice_index_or taken.now seat true ≡ true) }
{
    for i in 0..taken.len() {
        if !taken[i] {
            return false;
        }
    }
    true
}

/// Marks the holder's seat as taken, if there is such a seat.
fn take_seat(taken: &mut [bool], clients: u16, holder: Holder)
    ensures len { length taken.new ≡ length taken.old }
    ensures seat { (seat : ℕ) → seat < length taken.old → slice_index_or taken.new seat true ≡ (is_seat clients seat holder || slice_index_or taken.old seat true) }
{
    let seat = match holder {
        Holder::Client(number) => {
            if number >= clients {
                return;
            }
            usize::from(number)
        }
        Holder::Receiver(dc) => usize::from(clients) + usize::from(dc),
    };
    if seat < taken.len() {
        taken[seat] = true;
    }
}

/// Takes the books out of their locks.
fn taken_out(room: Vec<Book>, nodes: Vec<Mutex<Book>>) -> Vec<Book>
    requires empty { vec_len room ≡ 0 }
    requires room { vec_len nodes ≤ vec_capacity room }
    ensures { vec_len result ≡ vec_len nodes }
{
    let mut books = room;
    for node in nodes {
        books.push_reserved(node.into_inner());
    }
    books
}

/// Puts each book under a lock.
fn locked(room: Vec<Mutex<Book>>, books: Vec<Book>) -> Vec<Mutex<Book>>
    requires empty { vec_len room ≡ 0 }
    requires room { vec_len books ≤ vec_capacity room }
    ensures { vec_len result ≡ vec_len books }
{
    let mut nodes = room;
    for book in books {
        nodes.push_reserved(Mutex::new(book));
    }
    nodes
}

/// The entries of the books, a list for each node.
fn listed(alloc: Global, places: usize, room: Vec<Vec<Entry>>, books: Vec<Book>) -> Vec<Vec<Entry>>
    requires places { 0 < places × places ≤ PLACES }
    requires few { vec_len books ≤ NODES }
    requires empty { vec_len room ≡ 0 }
    requires room { vec_len books ≤ vec_capacity room }
    ensures len { vec_len result ≡ vec_len books }
    ensures replays { AllReplay places result.items }
    ensures made { made_in places 0 result.items ≡ made_by places 0 books.items }
{
    let mut lists = room;
    for book in books {
        let n = lists.len();
        lists.push_reserved(list_at(alloc, places, n, book));
    }
    lists
}

/// The entries of `book` if it belongs to the nth node; otherwise an empty list.
fn list_at(alloc: Global, places: usize, n: usize, book: Book) -> Vec<Entry>
    requires places { 0 < places × places ≤ PLACES }
    requires few { n < NODES }
    ensures entries { result.items ≡ entries_at places n book }
    ensures replays { IsReplay (number_of places n) result.items }
{
    if usize::from(book.node().number()) == number_at(places, n) {
        book.into_entries()
    } else {
        Vec::new(alloc)
    }
}

/// The number of the nth node, where each data centre has `places` nodes.
pub(crate) fn number_at(places: usize, n: usize) -> usize
    requires places { 0 < places × places ≤ PLACES }
    requires few { n < NODES }
    ensures { result ≡ number_of places n }
{
    (n / places) * usize::from(PLACES) + n % places
}
