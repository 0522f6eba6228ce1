ghost use Rattle.std.specs.Prelude.{◌≡◌, ◌<◌, ℕ, IfOk, OnOk, length, vec_len, All, slice_index_or};
ghost use Rattle.cops_audit.specs.Tables.{Rises};
ghost use Rattle.cops_batch.specs.Found.{HasDoubled, HasNoEarlierFaults, HasStale, IsSearched};
ghost use Rattle.cops_batch.specs.Pieces.{IsCut, IsStoppedByGate, LiesWithin, SamePlace, piece_len};
ghost use Rattle.cops_batch.specs.declared.pieces.Piece.{Piece};
ghost use Rattle.cops_batch.specs.declared.pieces.PieceState.TheVariants.{Fine};

use cops_audit::{NotAbove, Puts, Stale, Tables};
use cops_types::{Gate, OpName, Point};
use std::alloc::{AllocError, Global};
use std::sync::Wait;

/// The state of a worker's search of its piece.
#[derive(Clone, Copy)]
pub enum PieceState {
    /// It has not failed.
    Fine,
    /// Memory ran out.
    Memory,
    /// The gate held the worker.
    Held,
}

/// A piece of the operations, and what its worker found in it.
#[derive(Drop)]
pub struct Piece {
    pub number: u32,
    pub start: usize,
    pub len: usize,
    pub state: PieceState,
    /// The puts that have the version of another put, or the gets without a source.
    pub names: Vec<OpName>,
    pub not_above: Vec<NotAbove>,
    pub stale: Vec<Stale>,
}

impl Piece {
    /// A piece that is not searched yet.
    fn new(alloc: Global, number: u32, start: usize, len: usize) -> Self
        ensures { (result.number ≡ number) × (result.start ≡ start) × (result.len ≡ len) }
    {
        Piece {
            number,
            start,
            len,
            state: PieceState::Fine,
            names: Vec::new(alloc),
            not_above: Vec::new(alloc),
            stale: Vec::new(alloc),
        }
    }
}

/// Cuts `count` operations into `workers` pieces, the longer ones first.
pub fn cut(alloc: Global, count: usize, workers: u8) -> Result<Vec<Piece>, AllocError>
    requires { 0 < workers }
    ensures cut { IfOk result (λ v. IsCut 0 0 v.items count) }
    ensures within { IfOk result (λ v. All (LiesWithin count) v.items) }
    ensures lengths { IfOk result (λ v. (k : ℕ) (d : Piece) → k < workers → (slice_index_or v.items k d).len ≡ piece_len count workers k) }
    ensures len { IfOk result (λ v. vec_len v ≡ workers) }
{
    let short = count / usize::from(workers);
    let longer = count % usize::from(workers);
    let mut pieces = Vec::with_capacity(alloc, usize::from(workers))?;
    let mut start = 0;
    for number in 0..workers {
        let len = short + usize::from(usize::from(number) < longer);
        pieces.push(Piece::new(alloc, u32::from(number), start, len))?;
        start += len;
    }
    Ok(pieces)
}

/// Ends a worker's piece: passes the gate, which may hold the worker, unless it held it before.
pub fn leave<R: Wait, G: Gate>(rt: &R, gate: &G, piece: &mut Piece)
    requires { IsStoppedByGate (G.may_hold gate.now) piece.old }
    ensures place { SamePlace piece.old piece.new }
    ensures held { IsStoppedByGate (G.may_hold gate.now) piece.new }
    ensures found { piece.new.state ≡ Fine → piece.new ≡ piece.old }
{
    if let PieceState::Held = piece.state {
        return;
    }
    if gate.pass(rt, Point::PieceDone(piece.number)).is_err() {
        piece.state = PieceState::Held;
    }
}

/// A worker's only search where two puts have the same version.
pub fn look_for_doubled<R: Wait, G: Gate>(
    rt: &R,
    alloc: Global,
    puts: &Puts,
    gate: &G,
    piece: &mut Piece,
)
    requires { LiesWithin (length puts.now.names) piece.old }
    ensures place { SamePlace piece.old piece.new }
    ensures held { IsStoppedByGate (G.may_hold gate.now) piece.new }
    ensures found { piece.new.state ≡ Fine → HasDoubled puts.now piece.new }
{
    if gate.pass(rt, Point::PieceStart(piece.number)).is_err() {
        piece.state = PieceState::Held;
        return;
    }
    match puts.doubled(alloc, piece.start, piece.len) {
        Ok(names) => {
            piece.names = names;
            piece.state = PieceState::Fine;
        }
        Err(_) => piece.state = PieceState::Memory,
    }
    leave(rt, gate, piece);
}

/// Searches a piece for the faults of the classes before the stale gets.
fn search_before_stale(alloc: Global, puts: &Puts, piece: &mut Piece) -> Result<(), AllocError>
    requires rising { Rises puts.now.table }
    requires within { LiesWithin (length puts.now.names) piece.old }
    ensures place { SamePlace piece.old piece.new }
    ensures found { OnOk result (IsSearched puts.now piece.new) }
{
    piece.names = puts.without_source(alloc, piece.start, piece.len)?;
    piece.not_above = puts.not_above(alloc, piece.start, piece.len)?;
    Ok(())
}

/// A worker's first search: the classes before the stale gets.
pub fn look_before_stale<R: Wait, G: Gate>(
    rt: &R,
    alloc: Global,
    puts: &Puts,
    gate: &G,
    piece: &mut Piece,
)
    requires rising { Rises puts.now.table }
    requires within { LiesWithin (length puts.now.names) piece.old }
    ensures place { SamePlace piece.old piece.new }
    ensures held { IsStoppedByGate (G.may_hold gate.now) piece.new }
    ensures found { piece.new.state ≡ Fine → IsSearched puts.now piece.new }
{
    if gate.pass(rt, Point::PieceStart(piece.number)).is_err() {
        piece.state = PieceState::Held;
        return;
    }
    match search_before_stale(alloc, puts, piece) {
        Ok(()) => piece.state = PieceState::Fine,
        Err(_) => piece.state = PieceState::Memory,
    }
}

/// Searches a piece for its stale gets.
fn search_for_stale(alloc: Global, tables: &Tables, piece: &mut Piece) -> Result<(), AllocError>
    requires clean { HasNoEarlierFaults tables.now.sessions }
    requires within { LiesWithin (length tables.now.names) piece.old }
    ensures place { SamePlace piece.old piece.new }
    ensures found { OnOk result (HasStale tables.now piece.new) }
{
    piece.stale = tables.stale(alloc, piece.start, piece.len)?;
    Ok(())
}

/// A worker's second search: the stale gets.
pub fn look_for_stale<R: Wait, G: Gate>(
    rt: &R,
    alloc: Global,
    tables: &Tables,
    gate: &G,
    piece: &mut Piece,
)
    requires clean { HasNoEarlierFaults tables.now.sessions }
    requires within { LiesWithin (length tables.now.names) piece.old }
    requires held { IsStoppedByGate (G.may_hold gate.now) piece.old }
    ensures place { SamePlace piece.old piece.new }
    ensures held { IsStoppedByGate (G.may_hold gate.now) piece.new }
    ensures found { piece.new.state ≡ Fine → HasStale tables.now piece.new }
{
    if let PieceState::Held = piece.state {
        return;
    }
    match search_for_stale(alloc, tables, piece) {
        Ok(()) => piece.state = PieceState::Fine,
        Err(_) => piece.state = PieceState::Memory,
    }
    leave(rt, gate, piece);
}
