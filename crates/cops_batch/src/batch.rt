ghost use Rattle.std.specs.Prelude.{◌≡◌, ◌<◌, ◌⊎◌, ◌↔◌, ℕ, IfOk, IfErr, IsErrOf, List, length};
ghost use Rattle.cops_types.specs.declared.op.OpName.{OpName};
ghost use Rattle.cops_types.specs.Convergence.{IsCausallyConvergent};
ghost use Rattle.cops_types.specs.declared.limits.TheConstants.{MAX_WORKERS};
ghost use Rattle.cops_audit.specs.Ordered.{IsOrderedVerdict};
ghost use Rattle.cops_audit.specs.Tables.{Repeats, Rises};
ghost use Rattle.cops_audit.specs.Verdicts.{Accepts, ConvergesByVersions, IsVerdict};
ghost use Rattle.cops_batch.specs.Found.{HasDoubled, HasNoEarlierFaults, HasStale, IsSearched};
ghost use Rattle.cops_batch.specs.Pieces.{ArePieces, Each, IsStoppedByGate, LiesWithin, MayFail, MayHoldPiece, SamePlace};
ghost use Rattle.cops_batch.specs.declared.pieces.PieceState.TheVariants.{Fine};
ghost use Rattle.cops_batch.specs.declared.fault.BatchFault.TheVariants.{BadWorkers, Held};

use crate::fault::BatchFault;
use crate::joining::{finished, joined_before_stale, joined_names, joined_stale};
use crate::pieces::{Piece, cut, leave, look_before_stale, look_for_doubled, look_for_stale};
use cops_audit::{OrderedVerdict, Puts, Tables, Verdict, verdict_on_convergence};
use cops_types::{Gate, History, MAX_WORKERS};
use std::alloc::Global;
use std::sync::Wait;
use std::thread;
use std::thread::Threads;

/// The verdict on a history, computed by `workers` workers, 1 to 64: it is the one of `judge`. The operations in order
/// of names are cut into `workers` pieces, the longer ones first, whose lengths differ by at most one. Each worker
/// passes the gate at `PieceStart` of its piece's number before its work and at `PieceDone` after it. The errors:
/// `BadWorkers` exactly where `workers` is not 1 to 64, `Held` where the gate held a worker, and otherwise `Memory`
/// where memory runs out.
pub fn judge_with<R: Threads + Wait + Sync, G: Gate>(
    rt: &R,
    alloc: Global,
    history: &History,
    workers: u8,
    gate: &G,
) -> Result<Verdict, BatchFault>
    ensures ok { IfOk result (IsVerdict history.now.sessions) }
    ensures convergent { IfOk result (λ v. Accepts v → IsCausallyConvergent history.now.sessions) }
    ensures exactly { IfOk result (λ v. Accepts v ↔ ConvergesByVersions history.now.sessions) }
    ensures bad { IsErrOf result BadWorkers ↔ ((workers ≡ 0) ⊎ (MAX_WORKERS < workers)) }
    ensures held { IsErrOf result Held → (i : ℕ) × (i < workers) × MayHoldPiece (G.may_hold gate.now) i }
{
    let ordered = judge_in_order_with(rt, alloc, history, workers, gate)?;
    verdict_on_convergence();
    Ok(ordered.verdict)
}

/// The verdict that `judge_with` gives, and all puts in order of versions, in which reports look up the sources of gets.
/// The errors are those of `judge_with`.
pub fn judge_in_order_with<R: Threads + Wait + Sync, G: Gate>(
    rt: &R,
    alloc: Global,
    history: &History,
    workers: u8,
    gate: &G,
) -> Result<OrderedVerdict, BatchFault>
    ensures ok { IfOk result (IsOrderedVerdict history.now.sessions) }
    ensures bad { IsErrOf result BadWorkers ↔ ((workers ≡ 0) ⊎ (MAX_WORKERS < workers)) }
    ensures held { IsErrOf result Held → (i : ℕ) × (i < workers) × MayHoldPiece (G.may_hold gate.now) i }
{
    if workers == 0 || workers > MAX_WORKERS {
        return Err(BatchFault::BadWorkers);
    }
    judge_in_pieces(rt, alloc, history, workers, gate)
}

/// The verdict by `workers` workers, with the puts in order of versions.
fn judge_in_pieces<R: Threads + Wait + Sync, G: Gate>(
    rt: &R,
    alloc: Global,
    history: &History,
    workers: u8,
    gate: &G,
) -> Result<OrderedVerdict, BatchFault>
    requires { 0 < workers }
    ensures ok { IfOk result (IsOrderedVerdict history.now.sessions) }
    ensures err { IfErr result (MayFail (G.may_hold gate.now) workers) }
{
    let Ok(puts) = Puts::new(alloc, history) else {
        return Err(BatchFault::Memory);
    };
    let Ok(mut pieces) = cut(alloc, puts.count(), workers) else {
        return Err(BatchFault::Memory);
    };
    if !puts.is_rising() {
        return judge_doubled(rt, alloc, puts, gate, pieces.as_mut_slice());
    }
    judge_gets(rt, alloc, puts, gate, pieces.as_mut_slice())
}

/// The verdict where two puts have the same version.
fn judge_doubled<R: Threads + Wait + Sync, G: Gate>(
    rt: &R,
    alloc: Global,
    puts: Puts,
    gate: &G,
    pieces: &mut [Piece],
) -> Result<OrderedVerdict, BatchFault>
    requires repeats { Repeats puts.table }
    requires pieces { ArePieces puts.names pieces.old }
    ensures ok { IfOk result (IsOrderedVerdict puts.entry.sessions) }
    ensures err { IfErr result (MayFail (G.may_hold gate.now) (length pieces.old)) }
{
    let threads = pieces.len();
    thread::for_each_mut(
        rt,
        pieces,
        threads,
        &|_, piece: &mut Piece|
            requires { LiesWithin (length puts.names) piece.now }
            ensures place { SamePlace piece.entry.now piece.exit.now }
            ensures held { IsStoppedByGate (G.may_hold gate.entry.now) piece.exit.now }
            ensures found { piece.exit.now.state ≡ Fine → HasDoubled puts.entry piece.exit.now }
        { look_for_doubled(rt, alloc, &puts, gate, piece) },
    );
    finished(gate, pieces)?;
    let Ok(faults) = joined_names(alloc, pieces) else {
        return Err(BatchFault::Memory);
    };
    let verdict = puts.refused_doubled(faults);
    Ok(puts.with_verdict(verdict))
}

/// The verdict where no two puts have the same version. There are two rounds, because only after all pieces are
/// searched for the earlier classes of faults is it known whether to look for stale gets.
fn judge_gets<R: Threads + Wait + Sync, G: Gate>(
    rt: &R,
    alloc: Global,
    puts: Puts,
    gate: &G,
    pieces: &mut [Piece],
) -> Result<OrderedVerdict, BatchFault>
    requires rising { Rises puts.table }
    requires pieces { ArePieces puts.names pieces.old }
    ensures ok { IfOk result (IsOrderedVerdict puts.entry.sessions) }
    ensures err { IfErr result (MayFail (G.may_hold gate.now) (length pieces.old)) }
{
    let threads = pieces.len();
    thread::for_each_mut(
        rt,
        pieces,
        threads,
        &|_, piece: &mut Piece|
            requires rising { Rises puts.table }
            requires within { LiesWithin (length puts.names) piece.now }
            ensures place { SamePlace piece.entry.now piece.exit.now }
            ensures held { IsStoppedByGate (G.may_hold gate.entry.now) piece.exit.now }
            ensures found { piece.exit.now.state ≡ Fine → IsSearched puts.entry piece.exit.now }
        { look_before_stale(rt, alloc, &puts, gate, piece) },
    );
    match joined_before_stale(alloc, &puts, gate, pieces) {
        Ok(None) => judge_stale(rt, alloc, puts, gate, pieces),
        Ok(Some(verdict)) => {
            last_round(rt, gate, pieces)?;
            Ok(puts.with_verdict(verdict))
        }
        Err(fault) => {
            last_round(rt, gate, pieces)?;
            Err(fault)
        }
    }
}

/// Runs the second round where no stale gets are looked for, each piece in a thread of its own where one can be
/// created, and says whether any worker failed up to its end.
fn last_round<R: Threads + Wait + Sync, G: Gate>(
    rt: &R,
    gate: &G,
    pieces: &mut [Piece],
) -> Result<(), BatchFault>
    requires pieces { (names : List OpName) × ArePieces names pieces.old }
    requires held { Each (IsStoppedByGate (G.may_hold gate.now)) pieces.old }
    ensures err { IfErr result (MayFail (G.may_hold gate.now) (length pieces.old)) }
{
    let threads = pieces.len();
    thread::for_each_mut(
        rt,
        pieces,
        threads,
        &|_, piece: &mut Piece|
            requires { IsStoppedByGate (G.may_hold gate.now) piece.now }
            ensures place { SamePlace piece.entry.now piece.exit.now }
            ensures held { IsStoppedByGate (G.may_hold gate.entry.now) piece.exit.now }
        { leave(rt, gate, piece) },
    );
    finished(gate, pieces)
}

/// The verdict where the classes before the stale gets are empty. The tables in which stale gets are looked up are
/// built here, and each worker looks for the stale gets of its piece.
fn judge_stale<R: Threads + Wait + Sync, G: Gate>(
    rt: &R,
    alloc: Global,
    puts: Puts,
    gate: &G,
    pieces: &mut [Piece],
) -> Result<OrderedVerdict, BatchFault>
    requires rising { Rises puts.table }
    requires clean { HasNoEarlierFaults puts.sessions }
    requires pieces { ArePieces puts.names pieces.old }
    requires held { Each (IsStoppedByGate (G.may_hold gate.now)) pieces.old }
    ensures ok { IfOk result (IsOrderedVerdict puts.entry.sessions) }
    ensures err { IfErr result (MayFail (G.may_hold gate.now) (length pieces.old)) }
{
    let threads = pieces.len();
    let Ok(tables) = Tables::parallel(rt, alloc, puts, threads as u8) else {
        last_round(rt, gate, pieces)?;
        return Err(BatchFault::Memory);
    };
    thread::for_each_mut(
        rt,
        pieces,
        threads,
        &|_, piece: &mut Piece|
            requires clean { HasNoEarlierFaults tables.sessions }
            requires within { LiesWithin (length tables.names) piece.now }
            requires held { IsStoppedByGate (G.may_hold gate.now) piece.now }
            ensures place { SamePlace piece.entry.now piece.exit.now }
            ensures held { IsStoppedByGate (G.may_hold gate.entry.now) piece.exit.now }
            ensures found { piece.exit.now.state ≡ Fine → HasStale tables.entry piece.exit.now }
        { look_for_stale(rt, alloc, &tables, gate, piece) },
    );
    finished(gate, pieces)?;
    let Ok(stale) = joined_stale(alloc, pieces) else {
        return Err(BatchFault::Memory);
    };
    tables.verdict(alloc, stale).or(Err(BatchFault::Memory))
}
