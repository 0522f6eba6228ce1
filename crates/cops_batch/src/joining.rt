ghost use Rattle.std.specs.Prelude.{◌≡◌, List, IfOk, IfErr, IfSome, IfNone, OnOk, length, flat_map};
ghost use Rattle.cops_types.specs.declared.op.OpName.{OpName};
ghost use Rattle.cops_audit.specs.Tables.{Rises};
ghost use Rattle.cops_audit.specs.Verdicts.{IsVerdict};
ghost use Rattle.cops_batch.specs.Pieces.{ArePieces, Each, IsStoppedByGate, MayFail};
ghost use Rattle.cops_batch.specs.Found.{HasNoEarlierFaults, IsSearched};
ghost use Rattle.cops_batch.specs.declared.pieces.PieceState.TheVariants.{Fine};

use crate::fault::BatchFault;
use crate::pieces::{Piece, PieceState};
use cops_audit::{NotAbove, Puts, Stale, Verdict};
use cops_types::{Gate, OpName};
use std::alloc::{AllocError, Global};

/// Whether no worker failed. `Held` is reported before `Memory`.
pub fn finished<G: Gate>(gate: &G, pieces: &[Piece]) -> Result<(), BatchFault>
    requires pieces { (names : List OpName) × ArePieces names pieces.now }
    requires held { Each (IsStoppedByGate (G.may_hold gate.now)) pieces.now }
    ensures fine { OnOk result (Each (λ p. p.state ≡ Fine) pieces.now) }
    ensures err { IfErr result (MayFail (G.may_hold gate.now) (length pieces.now)) }
{
    for piece in pieces {
        if let PieceState::Held = piece.state {
            return Err(BatchFault::Held);
        }
    }
    for piece in pieces {
        match piece.state {
            PieceState::Fine => {}
            PieceState::Memory => return Err(BatchFault::Memory),
            PieceState::Held => unreachable!(),
        }
    }
    Ok(())
}

/// The names that the workers found, in the order of their pieces.
pub fn joined_names(alloc: Global, pieces: &[Piece]) -> Result<Vec<OpName>, AllocError>
    ensures { IfOk result (λ v. v.items ≡ flat_map (λ p. p.names.items) pieces.now) }
{
    let mut all = Vec::new(alloc);
    for piece in pieces {
        all.extend_from_slice(piece.names.as_slice())?;
    }
    Ok(all)
}

/// The puts that are not above their sessions' earlier operations, in the order of the pieces.
fn joined_not_above(alloc: Global, pieces: &[Piece]) -> Result<Vec<NotAbove>, AllocError>
    ensures { IfOk result (λ v. v.items ≡ flat_map (λ p. p.not_above.items) pieces.now) }
{
    let mut all = Vec::new(alloc);
    for piece in pieces {
        all.extend_from_slice(piece.not_above.as_slice())?;
    }
    Ok(all)
}

/// The stale gets that the workers found, in the order of their pieces.
pub fn joined_stale(alloc: Global, pieces: &[Piece]) -> Result<Vec<Stale>, AllocError>
    ensures { IfOk result (λ v. v.items ≡ flat_map (λ p. p.stale.items) pieces.now) }
{
    let mut all = Vec::new(alloc);
    for piece in pieces {
        all.extend_from_slice(piece.stale.as_slice())?;
    }
    Ok(all)
}

/// The verdict by the classes before the stale gets, or `None` where they are empty in all pieces.
pub fn joined_before_stale<G: Gate>(
    alloc: Global,
    puts: &Puts,
    gate: &G,
    pieces: &[Piece],
) -> Result<Option<Verdict>, BatchFault>
    requires rising { Rises puts.now.table }
    requires pieces { ArePieces puts.now.names pieces.now }
    requires held { Each (IsStoppedByGate (G.may_hold gate.now)) pieces.now }
    requires found { Each (λ p. p.state ≡ Fine → IsSearched puts.now p) pieces.now }
    ensures refused { IfOk result (λ r. IfSome r (IsVerdict puts.now.sessions)) }
    ensures clean { IfOk result (λ r. IfNone r (HasNoEarlierFaults puts.now.sessions)) }
    ensures err { IfErr result (MayFail (G.may_hold gate.now) (length pieces.now)) }
{
    finished(gate, pieces)?;
    let Ok(sourceless) = joined_names(alloc, pieces) else {
        return Err(BatchFault::Memory);
    };
    let Ok(not_above) = joined_not_above(alloc, pieces) else {
        return Err(BatchFault::Memory);
    };
    Ok(puts.verdict_before_stale(sourceless, not_above))
}
