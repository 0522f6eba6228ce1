//! Recording the clients' operations: the copies that the world stores, and the room in the history.
ghost use Rattle.cops_types.specs.declared.limits.TheConstants.{MAX_CLIENT_OPS, MAX_OPS};
ghost use Rattle.std.specs.Prelude.{◌≡◌, ◌<◌, ◌⊎◌, ◌∷◌, ◌++◌, [], true, None, Some, nat_lt, ◌&&◌, length, option_copied, slice_index_or, slice_set, IfOk, IfErr, OnOk};
ghost use Rattle.cops_types.specs.declared.refusal.Refusal.TheVariants.{Memory as OutOfMemory, SessionFull, UnknownClient};
ghost use Rattle.cops_types.specs.Counts.{count_of};
ghost use Rattle.cops_types.specs.Format.{most_deps, fits};
ghost use Rattle.cops_types.specs.Histories.{with_op, write};
ghost use Rattle.cops_types.specs.Operations.{operation_of};
ghost use Rattle.cops_node.specs.Acts.{Write as NodeWrite};
ghost use Rattle.cops_node.specs.Node.{ActHappens};
ghost use Rattle.cops_core.specs.Parts.{MayRecord, get_checks, write_checks};
ghost use Rattle.cops_core.specs.World.{refusal, sent};

use crate::client_contexts::ClientContexts;
use crate::issued::Issued;
use cops_node::{Node, Outcome};
use cops_types::{
    Dep, Deps, Format, History, Key, Memory, Op, PutRecord, Refusal, TypeFault, Value, Version,
    content_copy,
};

/// Makes room for a client's next operation. The recorded operations stay.
///
/// Errors: `UnknownClient` if there is no such client, then `SessionFull` if the client has 1,000,000 operations or
/// there are 16,000,000, then `Memory` if memory runs out.
pub fn admit(history: &mut History, client: u16) -> Result<(), Refusal>
    ensures same { history.new.sessions ≡ history.old.sessions }
    ensures ok { OnOk result (MayRecord history.new client) }
    ensures err { IfErr result (λ refused. (refused ≡ OutOfMemory) ⊎ (refusal ((nat_lt client (length history.old.sessions), UnknownClient) ∷ (nat_lt (length (slice_index_or history.old.sessions client [])) MAX_CLIENT_OPS && nat_lt (count_of history.old.sessions) MAX_OPS, SessionFull) ∷ []) ≡ Some refused)) }
    ensures memory { IfErr result (λ refused. refused ≡ OutOfMemory → refusal ((nat_lt client (length history.old.sessions), UnknownClient) ∷ (nat_lt (length (slice_index_or history.old.sessions client [])) MAX_CLIENT_OPS && nat_lt (count_of history.old.sessions) MAX_OPS, SessionFull) ∷ []) ≡ None) }
{
    match history.reserve(client) {
        Ok(()) => Ok(()),
        Err(TypeFault::UnknownClient) => Err(Refusal::UnknownClient),
        Err(TypeFault::TooManyOps) => Err(Refusal::SessionFull),
        Err(_) => Err(Refusal::Memory),
    }
}

/// Makes room for a client's write, which is a deletion if `content` is none.
///
/// Errors: those of `admit`, and `NotInFormat` if the format does not have the write, after `UnknownClient` and before
/// the others.
pub fn admit_write(
    history: &mut History,
    format: Format,
    client: u16,
    content: Option<&Value>,
) -> Result<(), Refusal>
    ensures same { history.new.sessions ≡ history.old.sessions }
    ensures ok { OnOk result (MayRecord history.new client) }
    ensures fits { OnOk result (fits format (option_copied content.entry) ≡ true) }
    ensures err { IfErr result (λ refused. (refused ≡ OutOfMemory) ⊎ (refusal (write_checks history.old.sessions format client (option_copied content.entry)) ≡ Some refused)) }
    ensures memory { IfErr result (λ refused. refused ≡ OutOfMemory → refusal (write_checks history.old.sessions format client (option_copied content.entry)) ≡ None) }
{
    if usize::from(client) < history.clients() && !format.fits(content) {
        return Err(Refusal::NotInFormat);
    }
    admit(history, client)
}

/// Makes room for a client's get.
///
/// Errors: those of `admit`, and `ContextFull` if the client's context has no room for one more pair, before `Memory`
/// and after the others.
pub fn admit_get(
    history: &mut History,
    contexts: &ClientContexts,
    format: Format,
    client: u16,
) -> Result<(), Refusal>
    requires { length contexts.now.pairs ≡ length history.old.sessions }
    ensures same { history.new.sessions ≡ history.old.sessions }
    ensures ok { OnOk result (MayRecord history.new client) }
    ensures room { OnOk result (nat_lt (length (slice_index_or contexts.now.pairs client [])) (most_deps format) ≡ true) }
    ensures err { IfErr result (λ refused. (refused ≡ OutOfMemory) ⊎ (refusal (get_checks history.old.sessions contexts.now.pairs format client) ≡ Some refused)) }
    ensures memory { IfErr result (λ refused. refused ≡ OutOfMemory → refusal (get_checks history.old.sessions contexts.now.pairs format client) ≡ None) }
{
    if let Err(refused) = admit(history, client) {
        if refused == Refusal::Memory && !contexts.has_room(format, client) {
            return Err(Refusal::ContextFull);
        }
        return Err(refused);
    }
    if !contexts.has_room(format, client) {
        return Err(Refusal::ContextFull);
    }
    Ok(())
}

/// Records a client's next operation, for which room has to be reserved.
pub fn record(history: &mut History, client: u16, op: Op)
    requires { MayRecord history.old client }
    ensures { history.new.sessions ≡ with_op history.old.sessions client (operation_of op) }
{
    history.push(client, op).unwrap()
}

/// A put without its version: its key and value, and its dependencies, the client's context. Without a value it is a
/// deletion.
#[derive(Clone, Drop)]
pub struct Draft {
    pub key: Key,
    pub value: Option<Value>,
    pub deps: Deps,
}

/// A draft with copies of a client's write and of its context. Fails if memory runs out.
pub fn drafted(
    contexts: &ClientContexts,
    client: u16,
    key: &Key,
    content: Option<&Value>,
) -> Result<Draft, Memory>
    requires { client < length contexts.now.pairs }
    ensures { IfOk result (λ draft. draft ≡ record { key = key.now; value = option_copied content.entry; deps = slice_index_or contexts.now.pairs client [] }) }
{
    Ok(Draft {
        key: key.clone()?,
        value: content_copy(content)?,
        deps: contexts.deps(client)?,
    })
}

/// The copies that a put needs once it has its version: for the issued put, for its key in the client's context, and
/// for the operation in the session.
#[derive(Drop)]
pub struct Copies {
    pub issued: Draft,
    pub pair_key: Key,
    pub op_key: Key,
    pub op_value: Option<Value>,
}

/// Copies a draft for each place where its put is stored. Fails if memory runs out.
pub fn copies_of(draft: &Draft) -> Result<Copies, Memory>
    ensures { IfOk result (λ copies. copies ≡ record { issued = draft.now; pair_key = draft.now.key; op_key = draft.now.key; op_value = draft.now.value }) }
{
    Ok(Copies {
        issued: draft.clone()?,
        pair_key: draft.key.clone()?,
        op_key: draft.key.clone()?,
        op_value: content_copy(draft.value.as_ref())?,
    })
}

/// Writes a draft at a node of the client's data centre.
pub fn write_at(node: &mut Node, client: u16, own: Draft) -> Outcome
    ensures { ActHappens node.old (NodeWrite client own.key own.value own.deps) result node.new }
{
    let Draft { key, value, deps } = own;
    match value {
        Some(value) => node.put(client, key, value, deps),
        None => node.del(client, key, deps),
    }
}

/// Stores a put with its version: among the issued puts, as its client's context and in its client's session.
pub fn keep_put(
    issued: &mut Issued,
    contexts: &mut ClientContexts,
    history: &mut History,
    client: u16,
    version: Version,
    copies: Copies,
)
    requires room { issued.old.room ≡ true }
    requires new { sent issued.old.puts version ≡ None }
    requires client { client < length contexts.old.pairs }
    requires may { MayRecord history.old client }
    ensures issued { issued.new.puts ≡ issued.old.puts ++ record { key = copies.issued.key; value = copies.issued.value; version = version; deps = copies.issued.deps } ∷ [] }
    ensures context { contexts.new.pairs ≡ slice_set contexts.old.pairs client (record { key = copies.pair_key; version = version } ∷ []) }
    ensures session { history.new.sessions ≡ with_op history.old.sessions client (write copies.op_key copies.op_value version) }
{
    let Copies {
        issued: put,
        pair_key,
        op_key,
        op_value,
    } = copies;
    issued.push(PutRecord {
        version,
        deps: put.deps,
        key: put.key,
        value: put.value,
    });
    let pair = Dep {
        version,
        key: pair_key,
    };
    contexts.replace(client, pair);
    record(history, client, Op::write(op_key, op_value, version))
}
