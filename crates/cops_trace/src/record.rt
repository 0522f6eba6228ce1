use cops_types::Op;
use std::alloc::AllocError;

/// One operation of one client.
#[derive(Debug, Drop)]
pub struct Record {
    pub client: u16,
    pub op: Op,
}

/// A copy that equals it.
impl Clone for Record {
    ghost use Rattle.std.specs.Prelude.{◌≡◌};

    ghost is_clone = { λ s t. t ≡ s };

    fn clone(&self) -> Result<Record, AllocError> {
        Ok(Record {
            client: self.client,
            op: self.op.clone()?,
        })
    }
}
