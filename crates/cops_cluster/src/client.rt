use crate::share::Share;
use cops_context::Context;

/// A client of a cluster: its number, its data centre, its context (the pairs that its next write depends on), and its
/// share.
#[derive(Drop)]
pub struct Client {
    pub(crate) number: u16,
    pub(crate) dc: u8,
    pub(crate) context: Context,
    pub(crate) share: Share,
}

impl Client {
    ghost use Rattle.std.specs.Prelude.{◌≡◌};
    ghost use Rattle.std.specs.Borrow.{sem};
    ghost use Rattle.cops_cluster.specs.Lending.{LendsShare};

    /// The client's number.
    pub fn number(&self) -> u16
        ensures { result ≡ self.now.number }
    {
        self.number
    }

    /// The client's data centre.
    pub fn dc(&self) -> u8
        ensures { result ≡ self.now.dc }
    {
        self.dc
    }

    /// Borrows the share mutably. The rest of the client does not change.
    pub fn share(&mut self) -> &mut Share
        ensures* writes_back { sem 𝓛 (LendsShare self.entry result) }
        ensures value { result.now ≡ self.old.share }
    {
        &mut self.share
    }

    /// Consumes the client and returns its share.
    pub fn into_share(self) -> Share
        ensures { result ≡ self.share }
    {
        let Client { share, .. } = self;
        share
    }
}
