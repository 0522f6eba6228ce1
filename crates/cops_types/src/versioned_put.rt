use crate::op::OpName;
use crate::version::Version;

/// A put's name with its version.
#[derive(Clone, Copy, Debug, PartialEq, Eq)]
pub struct VersionedPut {
    pub version: Version,
    pub name: OpName,
}
