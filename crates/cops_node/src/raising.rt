//! A clock and the clocks of dependencies.
ghost use Rattle.std.specs.Prelude.{◌≡◌, ◌≤◌};
ghost use Rattle.cops_types.specs.declared.limits.TheConstants.{MAX_CLOCK};
ghost use Rattle.cops_node.specs.Node.{raised};

use cops_types::Dep;

/// The greatest clock among this one and those of the pairs (COPS, section 4.2: a put's version is above its
/// dependencies').
pub(crate) fn raised_clock(clock: u64, deps: &[Dep]) -> u64
    requires { clock ≤ MAX_CLOCK }
    ensures raised { result ≡ raised clock deps.now }
    ensures bound { result ≤ MAX_CLOCK }
    ensures above { clock ≤ result }
{
    let mut greatest = clock;
    for dep in deps {
        greatest = greatest.max(dep.version.clock());
    }
    greatest
}
