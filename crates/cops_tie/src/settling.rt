//! Whether the data centres have converged.
ghost use Rattle.std.specs.Prelude.{◌↔◌, IsTrue};
ghost use Rattle.cops_tie.specs.Runs.{IsConverged, IsEverywhere};

use cops_core::World;
use cops_types::PutRecord;

/// Whether each data centre has settled each issued put.
pub fn is_converged(world: &World) -> bool
    ensures { IsTrue result ↔ IsConverged world.now.setting world.now.world }
{
    for place in 0..world.puts() {
        match world.put_at(place) {
            Some(put) => {
                if !is_everywhere(world, put) {
                    return false;
                }
            }
            None => unreachable!(),
        }
    }
    true
}

/// Whether each data centre has settled the put.
fn is_everywhere(world: &World, put: &PutRecord) -> bool
    ensures { IsTrue result ↔ IsEverywhere world.now.setting world.now.world put.now }
{
    for dc in 0..world.setting().dcs() {
        if !world.has_settled(dc, &put.key, put.version) {
            return false;
        }
    }
    true
}
