//! What a plan that is taken up, or refused, comes to behind a list of inputs.
ghost use Rattle.std.specs.Prelude.{◌≡◌, List};
ghost use Rattle.spk_edge.specs.Along.{node_of};
ghost use Rattle.spk_edge.specs.Patch.{IsPlan, IsRefusal};
ghost use Rattle.spk_edge.specs.declared.plan.Plan.{Plan};
ghost use Rattle.spk_edge_rules.specs.Config.{Setup};
ghost use Rattle.spk_edge_rules.specs.Inputs.{Input};
ghost use Rattle.spk_edge_rules.specs.declared.fault.EdgeFault.{EdgeFault};
ghost use Rattle.spk_edge_rules.specs.declared.fault.EdgeFault.TheVariants.{NoMemory};
ghost use Rattle.spk_plant_edge.specs.Taking.{IsPassed, IsTaken};

use spk_edge::laws::{along, any_list, positions};

/// For every node and every list of inputs, newest first.
pub(crate) fn stepping()
    ensures taken { (s : Setup) (is : List Input) (i : Input) (p : Plan)
        → IsPlan (node_of s is) i p → IsTaken s is i p }
    ensures passed { (s : Setup) (is : List Input) (i : Input) (fault : EdgeFault)
        → IsRefusal (node_of s is) i fault → (fault ≡ NoMemory → ⊥) → IsPassed s is i }
{
    along();
    positions();
    any_list();
}
