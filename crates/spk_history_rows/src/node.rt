//! The names of a node.
ghost use Rattle.std.specs.Prelude.{◌≡◌, IfOk};
ghost use Rattle.spk_history_rows.specs.Row.{NodeData, is_named};
ghost use Rattle.spk_history_rows.specs.View.{node_view};

use std::alloc::{AllocError, Global};

/// The group and the name of a node.
#[derive(Debug, Drop)]
pub struct NodeName {
    pub group: String,
    pub name: String,
}

/// These names.
pub(crate) fn node_name(alloc: Global, group: &str, name: &str) -> Result<NodeName, AllocError>
    ensures { IfOk result (λ node. node_view node ≡ record { group = group.now; name = name.now }) }
{
    let group = String::from_str(alloc, group)?;
    let name = String::from_str(alloc, name)?;
    Ok(NodeName { group, name })
}

impl NodeName {
    /// Whether these are its names.
    pub(crate) fn is(&self, group: &str, name: &str) -> bool
        ensures { result
            ≡ is_named (record { group = group.now; name = name.now }) (node_view self.now) }
    {
        group == self.group.as_str() && name == self.name.as_str()
    }
}
