//! The texts of a view.
ghost use Rattle.std.specs.Prelude.{◌≡◌, IfOk, Some, string_bytes};
ghost use Rattle.json.specs.Lex.{tokens};
ghost use Rattle.json.specs.Print.{print};
ghost use Rattle.serde_json.specs.Read.{read};
ghost use Rattle.serde_json.specs.Written.{IsInOrder, compact_text};
ghost use Rattle.spk_page.specs.Rows.{whole_data};
ghost use Rattle.spk_page.specs.View.{view_data};

use crate::entry::Entry;
use crate::head::Head;
use crate::node::{Node, Whole};
use crate::rows_json::whole_value;
use crate::view_json::view_value;
use std::alloc::{AllocError, Global};

/// A node with its metrics and devices, as JSON: without spaces, each member once and in order, integers in decimal. Refused only where memory is.
pub fn node_text(alloc: Global, node: &Whole<'_>) -> Result<String, AllocError>
    // it is read again as exactly the data
    ensures again { IfOk result (λ s. read (string_bytes s) ≡ Some (whole_data node.now)) }
    ensures compact { IfOk result (λ s. string_bytes s ≡ print (tokens (string_bytes s))) }
    ensures order { IfOk result (λ s. IsInOrder (string_bytes s) (whole_data node.now)) }
{
    let value = whole_value(alloc, node)?;
    value.to_string(alloc)
}

/// A view of these nodes, as JSON: the moment, what all nodes come to, the rows that changed at a revision or later, and what happened from a number on.
/// Refused only where memory is.
pub fn view_text(
    alloc: Global,
    head: Head,
    nodes: &[Node<'_>],
    log: &[Entry<'_>],
    revision: u64,
    number: u64,
) -> Result<String, AllocError>
    ensures { IfOk result (λ s. string_bytes s
        ≡ compact_text (view_data head nodes.now log.now revision number)) }
{
    let value = view_value(alloc, head, nodes, log, revision, number)?;
    value.to_string(alloc)
}
