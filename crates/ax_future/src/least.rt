//! The request that waits at the least slot.
ghost use Rattle.ax_lang.specs.declared.program.Program.{Program as AnyProgram};
ghost use Rattle.ax_future.specs.Least.{HasLeast, IsLesser};
ghost use Rattle.ax_future.specs.Nodes.{control_in};

use crate::node::Node;
use ax_text::Request;

/// The request that waits at the least slot, with its slot. `None` where nothing waits.
pub fn least_of(node: &Node) -> Option<(u8, &Request)>
    ensures { (p : AnyProgram) → HasLeast (control_in p node.now) result }
{
    match node {
        Node::Done => None,
        Node::Wait { slot, request, .. } => Some((*slot, request)),
        Node::Arms { one, two, .. } => lesser(least_of(one), least_of(two)),
    }
}

// The one that waits at the lesser slot.
fn lesser<'a>(
    one: Option<(u8, &'a Request)>,
    two: Option<(u8, &'a Request)>,
) -> Option<(u8, &'a Request)>
    ensures { IsLesser one.entry two.entry result }
{
    match (one, two) {
        (None, two) => two,
        (Some(one), None) => Some(one),
        (Some(one), Some(two)) => { if two.0 < one.0 { Some(two) } else { Some(one) } }
    }
}
