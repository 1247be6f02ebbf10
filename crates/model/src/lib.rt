// The types that every crate shares. What they mean is in specs/: Refusals.antt gives each refusal
// its number, Answers.antt each answer its refusal and its value, Path.antt says what the answers
// about a path are.
#![tactic(auto)]

ghost use Rattle.std.specs.Prelude.{◌≡◌, not, eqb};
ghost use Rattle.model.specs.Answers.{ordering_number, node_option, node_number};
ghost use Rattle.model.specs.Node.{invalid, optional};
ghost use Rattle.model.specs.Refusals.{refusal_number};

use std::cmp::Ordering;

// A node's number.
#[derive(Clone, Copy, PartialEq, Eq)]
pub struct NodeId(pub u32);

impl NodeId {
    // No node: a missing parent or origin.
    pub const INVALID: NodeId = NodeId(4294967295);

    pub fn new(number: u32) -> NodeId
        ensures { result.0 ≡ number }
    {
        NodeId(number)
    }

    // The node of that number, or none where it is the number that no node has.
    pub fn from_number(number: u32) -> Option<NodeId>
        ensures { node_option result ≡ optional number }
    {
        let node = NodeId::new(number);
        if node.is_valid() {
            return Some(node);
        }
        None
    }

    // The node's number, or the number that no node has.
    pub fn number_of(node: Option<NodeId>) -> u32
        ensures { result ≡ node_number (node_option node) }
    {
        node.unwrap_or(NodeId::INVALID).0
    }

    // Whether it is a node's number at all.
    pub fn is_valid(self) -> bool
        ensures { result ≡ not (eqb self.0 invalid) }
    {
        self.0 != NodeId::INVALID.0
    }
}

// Which of two nodes is the stronger, as a number: the first is (Less) 0, one node twice (Equal) 1,
// the second is (Greater) 2.
pub fn ordering_number(ordering: Ordering) -> u8
    ensures { result ≡ ordering_number ordering }
{
    match ordering {
        Ordering::Less => 0,
        Ordering::Equal => 1,
        Ordering::Greater => 2,
    }
}

// Why a call was refused: the first of document 01's twelve questions whose answer is no.
#[derive(Clone, Copy, Debug, PartialEq, Eq)]
pub enum Refusal {
    Size,
    NotAGraph,
    NodeZero,
    Node,
    Path,
    Kind,
    Capacity,
    NotSiblings,
    NoOrder,
    NotOrdered,
    EraseSet,
    Snapshot,
}

impl Refusal {
    // The question's number, 1 to 12.
    pub fn number(self) -> u8
        ensures { result ≡ refusal_number self }
    {
        match self {
            Refusal::Size => 1,
            Refusal::NotAGraph => 2,
            Refusal::NodeZero => 3,
            Refusal::Node => 4,
            Refusal::Path => 5,
            Refusal::Kind => 6,
            Refusal::Capacity => 7,
            Refusal::NotSiblings => 8,
            Refusal::NoOrder => 9,
            Refusal::NotOrdered => 10,
            Refusal::EraseSet => 11,
            Refusal::Snapshot => 12,
        }
    }
}

// What document 01's lines say of two siblings: an answer, or the strength of two nodes with a
// lower sum, and the answer where those are Equal. No `Result`, since neither is a failure.
#[derive(Clone, Copy)]
pub enum Verdict {
    Settled(Ordering),
    Ask(u32, u32, Ordering),
}
