// What an `add` line says of a node: eleven numbers, some of which may be missing, and its path.
use calls_text::{is_dash, read_number, read_short_number};
use model::NodeId;
use prim_graph::NodeDesc;

// A number that fits 8 bits.
pub(crate) fn read_byte(word: &[u8]) -> Option<u8> {
    u8::try_from(read_number(word)?).ok()
}

// A node, or `-` where it is missing.
fn read_node(word: &[u8]) -> Option<Option<NodeId>> {
    if is_dash(word) {
        return Some(None);
    }
    Some(Some(NodeId(read_number(word)?)))
}

// A number that fits 16 bits, or `-` where it is missing.
pub(crate) fn read_optional(word: &[u8]) -> Option<Option<u16>> {
    if is_dash(word) {
        return Some(None);
    }
    Some(Some(read_short_number(word)?))
}

// The node that the words after the first describe, and its path, the last of them: none where a
// word is no number of its field.
pub(crate) fn read(line: &[u8]) -> Option<(NodeDesc, &[u8])> {
    let mut words = line.split(|byte| *byte == b' ');
    words.next()?;
    let desc = NodeDesc {
        parent: read_node(words.next()?)?,
        arc: read_byte(words.next()?)?,
        flags: read_byte(words.next()?)?,
        stack: read_number(words.next()?)?,
        layer: read_number(words.next()?)?,
        origin: read_node(words.next()?)?,
        depth: read_optional(words.next()?)?,
        sibling: read_short_number(words.next()?)?,
        restriction: read_short_number(words.next()?)?,
        spec_from: read_short_number(words.next()?)?,
        has_specs: read_byte(words.next()?)?,
    };
    Some((desc, words.next()?))
}
