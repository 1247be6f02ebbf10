// A number as a node of the graph.
ghost use Rattle.std.specs.Prelude.{◌<◌};

// n, if it is a node of the graph other than node 0; else node 1.
pub(crate) fn some_node(n: u32, count: u32) -> u32
    requires { 1 < count }
    ensures { (0 < result) × (result < count) }
{
    if n == 0 {
        return 1;
    }
    if n < count { n } else { 1 }
}
