// Class hierarchies: where one starts, its topmost class, and its depth.
ghost use Rattle.std.specs.Prelude.{◌≡◌, ◌<◌};
ghost use Rattle.model.specs.ArenaCalls.{ValidNode};
ghost use Rattle.model.specs.Strength.{namespace_depth_for_class_hierarchy, skip_relocates, class_depth};
ghost use Rattle.view.specs.View.{view_in, ValidNodeAndRoot};
ghost use Rattle.view.specs.Walks.{HierarchyOf};

// The node that inherits or specializes a class hierarchy, and its topmost class, 4,294,967,295
// where the node is no class's instance.
#[derive(Clone, Copy)]
pub struct ClassHierarchy {
    pub instance: u32,
    pub class_node: u32,
}

// Where the class hierarchy of node n starts: up over class arcs with one depth below introduction,
// a propagated specializes being its origin.
pub fn starting_node_of_class_hierarchy(arena: &[u8], root: u32, n: u32) -> ClassHierarchy
    requires { ValidNodeAndRoot arena.now root n }
    ensures { HierarchyOf (view_in arena.now) n result }
{
    let mut instance = crate::relations::replaced(arena, root, n);
    let mut class_node: u32 = arena::NO_NODE;
    let depth = crate::sites::depth_below(arena, instance);
    while instance != 0 {
        if !crate::relations::is_class_based(crate::fields::arc(arena, instance)) {
            return ClassHierarchy {
                instance,
                class_node,
            };
        }
        if crate::sites::depth_below(arena, instance) != depth {
            return ClassHierarchy {
                instance,
                class_node,
            };
        }
        class_node = instance;
        instance = crate::relations::replaced(arena, root, crate::fields::parent(arena, instance));
    }
    ClassHierarchy {
        instance,
        class_node,
    }
}

// The first node from n upward that is no Relocate.
fn skip_relocates(arena: &[u8], n: u32) -> u32
    requires { ValidNode arena.now n }
    ensures { result ≡ skip_relocates (view_in arena.now) n }
{
    let mut node = n;
    while node != 0 {
        if crate::fields::arc(arena, node) != arena::arcs::RELOCATE {
            return node;
        }
        node = crate::fields::parent(arena, node);
    }
    node
}

// D(n) of document 01: the depth of the node that starts the class hierarchy of node n.
fn namespace_depth_for_class_hierarchy(arena: &[u8], root: u32, n: u32) -> u16
    requires { ValidNodeAndRoot arena.now root n }
    ensures { result ≡ namespace_depth_for_class_hierarchy (view_in arena.now) n }
{
    let start = starting_node_of_class_hierarchy(arena, root, n);
    crate::fields::depth(arena, skip_relocates(arena, start.instance))
}

// The class depth of node n: 0 if it is authored, else D of its origin.
pub fn class_depth(arena: &[u8], root: u32, n: u32) -> u16
    requires { ValidNodeAndRoot arena.now root n × (0 < n) }
    ensures { result ≡ class_depth (view_in arena.now) n }
{
    let origin = crate::fields::origin(arena, n);
    if origin == crate::fields::parent(arena, n) {
        return 0;
    }
    namespace_depth_for_class_hierarchy(arena, root, origin)
}
