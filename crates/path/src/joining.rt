// When a child's name may be appended to a path.
ghost use Rattle.std.specs.Prelude.{◌≡◌, ◌&&◌};
ghost use Rattle.model.specs.Path.{well_formed, ends_in_name};

// Whether both are paths and the child's ends in a name.
pub(crate) fn can_join(path: &[u8], child: &[u8]) -> bool
    ensures { result
        ≡ (well_formed path.now && (well_formed child.now && ends_in_name child.now)) }
{
    if !crate::is_well_formed(path) {
        return false;
    }
    if !crate::is_well_formed(child) {
        return false;
    }
    let name = crate::last_name(child);
    0 < name.len()
}
