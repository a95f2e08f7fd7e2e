// An object that handle names are bound to.
use blk_addr::Addr;

/// An object that a handle name is bound to.
#[derive(Clone, Copy, PartialEq, Eq, Debug)]
pub struct OpenObject {
    /// the address of its record
    pub entry: Addr,
    /// the address of its node
    pub node: Addr,
    /// how many names are bound to it, 1 to 4096
    pub names: u16,
    /// whether it was doomed
    pub doomed: bool,
    /// whether it is dirty
    pub dirty: bool,
}

/// What the release of a name leaves.
#[derive(Clone, Copy, PartialEq, Eq, Debug)]
pub enum Released {
    /// it was the object's last name; this is the object as it was before
    Last(OpenObject),
    /// other names are bound to the object
    More,
}
