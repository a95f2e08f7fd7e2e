// What lies at the nodes of a kept state: laws, each the contract of a function with an empty body.
ghost use Rattle.blk_object.specs.Owning.{KeptNodesLoad, LeftNodesLoad};

/// Where a folder keeps a state, each node of its layout loads as the layout has it, with the record that the layout has there: `read_owned` needs this. While
/// some items are out, the node of each other listed item loads so too.
pub fn entries_of_states_load()
    ensures kept { KeptNodesLoad }
    ensures left { LeftNodesLoad }
{}
