// What the arguments of the command line need of the folder and of the output.
ghost use Rattle.std.specs.Prelude.{◌≡◌, ◌↔◌, IsTrue};
ghost use Rattle.std.specs.Option.{option_map};
ghost use Rattle.blk_args.specs.Tasks.{task_given};
ghost use Rattle.blkcache.specs.Needs.{only_reads, changes_first};

use blk_args::Order;
use blk_host::Access;

/// How the folder is locked for the arguments: exclusively, unless they only read it. `None` means arguments outside the grammar, which are
/// refused.
pub fn access_for(order: Option<Order<'_>>) -> Access
    ensures { (result ≡ Access.Shared) ↔ IsTrue (only_reads (option_map task_given order.entry)) }
{
    match order {
        None | Some(Order::Inspect { .. } | Order::Verify) => Access::Shared,
        Some(_) => Access::Alone,
    }
}

/// Whether the arguments print only after a change of the folder.
pub fn replies_behind(order: Option<Order<'_>>) -> bool
    ensures { result ≡ changes_first (option_map task_given order.entry) }
{
    matches!(
        order,
        Some(Order::Put { .. } | Order::Doom { .. } | Order::Trim { .. })
    )
}
