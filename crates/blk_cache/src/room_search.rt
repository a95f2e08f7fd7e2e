// The last item of the LRU list that isn't pinned.
ghost use Rattle.std.specs.Prelude.{◌≡◌, ◌||◌, IfOk, IfSome, IsTrue, None};
ghost use Rattle.std.specs.Option.{ForSome};
ghost use Rattle.spec_image.specs.Told.{ReadsOnly};
ghost use Rattle.blk_io.specs.Faults.{IfDamaged, IfDevice, UndamagedWhere, OkFor};
ghost use Rattle.blk_disk.specs.Tables.{is_node_among, is_record_among};
ghost use Rattle.blk_handles.specs.Bindings.{is_open};
ghost use Rattle.blk_object.specs.FailedChecks.{IsFailedCheck};
ghost use Rattle.blk_object.specs.ListWalks.{WalkEnds};
ghost use Rattle.blk_cache.specs.Covering.{covers};
ghost use Rattle.blk_cache.specs.RoomSearch.{KeepsPinnedFrom, FindsLast};

use crate::cache::Cache;
use crate::covered::Covered;
use blk_addr::Addr;
use blk_evict::{Unpinned, in_front};
use blk_io::{Fault, Folder};
use blk_lru::MOST_NODES;
use blk_object::{end_walk, entry_named};
use blk_record::NodeView;

impl Cache {
    /// The last item of the LRU list that isn't pinned, of those in front of a node, from which on all are; without a node,
    /// of all items. Nothing is written. A list that goes on after 131073 nodes, from the back on, is corruption, of the prev
    /// of the last one.
    pub(crate) fn last_unpinned<F: Folder>(
        &self,
        folder: &mut F,
        behind: Option<Addr>,
        parts: &Covered,
    ) -> Result<Option<Unpinned>, Fault>
        requires stands { IfSome behind (λ node. IsTrue (is_node_among self.now.files node)) }
        ensures last { OkFor result (F.told folder.old) (FindsLast self.now parts.now behind) }

        // On every folder none is found only where the list ends.
        ensures ends { IfOk result (λ found. found ≡ None → ForSome (F.told folder.old).files (WalkEnds self.now.files NodeView.PREV behind)) }

        ensures node_stands { IfOk result (λ found. IfSome found (λ item. IsTrue (is_node_among self.now.files item.node))) }
        ensures record_stands { IfOk result (λ found. IfSome found (λ item. IsTrue (is_record_among self.now.files item.entry))) }
        ensures next_stands { IfOk result (λ found. IfSome found (λ item. IfSome item.behind (λ node. IsTrue (is_node_among self.now.files node)))) }
        ensures reads { ReadsOnly F.told F.faults folder.old folder.new (IfDevice result) }

        // Corruption is a check that fails on what is read here; nothing is written after it.
        ensures damaged { IfDamaged result (IsFailedCheck self.now.files (F.told folder.new)) }

        // An observable folder reports no corruption where the cache keeps a state.
        ensures untold { UndamagedWhere result (F.told folder.old) (KeepsPinnedFrom self.now parts.now behind) }
    {
        let mut behind = behind;
        for _ in 0..MOST_NODES + 1 {
            let Some(node) = in_front(folder, &self.files, &behind)? else {
                return Ok(None);
            };
            let entry = entry_named(folder, &self.files, node)?;
            if !self.pins(entry, node, parts) {
                return Ok(Some(Unpinned {
                    node,
                    entry,
                    behind,
                }));
            }
            behind = Some(node);
        }
        let next = in_front(folder, &self.files, &behind)?;
        end_walk(behind, NodeView::PREV, next)?;
        Ok(None)
    }

    // Whether the item with this record and node is pinned: a handle names its object, or it is a part in range.
    fn pins(&self, entry: Addr, node: Addr, parts: &Covered) -> bool
        ensures { result ≡ (is_open self.now.handles entry || covers parts.now node) }
    {
        self.handles.is_pinned(entry) || parts.has(node)
    }
}
