// The nested top actions of an insertion.
ghost use Rattle.std.specs.Prelude.{◌≡◌, ◌+◌, ◌<◌, ◌≤◌, None, IsErrOf, length};
ghost use Rattle.eaw_face.specs.Causes.{IsAlive};
ghost use Rattle.eaw_face.specs.StoreView.{log_len};
ghost use Rattle.page_store.specs.Index.{index_pages_of};
ghost use Rattle.page_store.specs.Runs.{Runs, acting_of};
ghost use Rattle.page_store.specs.Shown.{pages_of, top_in};
ghost use Rattle.index_pages.specs.Acts.{Acts};
ghost use Rattle.index_pages.specs.Actions.{half_for};
ghost use Rattle.btree_pages.specs.Writes.{IsRead, cut_for, half_pairs, cutting_pages, cutting_parts, growing_pages, growing_parts};

use crate::node::Node;
use eaw_face::EawStore;
use index_pages::{
    Claim, HALF, PAGE_LEN, PAIRS_MAX, act_all, copy_of, front_part, middle_of, whole_page,
    with_pair, write_page,
};
use page_store::{PageFault, Pages};
use record_slots::{PART_LEN, write_super_part};

// A page of a tree has no link.
pub const NO_LINK: u32 = 0;

// How many pairs of a full page stay in the left one of the two that it is split into: half of them. But a leaf is cut at its end for a key
// behind its last pair, so that keys that rise leave full leaves behind them.
fn cut_of(node: &Node, key: u64) -> usize
    requires { length node.now.pairs.items ≡ 30 }
    ensures cut { result ≡ cut_for node.now.level node.now.pairs.items key }
    ensures some { 1 ≤ result }
    ensures less { result < length node.now.pairs.items }
{
    let pairs = node.pairs.as_slice();
    let last = pairs[PAIRS_MAX - 1].0;
    if node.level == 0 && last < key {
        PAIRS_MAX - 1
    } else {
        HALF
    }
}

// Splits a full page below a parent that has room, for a key. Its upper part goes to the page that is taken, which the parent names with the
// first key of that part.
pub fn cut_page<S: EawStore>(
    pages: &mut Pages<S>,
    tid: u8,
    taken: &Claim,
    node: &Node,
    parent: Node,
    key: u64,
) -> Result<(), PageFault>
    requires tid { tid < (S.view pages.old.store).shape.numbers }
    requires closed { IsAlive (S.view pages.old.store) → top_in pages.old.marks tid ≡ None }
    requires node { IsRead (S.view pages.old.store).shape node.now.page node.now.level node.now.pairs.items }
    requires parent { IsRead (S.view pages.old.store).shape parent.page parent.level parent.pairs.items }
    requires below { node.now.level + 1 ≡ parent.level }
    requires full { length node.now.pairs.items ≡ 30 }
    requires room { length parent.pairs.items < 30 }
    requires taken { taken.now.number < index_pages_of (S.view pages.old.store).shape }
    ensures acts { Acts S.tells (S.opens (S.view pages.old.store).shape) tid (cutting_pages node.now.page taken.now.number parent.page)
        (cutting_parts taken.now.front node.now.page node.now.level node.now.pairs.items key taken.now.number parent.page parent.pairs.items)
        (pages_of (S.view pages.old.store) pages.old) (pages_of (S.view pages.new.store) pages.new) result }
    ensures runs { Runs S.tells S.view S.calls (acting_of tid (log_len (S.view pages.old.store) tid)
        (cutting_parts taken.now.front node.now.page node.now.level node.now.pairs.items key taken.now.number parent.page parent.pairs.items))
        (S.view pages.old.store) (S.view pages.new.store) result }
    ensures dead { IsErrOf result PageFault.Dead → pages.new ≡ pages.old }
{
    let cut = cut_of(node, key);
    let pairs = node.pairs.as_slice();
    let mut lower = [0; PAGE_LEN];
    write_page(node.level, NO_LINK, &pairs[..cut], &mut lower);
    let mut upper = [0; PAGE_LEN];
    write_page(node.level, NO_LINK, &pairs[cut..], &mut upper);
    let Node {
        page,
        pairs: above,
        ..
    } = parent;
    let above = with_pair(above, pairs[cut].0, taken.number);
    let mut named = [0; PAGE_LEN];
    write_page(node.level + 1, NO_LINK, above.as_slice(), &mut named);
    let mut part = [0; PART_LEN];
    write_super_part(&taken.front, &mut part);
    let parts = [
        whole_page(node.page, &lower),
        whole_page(taken.number, &upper),
        whole_page(page, &named),
        front_part(&part),
    ];
    act_all(pages, tid, &parts)
}

// Splits a full root, for a key. Its parts go to the two pages that are taken, the second after the first, which it then names from one
// level up.
pub fn grow_root<S: EawStore>(
    pages: &mut Pages<S>,
    tid: u8,
    left: u32,
    right: &Claim,
    root: &Node,
    key: u64,
) -> Result<(), PageFault>
    requires tid { tid < (S.view pages.old.store).shape.numbers }
    requires closed { IsAlive (S.view pages.old.store) → top_in pages.old.marks tid ≡ None }
    requires root { IsRead (S.view pages.old.store).shape root.now.page root.now.level root.now.pairs.items }
    requires level { root.now.level < 7 }
    requires full { length root.now.pairs.items ≡ 30 }
    requires left { left < index_pages_of (S.view pages.old.store).shape }
    requires right { right.now.number < index_pages_of (S.view pages.old.store).shape }
    ensures acts { Acts S.tells (S.opens (S.view pages.old.store).shape) tid (growing_pages left right.now.number root.now.page)
        (growing_parts right.now.front left right.now.number root.now.page root.now.level root.now.pairs.items key)
        (pages_of (S.view pages.old.store) pages.old) (pages_of (S.view pages.new.store) pages.new) result }
    ensures runs { Runs S.tells S.view S.calls (acting_of tid (log_len (S.view pages.old.store) tid)
        (growing_parts right.now.front left right.now.number root.now.page root.now.level root.now.pairs.items key))
        (S.view pages.old.store) (S.view pages.new.store) result }
    ensures dead { IsErrOf result PageFault.Dead → pages.new ≡ pages.old }
{
    let level = root.level;
    let cut = cut_of(root, key);
    let pairs = root.pairs.as_slice();
    let mut lower = [0; PAGE_LEN];
    write_page(level, NO_LINK, &pairs[..cut], &mut lower);
    let mut upper = [0; PAGE_LEN];
    write_page(level, NO_LINK, &pairs[cut..], &mut upper);
    let mut named = [0; PAGE_LEN];
    let both = [
        (0, u64::from(left)),
        (pairs[cut].0, u64::from(right.number)),
    ];
    write_page(level + 1, NO_LINK, &both, &mut named);
    let mut part = [0; PART_LEN];
    write_super_part(&right.front, &mut part);
    let parts = [
        whole_page(left, &lower),
        whole_page(right.number, &upper),
        whole_page(root.page, &named),
        front_part(&part),
    ];
    act_all(pages, tid, &parts)
}

// The part of a full page whose range has the key. The lower part is now in the left page, the upper one in the right page. A key before the
// middle is not behind the last pair, so the page was cut there; and one behind the last pair is on the right of any cut.
pub fn half_of(node: &Node, left: u32, right: u32, key: u64) -> Node
    requires { length node.now.pairs.items ≡ 30 }
    ensures page { result.page ≡ half_for node.now.pairs.items left right key }
    ensures level { result.level ≡ node.now.level }
    ensures pairs { result.pairs.items ≡ half_pairs node.now.level node.now.pairs.items key }
{
    let cut = cut_of(node, key);
    let pairs = node.pairs.as_slice();
    if key < middle_of(&node.pairs) {
        Node {
            page: left,
            level: node.level,
            pairs: copy_of(&pairs[..cut]),
        }
    } else {
        Node {
            page: right,
            level: node.level,
            pairs: copy_of(&pairs[cut..]),
        }
    }
}
