// Laws of pages: each follows from the definitions alone.
ghost use Rattle.std.specs.Prelude.{◌≡◌, false, IfSome, ◌+◌, ◌-◌, ◌<◌, ◌≤◌, ◌↔◌, ◌⊎◌, min, max, List, ◌∷◌, ℕ, length, take, drop, Some};
ghost use Rattle.mars_base.specs.Bytes.{put, range};
ghost use Rattle.array_shape.specs.Places.{IsPlaced};
ghost use Rattle.array_shape.specs.Logged.{Part, AllFit, AllPlaced, applied, ranges_of};
ghost use Rattle.eaw_face.specs.State.{part_at};
ghost use Rattle.page_store.specs.Edit.{meet, AreApart, edit_pos, IsEdited};
ghost use Rattle.page_store.specs.State.{PagesState, log_of, view_of};
ghost use Rattle.page_store.specs.Command.{PageCommand, write_as, save, back, top_end, after, WorksFor, IsQuiet};
ghost use Rattle.page_store.specs.Device.{device, done, ranges_done};
ghost use Rattle.page_store.specs.Ready.{IsReady};
ghost use Rattle.page_store.specs.Outline.{Outline, outline, outline_after};
ghost use Rattle.page_store.specs.Kept.{IsKept, IsOrdered, IsAllowed};
ghost use Rattle.page_store.specs.Played.{played, AreAllowed, AllSpare, top_of};

use array_shape::Shape;

/// A write puts its bytes into the view of its number, and leaves the data and every other view.
pub fn a_write_is_seen(shape: &Shape)
    ensures own { (s : PagesState) (t addr : ℕ) (bytes : List ℕ) → IsKept shape.now s → IsPlaced shape.now addr (length bytes)
        → view_of t (after (write_as t addr bytes) s) ≡ put (view_of t s) addr bytes }
    ensures others { (s : PagesState) (t addr : ℕ) (bytes : List ℕ) (u : ℕ) → (u ≡ t → ⊥) → view_of u (after (write_as t addr bytes) s) ≡ view_of u s }
    ensures committed { (s : PagesState) (t addr : ℕ) (bytes : List ℕ) → (after (write_as t addr bytes) s).store.bytes ≡ s.store.bytes }
{}

/// A write edits a part exactly when one from the floor on has just its range and no later part meets it.
pub fn writes_edit_exactly()
    ensures meeting { (r q : ℕ × ℕ) → 0 < r.1 → 0 < q.1 → (meet r q ≡ false) ↔ ((i : ℕ) → r.0 ≤ i → i < r.0 + r.1 → q.0 ≤ i → i < q.0 + q.1 → ⊥) }
    ensures edited { (floor : ℕ) (r : ℕ × ℕ) (ranges : List (ℕ × ℕ)) (pos : ℕ) → 0 < r.1 → (edit_pos floor r ranges ≡ Some pos) ↔ IsEdited floor r ranges pos }
{}

/// After a save, any commands that leave it, and the way back to it, the parts are those at the save, over the data as it is now.
pub fn back_restores(shape: &Shape)
    ensures parts { (s : PagesState) (t : ℕ) (cs : List PageCommand) → IsKept shape.now s → AreAllowed shape.now (save t ∷ cs) s → AllSpare cs t (length (s.saved t) + 1)
        → log_of (after (back t (length (s.saved t) + 1)) (played (save t ∷ cs) s)) t ≡ log_of s t }
    ensures seen { (s : PagesState) (t : ℕ) (cs : List PageCommand) → IsKept shape.now s → AreAllowed shape.now (save t ∷ cs) s → AllSpare cs t (length (s.saved t) + 1)
        → view_of t (after (back t (length (s.saved t) + 1)) (played (save t ∷ cs) s)) ≡ applied (log_of s t) (played (save t ∷ cs) s).store.bytes }
{}

/// The end of a top action puts the parts from the mark on into the data. If these share no byte with the earlier ones, the number's
/// view stays. A number none of whose parts shares a byte with them sees them too.
pub fn top_end_keeps_views(shape: &Shape)
    ensures committed { (s : PagesState) (t mark : ℕ) → (after (top_end t mark) s).store.bytes ≡ applied (drop mark (log_of s t)) s.store.bytes }
    ensures own { (s : PagesState) (t mark : ℕ) → IsKept shape.now s → AreApart (ranges_of (take mark (log_of s t))) (ranges_of (drop mark (log_of s t)))
        → view_of t (after (top_end t mark) s) ≡ view_of t s }
    ensures others { (s : PagesState) (t mark u : ℕ) → IsKept shape.now s → (u ≡ t → ⊥) → AreApart (ranges_of (log_of s u)) (ranges_of (drop mark (log_of s t)))
        → view_of u (after (top_end t mark) s) ≡ applied (drop mark (log_of s t)) (view_of u s) }
{}

/// Parts written within one top action are in the data after it. The parts and saves of every number are what they were.
pub fn a_top_is_one_write(shape: &Shape)
    ensures committed { (s : PagesState) (t : ℕ) (parts : List Part) → IsKept shape.now s → AllPlaced shape.now parts → (top_of t parts s).store.bytes ≡ applied parts s.store.bytes }
    ensures parts { (s : PagesState) (t : ℕ) (parts : List Part) (u : ℕ) → IsKept shape.now s → AllPlaced shape.now parts → log_of (top_of t parts s) u ≡ log_of s u }
    ensures saves { (s : PagesState) (t : ℕ) (parts : List Part) → (top_of t parts s).saved ≡ s.saved }
{}

/// What is read of data with parts written: a part elsewhere is not seen; one that meets the range shows its bytes from the later
/// start to the earlier end; one of just the range that no later part meets shows its bytes, whatever lies below.
pub fn parts_are_read()
    ensures missed { (d : List ℕ) (p : Part) (at n : ℕ) → p.0 + length p.1 ≤ length d → (at + n ≤ p.0) ⊎ (p.0 + length p.1 ≤ at) → range (put d p.0 p.1) at n ≡ range d at n }
    ensures laid { (d : List ℕ) (p : Part) (at n lo hi : ℕ) → p.0 + length p.1 ≤ length d → at + n ≤ length d → lo ≡ max at p.0 → hi ≡ min (at + n) (p.0 + length p.1) → lo < hi
        → range (put d p.0 p.1) at n ≡ put (range d at n) (lo - at) (range p.1 (lo - p.0) (hi - lo)) }
    ensures seen { (log : List Part) (d : List ℕ) (pos addr : ℕ) (bytes : List ℕ) → addr + length bytes ≤ length d → AllFit (length d) log → 0 < length bytes → pos < length log
        → part_at log pos ≡ (addr, bytes) → IsEdited 0 (addr, length bytes) (ranges_of log) pos → range (applied log d) addr (length bytes) ≡ bytes }
{}

/// A command leaves the parts, the saves and the mark of every number that it does not work for, and the data if it is quiet.
pub fn others_stay()
    ensures parts { (c : PageCommand) (s : PagesState) (u : ℕ) → (WorksFor c u → ⊥) → log_of (after c s) u ≡ log_of s u }
    ensures saves { (c : PageCommand) (s : PagesState) (u : ℕ) → (WorksFor c u → ⊥) → (after c s).saved u ≡ s.saved u }
    ensures mark { (c : PageCommand) (s : PagesState) (u : ℕ) → (WorksFor c u → ⊥) → (after c s).top u ≡ s.top u }
    ensures committed { (c : PageCommand) (s : PagesState) → IsQuiet c → (after c s).store.bytes ≡ s.store.bytes }
{}

/// What holds between commands holds after each: of the state, and of counts alone.
pub fn commands_keep(shape: &Shape)
    ensures state { (c : PageCommand) (s : PagesState) → IsKept shape.now s → IsAllowed shape.now c (outline s) → IsKept shape.now (after c s) }
    ensures counts { (c : PageCommand) (o : Outline) → IsOrdered o → IsAllowed shape.now c o → IsOrdered (outline_after c o) }
{}

/// What a command makes of the store is what one command of the store makes, or nothing. That command follows from where parts lie
/// and how many were saved, so what it makes of the ranges is known even of a store that does not tell its data. The store may be
/// asked for it, and does not refuse its number.
pub fn commands_are_the_stores(shape: &Shape)
    ensures state { (c : PageCommand) (s : PagesState) → IsKept shape.now s → IsAllowed shape.now c (outline s) → (after c s).store ≡ done (device c (outline s)) s.store }
    ensures ranges { (c : PageCommand) (o : Outline) → IsAllowed shape.now c o → (outline_after c o).ranges ≡ ranges_done (device c o) o.ranges }
    ensures ready { (c : PageCommand) (o : Outline) → IsOrdered o → IsAllowed shape.now c o → IfSome (device c o) (IsReady shape.now o.ranges) }
    ensures outlined { (c : PageCommand) (s : PagesState) → IsKept shape.now s → IsAllowed shape.now c (outline s) → outline (after c s) ≡ outline_after c (outline s) }
{}
