// Laws of the codec.
ghost use Rattle.std.specs.Prelude.{◌≡◌, ℕ, List, Some};
ghost use Rattle.record_slots.specs.Slots.{slot_said, slot_bytes, IsSlot, IsPlain};
ghost use Rattle.record_slots.specs.Super.{IsPartOf, IsWhole, SaysSuper, part_bytes, super_bytes};
ghost use Rattle.record_slots.specs.declared.slot.Slot.{Slot};
ghost use Rattle.record_slots.specs.declared.super_page.Super.{Super};

/// A slot is read back from its bytes. Bytes are written back as they were if all that says nothing in them is zero.
pub fn slot_round_trip()
    ensures slot { (slot : Slot) → IsSlot slot → slot_said (slot_bytes slot) ≡ Some slot }
    ensures bytes { (bytes : List ℕ) (slot : Slot) → IsPlain bytes → slot_said bytes ≡ Some slot → slot_bytes slot ≡ bytes }
{}

/// A super page of version 2 is read back from its bytes. So it is from the part of it that changes, over any page of its version and form.
pub fn super_page_round_trip()
    ensures page { (front : Super) → IsWhole front → front.version ≡ 2 → SaysSuper (super_bytes front) front }
    ensures part { (bytes : List ℕ) (front : Super) → IsWhole front → front.version ≡ 2 → IsPartOf (part_bytes front) bytes front → SaysSuper bytes front }
{}
