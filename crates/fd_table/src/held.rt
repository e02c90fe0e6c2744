// Descriptions and their descriptors.
ghost use Rattle.std.specs.Prelude.{◌≡◌, ◌<◌, ◌≤◌, ◌+◌, ◌^◌, ℕ, length, Some, None, IsSome, IfSome};
ghost use Rattle.id_table.specs.Places.{at_id};
ghost use Rattle.fd_table.specs.Held.{holders_of, held_slot, target_left, has_none_left, after_let_go, IsHeldBy, AreThere};

use crate::description::Target;
use crate::descriptions::Descriptions;
use crate::processes::Slots;
use call_table::limit::DESCRIPTORS;

fn hold_slot(descriptions: &mut Descriptions, slot: Option<u32>)
    requires there { IfSome slot (λ id. IsSome (at_id descriptions.old id)) }
    requires few { IfSome slot (λ id. holders_of (at_id descriptions.old id) + 1 < 2 ^ 64) }
    ensures { descriptions.new ≡ held_slot descriptions.old slot }
{
    if let Some(id) = slot {
        descriptions.hold(id);
    }
}

/// Each descriptor has its description once more.
pub fn hold_all(descriptions: &mut Descriptions, slots: &Slots)
    requires there { AreThere descriptions.old slots.now }
    requires few { (id : ℕ) → holders_of (at_id descriptions.old id) + DESCRIPTORS < 2 ^ 64 }
    requires size { length slots.now ≡ DESCRIPTORS }
    ensures { IsHeldBy descriptions.old descriptions.new slots.now }
{
    for slot in slots.iter() {
        hold_slot(descriptions, *slot);
    }
}

fn target_of_last(descriptions: &Descriptions, id: u32) -> Option<Target>
    requires { 1 ≤ holders_of (at_id descriptions.now id) }
    ensures { result ≡ target_left (at_id descriptions.now id) }
{
    let description = descriptions.get(id)?;
    if description.holders == 1 {
        Some(description.look.target)
    } else {
        None
    }
}

/// One descriptor less has a description, which is dropped with its last one unless it is a terminal's.
/// Answers its target where no descriptor has it any more.
pub fn let_one_go(descriptions: &mut Descriptions, id: u32) -> Option<Target>
    requires there { IsSome (at_id descriptions.old id) }
    requires held { 1 ≤ holders_of (at_id descriptions.old id) }
    ensures target { result ≡ target_left (at_id descriptions.old id) }
    ensures new { descriptions.new ≡ after_let_go descriptions.old id }
{
    let target = target_of_last(descriptions, id);
    if target.is_some() && id >= 2 {
        descriptions.remove(id);
    } else {
        descriptions.let_go(id);
    }
    target
}
