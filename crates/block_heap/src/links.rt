//! Links of lists: each node knows the node after it and the node before it, and a place.
ghost use Rattle.std.specs.Prelude.{◌≡◌, ◌<◌, ◌≤◌, ℕ, Contains, length, vec_capacity};
ghost use Rattle.block_heap.specs.Links.{AreJoined, node_of};
ghost use Rattle.block_heap.specs.Slots.{IsPlaced, IsSlotFor};

use crate::ranks::LISTS;

// A node of a ring: its neighbours, and the place of its slot's block.
#[derive(Clone, Copy)]
pub struct Link {
    pub next: u32,
    pub prev: u32,
    pub place: u32,
}

// Lets one node come after another.
pub fn join(links: &mut Vec<Link>, node: u32, after: u32)
    requires node { node < length links.old.items }
    requires after { after < length links.old.items }
    ensures joined { AreJoined links.old.items links.new.items node after }
    ensures capacity { vec_capacity links.new ≡ vec_capacity links.old }
{
    links[node as usize].next = after;
    links[after as usize].prev = node;
}

fn put_place(links: &mut Vec<Link>, node: u32, place: u32)
    requires { node < length links.old.items }
    ensures placed { IsPlaced links.old.items links.new.items node place }
    ensures capacity { vec_capacity links.new ≡ vec_capacity links.old }
{
    links[node as usize].place = place;
}

// A slot for a place: one that came back, or else a new one.
pub fn slot_for(links: &mut Vec<Link>, spares: &mut Vec<u32>, place: u32) -> u32
    requires heads { 1152 ≤ length links.old.items }
    requires limit { length links.old.items ≤ 4294967295 }
    requires within { (slot : ℕ) → Contains spares.old.items slot → node_of slot < length links.old.items }
    requires room { length spares.old.items ≡ 0 → length links.old.items < vec_capacity links.old }
    ensures slot { IsSlotFor links.old.items links.new.items spares.old.items spares.new.items result place }
    ensures capacity { vec_capacity links.new ≡ vec_capacity links.old }
    ensures spare_capacity { vec_capacity spares.new ≡ vec_capacity spares.old }
{
    if let Some(slot) = spares.pop() {
        put_place(links, slot + LISTS, place);
        return slot;
    }
    let slot = links.len() as u32 - LISTS;
    links.push_reserved(Link {
        next: 0,
        prev: 0,
        place,
    });
    slot
}
