//! Of which groups and pools a greenlet may be a member: kept by greenlet, so that at its end nobody looks for it at the
//! others, nor at its own any further than where it stands.
ghost use Rattle.std.specs.Prelude.{◌≡◌, ◌<◌, length, slice_set, OnErr, OnOk};
ghost use Rattle.hub_objects.specs.declared.memberships.Membership.{Membership as AnyMembership};
ghost use Rattle.hub_objects.specs.Memberships.{AreJoined, AreSame, joined, membership_in};

use std::alloc::AllocError;

/// Of which groups and pools a greenlet may be a member.
#[derive(Clone, Copy, Drop)]
pub enum Membership {
    /// Of none.
    Nowhere,
    /// Of the one of this number alone, and there once at most.
    At(u32),
    /// Of each.
    Anywhere,
}

/// Where the greenlet may be a member.
pub(crate) fn membership_in(table: &[Membership], g: u32) -> Membership
    ensures { result ≡ membership_in table.now g }
{
    match table.get(g as usize) {
        Some(membership) => *membership,
        None => Membership::Nowhere,
    }
}

/// Where one may be a member who may be one of this object too.
fn joined(membership: Membership, o: u32) -> Membership
    ensures { result ≡ joined o membership }
{
    match membership {
        Membership::Nowhere => Membership::At(o),
        _ => Membership::Anywhere,
    }
}

/// Makes a place for the greenlet. `AllocError`: memory is wanting.
fn reserve_for(table: &mut Vec<Membership>, g: u32) -> Result<(), AllocError>
    ensures same { AreSame table.old.items table.new.items }
    ensures room { OnOk result (g < length table.new.items) }
{
    if table.len() <= g as usize {
        table.resize(g as usize + 1, Membership::Nowhere)?;
    }
    Ok(())
}

/// Notes that the greenlet may be a member of this object too.
fn join_at(table: &mut [Membership], g: u32, o: u32)
    requires { g < length table.old }
    ensures { table.new ≡ slice_set table.old g (joined o (membership_in table.old g)) }
{
    let membership = joined(membership_in(table, g), o);
    table[g as usize] = membership;
}

/// Notes that the greenlet, if there is one, may be a member of this object too. `AllocError`: memory is wanting.
pub(crate) fn join(table: &mut Vec<Membership>, g: Option<u32>, o: u32) -> Result<(), AllocError>
    ensures joined { OnOk result (AreJoined g o table.old.items table.new.items) }
    ensures err { OnErr result (AreSame table.old.items table.new.items) }
{
    let Some(g) = g else {
        return Ok(());
    };
    reserve_for(table, g)?;
    join_at(table, g, o);
    Ok(())
}

/// Notes that the greenlet is a member nowhere any more.
pub(crate) fn forget(table: &mut Vec<Membership>, g: u32)
    ensures { table.new.items ≡ slice_set table.old.items g AnyMembership.Nowhere }
{
    forget_at(table, g);
}

/// Notes that the greenlet, if it has a place, is a member nowhere any more.
#[tactic(auto, using(crate::proofs::Belonging::set_out))]
fn forget_at(table: &mut [Membership], g: u32)
    ensures { table.new ≡ slice_set table.old g AnyMembership.Nowhere }
{
    if (g as usize) < table.len() {
        table[g as usize] = Membership::Nowhere;
    }
}
