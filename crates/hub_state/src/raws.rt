//! Parents and hosts of raw greenlets.
ghost use Rattle.std.specs.Prelude.{◌≡◌, length, slice_set};
ghost use Rattle.machine.specs.Greenlets.{greenlet};
ghost use Rattle.machine.specs.Hosts.{host_of, host_within, is_above};
ghost use Rattle.hub_state.specs.Hosts.{at};

use crate::greenlets::Greenlet;
use crate::hub::Hub;
use crate::order::items_stand_in_order;

impl Hub {
    /// Whether the greenlet is raw.
    pub fn is_raw(&self, g: u32) -> bool
        ensures { result ≡ (greenlet g self.now).raw }
    {
        is_raw_at(self.base.greenlets.as_slice(), g)
    }

    /// Where the outcome of the greenlet goes, if it is raw.
    pub fn parent_of(&self, g: u32) -> u32
        ensures { result ≡ (greenlet g self.now).parent }
    {
        parent_at(self.base.greenlets.as_slice(), g)
    }

    /// The greenlet that is not raw and in which this one runs: the first one up the chain of parents. Goes up the
    /// chain.
    pub fn host_of(&self, g: u32) -> u32
        ensures { result ≡ host_of self.now g }
    {
        host_of(self.base.greenlets.as_slice(), g)
    }

    /// Whether the child stands in the chain of parents that begins at this greenlet. Goes up the chain.
    pub fn is_above(&self, child: u32, g: u32) -> bool
        ensures { result ≡ is_above (length self.now.greenlets) self.now.greenlets child g }
    {
        is_above(self.base.greenlets.as_slice(), child, g)
    }

    /// Gives the child this parent.
    pub fn set_parent(&mut self, child: u32, parent: u32)
        ensures { self.new ≡ record self.old { greenlets = slice_set self.old.greenlets child (record (greenlet child self.old) { parent = parent }) } }
    {
        items_stand_in_order(&self.held);
        self.base.greenlets.set_parent(child, parent);
    }
}

/// Whether the greenlet of this number is raw.
fn is_raw_at(greenlets: &[Greenlet], g: u32) -> bool
    ensures { result ≡ (at greenlets.now g).raw }
{
    match greenlets.get(g as usize) {
        Some(greenlet) => greenlet.is_raw(),
        None => false,
    }
}

/// Where the outcome of the greenlet of this number goes.
fn parent_at(greenlets: &[Greenlet], g: u32) -> u32
    ensures { result ≡ (at greenlets.now g).parent }
{
    match greenlets.get(g as usize) {
        Some(greenlet) => greenlet.parent(),
        None => 0,
    }
}

/// The first greenlet that is not raw, up the chain of parents.
fn host_of(greenlets: &[Greenlet], g: u32) -> u32
    ensures { result ≡ host_within (length greenlets.now) greenlets.now g }
{
    let mut host = g;
    let mut left = greenlets.len();
    while left > 0 {
        if !is_raw_at(greenlets, host) {
            return host;
        }
        host = parent_at(greenlets, host);
        left -= 1;
    }
    host
}

/// Whether the child stands in the chain of parents that begins at this greenlet.
fn is_above(greenlets: &[Greenlet], child: u32, g: u32) -> bool
    ensures { result ≡ is_above (length greenlets.now) greenlets.now child g }
{
    let mut other = g;
    let mut left = greenlets.len();
    while left > 0 {
        if child == other {
            return true;
        }
        if !is_raw_at(greenlets, other) {
            return false;
        }
        other = parent_at(greenlets, other);
        left -= 1;
    }
    child == other
}
