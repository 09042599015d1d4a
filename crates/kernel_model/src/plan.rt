ghost use Rattle.std.specs.Prelude.{◌≡◌, length, slice_get};

use crate::request::Request;
use std::marker::Model;

/// Requests to add, in order, and then requests to delete, in order.
#[derive(Drop)]
pub struct Plan {
    adds: Vec<Request>,
    deletes: Vec<Request>,
}

impl Model for Plan {
    ghost use Rattle.kernel_model.specs.PlanView.{PlanView};

    ghost Value = { PlanView };

    ghost view = { λ p. record { adds = p.adds.items; deletes = p.deletes.items } };
}

impl Plan {
    /// These two lists.
    pub fn of(adds: Vec<Request>, deletes: Vec<Request>) -> Plan
        ensures { result ≡ record { adds = adds.items; deletes = deletes.items } }
    {
        Plan { adds, deletes }
    }

    pub fn adds(&self) -> &[Request]
        ensures { result.now ≡ self.now.adds }
    {
        &self.adds
    }

    pub fn deletes(&self) -> &[Request]
        ensures { result.now ≡ self.now.deletes }
    {
        &self.deletes
    }

    pub fn add_count(&self) -> usize
        ensures { result ≡ length self.now.adds }
    {
        self.adds.len()
    }

    /// The addition at a place, from 0.
    pub fn add_at(&self, place: usize) -> Option<Request>
        ensures { result ≡ slice_get self.now.adds place }
    {
        self.adds.get(place).copied()
    }

    pub fn delete_count(&self) -> usize
        ensures { result ≡ length self.now.deletes }
    {
        self.deletes.len()
    }

    /// The deletion at a place, from 0.
    pub fn delete_at(&self, place: usize) -> Option<Request>
        ensures { result ≡ slice_get self.now.deletes place }
    {
        self.deletes.get(place).copied()
    }
}
