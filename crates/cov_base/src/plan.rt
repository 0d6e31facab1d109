ghost use Rattle.std.specs.Prelude.{◌≡◌, ◌↔◌, ◌+◌, min, IsTrue};
ghost use Rattle.std.specs.List.{Contains};

use crate::list::List;

/// The numbers of the calls that are to fail, and that of the next call: the first has 0, and from
/// 2^32 - 1 on the number stays.
#[derive(Drop)]
pub(crate) struct CallPlan {
    pub(crate) failing: List<u32>,
    pub(crate) next: u32,
}

impl CallPlan {
    pub(crate) fn new(failing: List<u32>) -> CallPlan
        ensures { result ≡ record { failing = failing; next = 0 } }
    {
        CallPlan { failing, next: 0 }
    }

    /// Counts a call, and answers whether it is to fail. The cost is linear in the plan.
    pub(crate) fn fails(&mut self) -> bool
        ensures fails { IsTrue result ↔ Contains self.old.failing self.old.next }
        ensures next { self.new.next ≡ min (self.old.next + 1) u32.MAX }
        ensures failing { self.new.failing ≡ self.old.failing }
    {
        let number = self.next;
        self.next = number.saturating_add(1);
        self.failing.as_slice().contains(&number)
    }
}
