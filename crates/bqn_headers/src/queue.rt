ghost use Rattle.std.specs.Prelude.{◌≡◌, ◌++◌, ◌∷◌, [], ◌==◌, length, OnOk};
ghost use Rattle.std.specs.Option.{MatchOption, option_copied};
ghost use Rattle.std.specs.List.{slice_get};
ghost use Rattle.bqn_headers.specs.Queues.{only};

use std::alloc::{AllocFailed, Global};
use std::collections::VecDeque;
use std::marker::Model;

/// A queue that contracts see as the list of its elements.
#[derive(Drop)]
pub(crate) struct Queue<T> {
    items: VecDeque<T>,
}

impl<T> Model for Queue<T> {
    ghost use Rattle.std.specs.Prelude.{List};
    ghost use Rattle.std.specs.Coded.{coded_list};

    ghost Value = { List T };

    ghost coded = { coded_list T.code };

    ghost view = { λ queue. queue.items.items };
}

impl<T> Queue<T> {
    pub(crate) fn new(alloc: Global) -> Queue<T>
        ensures { result ≡ [] }
    {
        Queue {
            items: VecDeque::new(alloc),
        }
    }

    pub(crate) fn len(&self) -> usize
        ensures { result ≡ length self.now }
    {
        self.items.len()
    }

    pub(crate) fn is_empty(&self) -> bool
        ensures { result ≡ (length self.now == 0) }
    {
        self.items.is_empty()
    }

    /// The first element, unless there is none.
    pub(crate) fn first(&self) -> Option<&T>
        ensures { option_copied result ≡ slice_get self.now 0 }
    {
        self.items.front()
    }

    /// Puts an element after the others.
    pub(crate) fn push(&mut self, item: T) -> Result<(), AllocFailed<T>>
        ensures { OnOk result (self.new ≡ self.old ++ item ∷ []) }
    {
        self.items.push_back(item)
    }

    /// Takes the first element, unless there is none.
    pub(crate) fn pop(&mut self) -> Option<T>
        ensures { MatchOption result (self.old ≡ []) (λ item. self.old ≡ item ∷ self.new) }
    {
        self.items.pop_front()
    }
}

impl<T: Drop> Queue<T> {
    /// The element, where there is one alone.
    pub(crate) fn only(&self) -> Option<&T>
        ensures { option_copied result ≡ only self.now }
    {
        if self.len() != 1 {
            return None;
        }
        self.first()
    }

    /// The element, where there is one alone.
    pub(crate) fn into_only(self) -> Option<T>
        ensures { result ≡ only self }
    {
        let mut queue = self;
        let first = queue.pop();
        if !queue.is_empty() {
            return None;
        }
        first
    }
}
