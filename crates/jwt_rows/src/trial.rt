//! How a call is tried: with ample memory, or with one of its requests for memory refused.
//!
//! Whoever runs the program refuses the requests, as `tests/programs/refuse.c` does: it takes a request for
//! `ORDER` bytes and N more, which no machine could meet, as the order to refuse the Nth request
//! that comes after it.

use std::alloc::Global;
use std::cell::Cell;

const ORDER: usize = 1 << 47;

/// One try of a call.
#[derive(Drop)]
pub struct Trial {
    alloc: Global,
    /// The request for memory that is to be refused, counted from 1; 0 if none is.
    number: usize,
    has_begun: Cell<bool>,
    was_refused: Cell<bool>,
}

impl Trial {
    /// Returns a trial in which the request of this number is refused, or none if it is 0.
    pub fn new(alloc: Global, number: usize) -> Trial {
        Trial {
            alloc,
            number,
            has_begun: Cell::new(false),
            was_refused: Cell::new(false),
        }
    }

    /// Orders the refusal. The call is made right after this.
    pub fn begin(&self) {
        self.has_begun.set(true);
        if self.number > 0 {
            self.order(self.number);
        }
    }

    /// Notes whether the order was carried out. This is done right after the call, and ends the
    /// order. It does nothing if the call has not begun: then none of its requests is refused.
    pub fn end(&self) {
        if !self.has_begun.get() {
            return;
        }
        self.has_begun.set(false);
        for _ in 0..self.number {
            if self.is_next_refused() {
                return;
            }
        }
        self.was_refused.set(self.number > 0);
    }

    /// Returns whether a request of the call was refused.
    pub fn was_refused(&self) -> bool {
        self.was_refused.get()
    }

    /// Returns whether the orders are carried out.
    pub fn is_obeyed(&self) -> bool {
        self.order(1);
        self.is_next_refused()
    }

    fn order(&self, number: usize) {
        let _refused = Vec::<u8>::with_capacity(self.alloc, ORDER.saturating_add(number));
    }

    fn is_next_refused(&self) -> bool {
        Box::new(self.alloc, 0u8).is_err()
    }
}
