use std::alloc::Global;

/// The number of places of the smallest table that is not empty.
const FEWEST: usize = 16;

/// A direct-mapped table of candidates: the low bits of a number select the place, and a later candidate replaces an
/// earlier one. The caller has to verify each candidate that it finds.
#[derive(Debug, Drop)]
pub(crate) struct Candidates<T: Copy> {
    places: Vec<T>,
}

impl<T: Copy> Candidates<T> {
    /// A table without places. Allocates nothing.
    pub(crate) fn new(alloc: Global) -> Self {
        Candidates {
            places: Vec::new(alloc),
        }
    }

    /// Doubles the table if it has at most `count` places and fewer than `most`, and returns whether it grew. A table
    /// without places gets the smallest number of places. The table stays as it is if memory runs out.
    pub(crate) fn grow(&mut self, count: usize, most: usize, nothing: T) -> bool {
        let len = self.places.len();
        if len > count || len >= most {
            return false;
        }
        if len == 0 {
            return self.places.resize(FEWEST, nothing).is_ok();
        }
        // Each candidate stands in both halves, so that it is found as before.
        self.places.extend_from_within(..).is_ok()
    }

    /// Sets each place to this candidate.
    pub(crate) fn fill(&mut self, candidate: T) {
        for place in self.places.as_mut_slice() {
            *place = candidate;
        }
    }

    /// Drops all candidates and places.
    pub(crate) fn forget(&mut self) {
        self.places = Vec::new(*self.places.allocator());
    }

    /// Stores a candidate, if the table has places.
    pub(crate) fn store(&mut self, number: usize, candidate: T) {
        let place = self.place(number);
        if let Some(kept) = self.places.get_mut(place) {
            *kept = candidate;
        }
    }

    /// The candidate for a number, if the table has places.
    pub(crate) fn find(&self, number: usize) -> Option<T> {
        self.places.get(self.place(number)).copied()
    }

    /// The place that a number's low bits select: the number of places is a power of two.
    fn place(&self, number: usize) -> usize {
        number & self.places.len().wrapping_sub(1)
    }
}
