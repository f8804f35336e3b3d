// What is remembered of drawn lines: how many retirements were asked of each group, and the looks that stood before the book was closed.
use rv_base::Memory;
use std::alloc::Global;
use trial_stage::Draws;

/// How many client groups there are at a time.
pub const GROUPS: usize = 4;

/// How many clients there are at a time.
pub const CLIENTS: usize = 5;

// A look that stood in a book that was to be closed: its group, its place and its order.
#[derive(Drop)]
struct Earlier {
    group: String,
    place: u32,
    order: u64,
}

/// Groups and clients are told by numbers. A group that is retired gives its number a later age, with another name.
#[derive(Drop)]
pub struct Story {
    /// What comes next.
    pub draws: Draws,
    ages: Vec<usize>,
    looks: Vec<Earlier>,
}

impl Story {
    /// The story of a seed.
    pub fn new(alloc: Global, seed: u64) -> Story {
        Story {
            draws: Draws::new(seed),
            ages: Vec::new(alloc),
            looks: Vec::new(alloc),
        }
    }

    /// A retirement of a group is asked.
    pub fn retires(&mut self, group: usize) -> Result<(), Memory> {
        self.ages.push(group)?;
        Ok(())
    }

    /// The age of a group's number, which is how many of its groups were retired; or now and then the first.
    pub fn age(&mut self, group: usize) -> usize {
        if self.draws.once_in(24) {
            return 0;
        }
        self.ages
            .iter()
            .filter(|retired| **retired == group)
            .count()
    }

    /// The book is to be closed; a look of this group and this order stands at this place of it.
    pub fn closes(&mut self, group: String, place: u32, order: u64) -> Result<(), Memory> {
        self.looks.push(Earlier {
            group,
            place,
            order,
        })?;
        Ok(())
    }

    // The last look of a group before the book was closed.
    fn last_earlier(&self, group: &str) -> Option<&Earlier> {
        self.looks
            .iter()
            .rev()
            .find(|look| look.group.as_str() == group)
    }

    /// Now and then, once the book was closed, the place and the order of a look that stood before: mostly the last of this group, and
    /// else any.
    pub fn earlier_look(&mut self, group: &str) -> Option<(u32, u64)> {
        if self.looks.is_empty() || !self.draws.once_in(6) {
            return None;
        }
        if self.draws.once_in(3) {
            let look = self.looks.get(self.draws.below(self.looks.len()))?;
            return Some((look.place, look.order));
        }
        let look = self.last_earlier(group)?;
        Some((look.place, look.order))
    }

    /// This number, or now and then any below the bound.
    pub fn mostly(&mut self, number: usize, bound: usize) -> usize {
        if self.draws.once_in(24) {
            self.draws.below(bound)
        } else {
            number
        }
    }

    /// A mutation id after a client's last: mostly the next, and else one that is repeated or from the future.
    pub fn id_after(&mut self, last: u64) -> u64 {
        match self.draws.below(16) {
            0 => last,
            1 => last.saturating_add(2),
            _ => last.saturating_add(1),
        }
    }
}
