// Calls of a keeper that fail: as chance has it, and as words name them.
use rv_base::{Memory, Sequence};
use rv_keeper::{Fails, Schedule};
use std::alloc::Global;
use trial_stage::{Draws, call_named, number_after};

// Of how many calls of each kind a schedule tells.
const CALLS: u64 = 500;

// Adds a call that fails, where its chance comes.
fn add(
    schedule: &mut Schedule,
    draws: &mut Draws,
    one_in: usize,
    call: Fails,
) -> Result<(), Memory> {
    if draws.once_in(one_in) {
        schedule.push(call)?;
    }
    Ok(())
}

/// The schedule of a seed, at which of the calls of each kind but loads one in so many fails, and of the commits one in so many is
/// refused memory, or none where that is 0.
pub fn schedule(alloc: Global, seed: u64, one_in: usize) -> Result<Schedule, Memory> {
    let mut draws = Draws::new(seed);
    let mut schedule = Sequence::new(alloc);
    if one_in == 0 {
        return Ok(schedule);
    }
    for number in 1..=CALLS {
        add(&mut schedule, &mut draws, one_in, Fails::Before(number))?;
        add(&mut schedule, &mut draws, one_in, Fails::After(number))?;
        add(&mut schedule, &mut draws, one_in, Fails::Generation(number))?;
        add(&mut schedule, &mut draws, one_in, Fails::Memory(number))?;
    }
    Ok(schedule)
}

/// Calls that fail, and by how much somebody else raises the generation.
#[derive(Drop)]
pub struct Troubles {
    /// The calls.
    pub schedule: Schedule,
    /// By how much, before the first question for it.
    pub raised: u64,
}

impl Troubles {
    /// These calls alone.
    pub fn of(schedule: Schedule) -> Troubles {
        Troubles {
            schedule,
            raised: 0,
        }
    }
}

/// The troubles of words with commas between, as `before1,generation1` or `after1,raised5`. A word that is none is left out.
pub fn troubles_of(alloc: Global, words: &str) -> Result<Troubles, Memory> {
    let mut schedule = Sequence::new(alloc);
    let mut raised = 0;
    for word in words.split(',') {
        if let Some(call) = call_named(word) {
            schedule.push(call)?;
        }
        raised = number_after(word, "raised").unwrap_or(raised);
    }
    Ok(Troubles { schedule, raised })
}
