use crate::cells::{copied, put, remove};
use crate::running::{Finished, Pieces, run_alone, run_connected};
use rv_base::Memory;
use rv_doubles::MemoryPlace;
use rv_keeper::{Fails, Schedule, Shelves};
use std::alloc::Global;
use std::sync::Wait;
use std::thread::Threads;
use trial_stage::Part::Text;
use trial_stage::{Stage, joined, text_of, words_at};

/// Where the bytes of an input come from.
#[derive(Clone, Copy)]
pub enum Way {
    /// From the input of the program.
    Input,
    /// From the one connection that comes.
    Connection,
    /// From nowhere: none comes.
    NoConnection,
}

/// The words of a command line, an input, and the store that they run on.
#[derive(Drop)]
pub struct Case {
    /// The words.
    pub words: Vec<String>,
    /// The bytes of the input.
    pub input: Vec<u8>,
    /// Where they come from.
    pub way: Way,
    /// The store is `kept`, one of the place; else it is `memory`.
    pub is_stated: bool,
    /// The cells that it holds at first.
    pub shelves: Shelves,
    /// The generation that it has at first.
    pub generation: u64,
    /// The calls at which its keeper fails.
    pub fails: Vec<Fails>,
    /// The calls for a keeper that fail, from 1.
    pub opens: Vec<u64>,
    /// The place that stays from one run to the next, once there was one.
    pub place: Option<MemoryPlace>,
    /// The bytes of the file that was remembered last.
    pub remembered: Vec<u8>,
}

// Adds a line.
fn add_line(input: &mut Vec<u8>, line: &str) -> Result<(), Memory> {
    input.extend_from_slice(line.as_bytes())?;
    input.push(b'\n')?;
    Ok(())
}

impl Case {
    /// No words, no input, the store in memory, and no call that fails.
    pub fn new(alloc: Global) -> Case {
        Case {
            words: Vec::new(alloc),
            input: Vec::new(alloc),
            way: Way::Input,
            is_stated: false,
            shelves: Shelves::new(alloc),
            generation: 0,
            fails: Vec::new(alloc),
            opens: Vec::new(alloc),
            place: None,
            remembered: Vec::new(alloc),
        }
    }

    /// Takes other words.
    pub fn say(&mut self, alloc: Global, words: &str) -> Result<(), Memory> {
        self.words = words_at(alloc, ' ', words)?;
        Ok(())
    }

    /// Takes one more word, which may have blanks.
    pub fn add_word(&mut self, alloc: Global, word: &str) -> Result<(), Memory> {
        let word = joined(alloc, &[Text(word)])?;
        self.words.push(word)?;
        Ok(())
    }

    /// Adds a line to the input.
    pub fn add_line(&mut self, line: &str) -> Result<(), Memory> {
        add_line(&mut self.input, line)
    }

    /// Adds bytes to the input.
    pub fn add_bytes(&mut self, bytes: &[u8]) -> Result<(), Memory> {
        self.input.extend_from_slice(bytes)?;
        Ok(())
    }

    /// Adds so many blanks to the input.
    pub fn add_blanks(&mut self, count: u64) -> Result<(), Memory> {
        for _ in 0..count {
            self.input.push(b' ')?;
        }
        Ok(())
    }

    /// The input, with a stop after each line.
    pub fn with_stops(&self, alloc: Global) -> Result<Vec<u8>, Memory> {
        let mut input = Vec::new(alloc);
        for line in text_of(&self.input).lines() {
            add_line(&mut input, line)?;
            add_line(&mut input, "{\"stop\":true}")?;
        }
        Ok(input)
    }

    /// Has the input come another way.
    pub fn come(&mut self, way: Way) -> Result<(), Memory> {
        self.way = way;
        Ok(())
    }

    /// The name of the store.
    pub fn name(&self) -> &'static str {
        if self.is_stated { "kept" } else { "memory" }
    }

    // The schedule of the first keeper.
    fn schedule(&self, alloc: Global) -> Result<Schedule, Memory> {
        Ok(Schedule::from_vec(Vec::from_slice(alloc, &self.fails)?))
    }

    // The schedules of keepers.
    fn schedules(&self, alloc: Global) -> Result<Vec<Schedule>, Memory> {
        let mut schedules = Vec::new(alloc);
        schedules.push(self.schedule(alloc)?)?;
        Ok(schedules)
    }

    // Adds the store to a place.
    fn add_store(&self, alloc: Global, place: &mut MemoryPlace) -> Result<(), Memory> {
        let shelves = copied(alloc, &self.shelves)?;
        place.add_store(self.name(), shelves, self.generation)
    }

    /// A place that has the store.
    pub fn new_place(&self, alloc: Global) -> Result<MemoryPlace, Memory> {
        let schedules = self.schedules(alloc)?;
        let opens = Vec::from_slice(alloc, &self.opens)?;
        let mut place = MemoryPlace::new(alloc, schedules, opens);
        self.add_store(alloc, &mut place)?;
        Ok(place)
    }

    /// The place that stays, which begins with the store.
    pub fn lasting_place(&mut self, alloc: Global) -> Result<MemoryPlace, Memory> {
        match self.place.take() {
            Some(place) => Ok(place),
            None => self.new_place(alloc),
        }
    }

    /// The store is one of the place from here on, and the words feed it.
    pub fn state(&mut self, alloc: Global) -> Result<(), Memory> {
        self.is_stated = true;
        self.say(alloc, "rv feed kept")
    }

    /// The store is one of the place from here on, with what it holds there.
    pub fn take(&mut self, alloc: Global, place: &MemoryPlace) -> Result<(), Memory> {
        if let Some(store) = place.store(self.name()) {
            self.shelves = copied(alloc, &store.shelves)?;
            self.generation = store.generation;
        }
        self.state(alloc)
    }

    /// Writes the cell of `SHELF KEY BODY` to the store.
    pub fn put(&mut self, alloc: Global, text: &str) -> Result<(), Memory> {
        put(alloc, &mut self.shelves, text)?;
        self.state(alloc)
    }

    /// Takes away the store's cell at `SHELF KEY`.
    pub fn remove(&mut self, alloc: Global, text: &str) -> Result<(), Memory> {
        remove(alloc, &mut self.shelves, text)?;
        self.state(alloc)
    }

    /// This call for a keeper fails.
    pub fn fail_opening(&mut self, call: u64) -> Result<(), Memory> {
        self.opens.push(call)?;
        Ok(())
    }

    /// The keeper fails at this call.
    pub fn fail(&mut self, call: Fails) -> Result<(), Memory> {
        self.fails.push(call)?;
        Ok(())
    }

    /// Sets the store's generation.
    pub fn set_generation(&mut self, alloc: Global, generation: u64) -> Result<(), Memory> {
        self.generation = generation;
        self.state(alloc)
    }

    /// Runs the case over a place.
    pub fn run_in<R: Threads + Wait + Sync>(
        &self,
        stage: &Stage<'_, R>,
        place: &mut MemoryPlace,
        pieces: Pieces,
    ) -> Result<Finished, Memory> {
        run_alone(stage, &self.words, place, &self.input, pieces)
    }

    /// Runs the words of the case over a place of its own and another input.
    pub fn run_on<R: Threads + Wait + Sync>(
        &self,
        stage: &Stage<'_, R>,
        input: &[u8],
        pieces: Pieces,
    ) -> Result<Finished, Memory> {
        let mut place = self.new_place(stage.host.alloc())?;
        match self.way {
            Way::Input => run_alone(stage, &self.words, &mut place, input, pieces),
            Way::Connection => run_connected(stage, &self.words, &mut place, Some(input), pieces),
            Way::NoConnection => run_connected(stage, &self.words, &mut place, None, pieces),
        }
    }

    /// Runs the case over a place of its own.
    pub fn run<R: Threads + Wait + Sync>(
        &self,
        stage: &Stage<'_, R>,
        pieces: Pieces,
    ) -> Result<Finished, Memory> {
        self.run_on(stage, &self.input, pieces)
    }
}
